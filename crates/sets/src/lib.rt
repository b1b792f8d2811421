// Sets of numbers below 32, each held in one word: whether a number is in one, with it, without it, how many.
// Sets are compared, joined and counted word by word, and not number by number.
// Beside them walks over the numbers below a bound: whether all pass a test, and the lowest that does.
#![tactic(auto)]

ghost use Rattle.std.specs.Prelude.{◌≡◌, ◌<◌, ℕ, Bool, Some, unwrap_or};
ghost use Rattle.sets.specs.Below.{all_below, first_below};
ghost use Rattle.sets.specs.Sets.{has as has_of, added, removed, size_of, meets as meets_of, inside as inside_of, joined};

// A set: number i is in it where bit i is 1.
#[derive(Clone, Copy, Debug, PartialEq, Eq)]
pub struct RoleSet {
    pub bits: u32,
}

#[tactic(auto, using(crate::proofs::Sets::by_word), unfolding(crate::specs::Sets::added))]
impl RoleSet {
    // Whether i is in the set; no number past 31 is.
    #[tactic(auto, unfolding(crate::specs::Sets::has))]
    pub fn has(self, i: u32) -> bool
        ensures { result ≡ has_of self.bits i }
    {
        i < 32 && (self.bits >> i) % 2 == 1
    }

    // The set with i in it; a number past 31 hands the set back.
    pub fn add(self, i: u32) -> RoleSet
        ensures { result.bits ≡ added self.bits i }
    {
        if self.has(i) || i >= 32 {
            return self;
        }
        RoleSet {
            bits: self.bits + (1 << i),
        }
    }

    // The set without i.
    pub fn remove(self, i: u32) -> RoleSet
        ensures { result.bits ≡ removed self.bits i }
    {
        if self.has(i) {
            return RoleSet {
                bits: self.bits - (1 << i),
            };
        }
        self
    }

    // How many numbers are in the set.
    pub fn size(self) -> u32
        ensures { result ≡ size_of self.bits }
    {
        self.bits.count_ones()
    }

    // Whether some number is in both sets.
    pub fn meets(self, other: RoleSet) -> bool
        ensures { result ≡ meets_of self.bits other.bits }
    {
        self.bits & other.bits != 0
    }

    // Whether every member is in the other set.
    pub fn inside(self, other: RoleSet) -> bool
        ensures { result ≡ inside_of self.bits other.bits }
    {
        self.bits & other.bits == self.bits
    }

    // The set of every number that is in either.
    pub fn join(self, other: RoleSet) -> RoleSet
        ensures { result.bits ≡ joined self.bits other.bits }
    {
        RoleSet {
            bits: self.bits | other.bits,
        }
    }
}

// Whether every number below n passes; it stops at the first that does not, by the library's walk.
pub fn all<F: Fn(u32) -> bool>(n: u32, passes: F) -> bool
    requires { F.IsAlwaysCallable passes }
    ensures { (p : ℕ → Bool) → ((k : ℕ) (b : Bool) → k < n → F.post passes k b → b ≡ p k) → result ≡ all_below n p }
{
    (0..n).all(passes)
}

// The same by a loop, for long tests: by the library's walk the test of the tables costs 14,191 instructions, and so 13,171.
#[tactic(auto, using(crate::proofs::Walks::walks))]
pub fn every<F: Fn(u32) -> bool>(n: u32, passes: F) -> bool
    requires { F.IsAlwaysCallable passes }
    ensures { (p : ℕ → Bool) → ((k : ℕ) (b : Bool) → k < n → F.post passes k b → b ≡ p k) → result ≡ all_below n p }
{
    for k in 0..n {
        if !passes(k) {
            return false;
        }
    }
    true
}

// The same with the verdict carried along: every number is tested, so that tests of a few steps need no branch; by the loop above, where the tables are
// tested by both, 13,799 instructions.
#[tactic(auto, using(crate::proofs::Walks::carried))]
pub fn each<F: Fn(u32) -> bool>(n: u32, passes: F) -> bool
    requires { F.IsAlwaysCallable passes }
    ensures { (p : ℕ → Bool) → ((k : ℕ) (b : Bool) → k < n → F.post passes k b → b ≡ p k) → result ≡ all_below n p }
{
    let mut ok = true;
    for k in 0..n {
        ok &= passes(k);
    }
    ok
}

// The lowest number below n that passes.
#[tactic(auto, using(crate::proofs::Walks::firsts))]
pub fn lowest<F: Fn(u32) -> bool>(n: u32, passes: F) -> Option<u32>
    requires { F.IsAlwaysCallable passes }
    ensures first { (p : ℕ → Bool) → ((k : ℕ) (b : Bool) → k < n → F.post passes k b → b ≡ p k) → unwrap_or result n ≡ first_below n p }
    ensures below { (k : ℕ) → result ≡ Some k → k < n }
{
    for k in 0..n {
        if passes(k) {
            return Some(k);
        }
    }
    None
}
