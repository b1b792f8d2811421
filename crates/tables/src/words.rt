// A word of a row. A read past the end is 0 and a write past the end is nothing, so that no caller has to show a bound.
ghost use Rattle.std.specs.Prelude.{◌≡◌, set};
ghost use Rattle.model.specs.Words.{◌!◌, put};
ghost use Rattle.model.specs.Records.{set_of};

use sets::RoleSet;

// The word at a.
pub fn word(t: &[u32], a: usize) -> u32
    ensures { result ≡ t.now ! a }
{
    t.get(a).copied().unwrap_or(0)
}

// The set kept in the word at a.
pub fn set_at(t: &[u32], a: usize) -> RoleSet
    ensures { result ≡ set_of (t.now ! a) }
{
    RoleSet { bits: word(t, a) }
}

// The row with v at a. By `get_mut` it is not proved: what it lends tells nothing of the row.
pub fn set_word(t: &mut [u32], a: usize, v: u32)
    ensures { t.new ≡ set t.old a v }
{
    if a < t.len() {
        t[a] = v;
    }
}

// The row with the words vs at a, a + 1, ..; past the end there is nothing to do.
#[tactic(auto, using(crate::proofs::Laws::puts), unfolding(model::specs::Words::put))]
pub fn put_words(t: &mut [u32], a: usize, vs: &[u32])
    ensures { t.new ≡ put t.old a vs.now }
{
    if t.len() < a {
        return;
    }
    for (k, v) in vs.iter().enumerate() {
        set_word(t, a + k, *v);
    }
}
