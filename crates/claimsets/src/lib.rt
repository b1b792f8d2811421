// What the roles of a set may do as a whole, worked out of the roles alone, so that the claim checker tests each file by whole words.
#![tactic(auto)]

ghost use Rattle.std.specs.Prelude.{◌≡◌, ◌<◌, ℕ};
ghost use Rattle.sets.specs.Sets.{joined as joined_of, union};
ghost use Rattle.model.specs.Words.{◌!◌};
ghost use Rattle.model.specs.Layout.{rights_addr};
ghost use Rattle.claimsets.specs.Family.{GivesBy, reach as reach_of, birth as birth_of, born, row_of, closed as closed_of};

use model::numbers::{CREATE, FILESYSTEM, ROLES, TYPES};
use sets::{RoleSet, each};
use tables::addresses::rights_addr;
use tables::records::role_at;
use tables::words::set_at;

// The set of all 32 roles.
pub const EVERY_ROLE: u32 = 0xffff_ffff;

// A row of sets, one for each type, gets what rights to the type give, as far as the rights go.
#[tactic(auto, using(crate::proofs::Family::rows))]
fn join_row<F: Fn(RoleSet) -> RoleSet>(row: &mut [u32; 32], rights: &[u32], gives: F)
    requires { F.IsAlwaysCallable gives }
    ensures { (f : ℕ → ℕ) → GivesBy (F.post gives) f → (k : ℕ) → k < 32 → row.new ! k ≡ joined_of (row.old ! k) (f (rights.now ! k)) }
{
    for k in 0..rights.len().min(32) {
        row[k] = set_at(row, k).join(gives(set_at(rights, k))).bits;
    }
}

// For each type of a group, what the roles of the set give by their rights to it.
fn joined<F: Fn(u32, RoleSet) -> RoleSet>(
    t: &[u32],
    roles: RoleSet,
    group: u32,
    gives: F,
) -> [u32; 32]
    requires { F.IsAlwaysCallable gives }
    ensures { (f : ℕ → ℕ → ℕ) → ((r : ℕ) → GivesBy (F.post gives r) (f r)) → (k : ℕ) → k < 32 → result ! k ≡ union ROLES roles.bits (λ r. f r (t.now ! rights_addr group r k)) }
{
    let mut row = [0u32; 32];
    for r in 0..ROLES {
        if roles.has(r) {
            if let Some(rights) = t.get(rights_addr(group, r, 0)..) {
                join_row(&mut row, rights, |rights| gives(r, rights));
            }
        }
    }
    row
}

// The types of a group to which a role of the set has the right.
pub fn reach(t: &[u32], roles: RoleSet, group: u32, right: u32) -> RoleSet
    ensures { result.bits ≡ reach_of t.now roles.bits group right }
{
    let row = joined(t, roles, group, |_, rights| rights);
    let mut types = RoleSet { bits: 0 };
    for k in 0..TYPES {
        if set_at(&row, k as usize).has(right) {
            types = types.add(k);
        }
    }
    types
}

// What a role creates below a DIR of a type by its rights to that type: nothing where it has no CREATE, or where what it creates inherits. The
// created type comes before the test, so that it is worked out once for all types: within it a dense claim costs 37,351 instructions.
#[tactic(auto, unfolding(crate::specs::Family::birth))]
fn birth(t: &[u32], role: u32, rights: RoleSet) -> RoleSet
    ensures { result.bits ≡ birth_of t.now role rights.bits }
{
    let none = RoleSet { bits: 0 };
    let made = none.add(role_at(t, role).filecreate);
    if rights.has(CREATE) { made } else { none }
}

// The types of what roles of the set create below a DIR of each of the 32 types.
pub fn births(t: &[u32], roles: RoleSet) -> [u32; 32]
    ensures { result ≡ row_of (born t.now roles.bits) }
{
    joined(t, roles, FILESYSTEM, |r, rights| birth(t, r, rights))
}

// Whether everything that is created below the types of a set is of a type in it. Every type is tested, without a branch: by a walk that leaves, a claim
// that is accepted meets twice the branches that are guessed wrong.
#[tactic(auto, unfolding(crate::specs::Family::closed))]
pub fn closed(row: [u32; 32], types: RoleSet) -> bool
    ensures { result ≡ closed_of row types.bits }
{
    each(TYPES, |k| {
        !types.has(k) | set_at(&row, k as usize).inside(types)
    })
}
