// Rules C1 to C5 of a claim: what the roles of S are, and what they may do.
#![tactic(auto)]

ghost use Rattle.std.specs.Prelude.{◌≡◌, ◌<◌, ℕ, Bool};
ghost use Rattle.model.specs.Numbers.{◌unless◌};
ghost use Rattle.model.specs.Refusals.{first_broken};
ghost use Rattle.model.specs.Claims.{every_role, plain_in, spares, stays_in, C1, C2, C3, C4, C5};
ghost use Rattle.claimroles.specs.Roles.{unempowered, assigns, by_roles};

use model::numbers::{ASSIGN, CREATE, DELETE, FILESYSTEM, IPC, PROCESS, ROLES, WRITE};
use model::{Role, Rule};
use rules::refusal::keeps;
use sets::{RoleSet, all};
use tables::claim::Claim;
use tables::records::{has_right, process_at, rights_row, role_at};

// A plain value is in the set; a special one need not be.
pub fn plain_in(set: RoleSet, v: u32) -> bool
    ensures { result ≡ plain_in set.bits v }
{
    v >= ROLES || set.has(v)
}

// Whether every role in S passes.
fn every_role<F: Fn(u32) -> bool>(claim: Claim<'_>, passes: F) -> bool
    requires { F.IsAlwaysCallable passes }
    ensures { (p : ℕ → Bool) → ((r : ℕ) (b : Bool) → r < ROLES → F.post passes r b → b ≡ p r) → result ≡ every_role claim.entry.words.now p }
{
    let s = claim.roles();
    all(ROLES, |r| !s.has(r) || passes(r))
}

// C1: the process's role is in S and its type in Q.
#[tactic(auto, unfolding(model::specs::Claims::C1))]
fn c1(claim: Claim<'_>) -> bool
    ensures { result ≡ C1 claim.entry.tables.now claim.entry.words.now }
{
    let me = process_at(claim.tables, claim.process());
    claim.roles().has(me.role) && claim.process_types().has(me.rctype)
}

// C2 of a role by itself: it is not Role Admin and has no admin or assign role.
fn unempowered(role: Role) -> bool
    ensures { result ≡ unempowered role }
{
    !role.mark && role.admin.bits == 0 && role.assign.bits == 0
}

// C2 of a role and a type: the role has ASSIGN to it in some group, where the sets are its rights in each.
fn assigns(files: u32, processes: u32, ipcs: u32) -> bool
    ensures { result ≡ assigns files processes ipcs }
{
    [files, processes, ipcs]
        .iter()
        .any(|rights| RoleSet { bits: *rights }.has(ASSIGN))
}

// C2: no role in S is Role Admin, has an admin or assign role, or has ASSIGN to any type of any group. Both walks are left by a
// label at the first that does, with the rule that it breaks: the form that the scope names.
#[tactic(auto, using(sets::proofs::Walks::walks))]
fn check_c2(claim: Claim<'_>) -> Result<(), Rule>
    ensures { first_broken result ≡ 2 unless C2 claim.entry.tables.now claim.entry.words.now }
{
    let t = claim.tables;
    let mut kept = Ok(());
    'walk: for r in 0..ROLES {
        if claim.roles().has(r) {
            if !unempowered(role_at(t, r)) {
                kept = Err(Rule::C2);
                break 'walk;
            }
            let files = rights_row(t, FILESYSTEM, r);
            let processes = rights_row(t, PROCESS, r);
            let ipcs = rights_row(t, IPC, r);
            for k in 0..32 {
                if assigns(files[k], processes[k], ipcs[k]) {
                    kept = Err(Rule::C2);
                    break 'walk;
                }
            }
        }
    }
    kept
}

// C3 of a role: it has no right that changes an object of type k, and creates none.
#[tactic(auto, unfolding(model::specs::Claims::spares))]
fn spares(t: &[u32], k: u32, role: u32) -> bool
    ensures { result ≡ spares t.now k role }
{
    !has_right(t, FILESYSTEM, role, k, WRITE)
        && !has_right(t, FILESYSTEM, role, k, CREATE)
        && !has_right(t, FILESYSTEM, role, k, DELETE)
        && role_at(t, role).filecreate != k
}

// C3: no role in S has WRITE, CREATE or DELETE to the protected type, or creates files of it.
#[tactic(auto, unfolding(model::specs::Claims::C3))]
fn c3(claim: Claim<'_>) -> bool
    ensures { result ≡ C3 claim.entry.tables.now claim.entry.words.now }
{
    let k = claim.protected();
    every_role(claim, |r| spares(claim.tables, k, r))
}

// C4: compatible roles of S are in S.
#[tactic(auto, unfolding(model::specs::Claims::C4))]
fn c4(claim: Claim<'_>) -> bool
    ensures { result ≡ C4 claim.entry.tables.now claim.entry.words.now }
{
    let s = claim.roles();
    every_role(claim, |r| role_at(claim.tables, r).compatible.inside(s))
}

// C5 of a role: its plain process create, execute and chown types are in Q.
fn stays_in(q: RoleSet, role: Role) -> bool
    ensures { result ≡ stays_in q.bits role }
{
    plain_in(q, role.processcreate) && plain_in(q, role.execute) && plain_in(q, role.chown)
}

// C5: plain process create, execute and chown types of roles in S are in Q.
#[tactic(auto, unfolding(model::specs::Claims::C5))]
fn c5(claim: Claim<'_>) -> bool
    ensures { result ≡ C5 claim.entry.tables.now claim.entry.words.now }
{
    let q = claim.process_types();
    every_role(claim, |r| stays_in(q, role_at(claim.tables, r)))
}

// The first of the rules 1 to 5 that is broken.
#[tactic(auto, unfolding(crate::specs::Roles::by_roles))]
pub fn by_roles(claim: Claim<'_>) -> Result<(), Rule>
    ensures { first_broken result ≡ by_roles claim.entry.tables.now claim.entry.words.now }
{
    keeps(Rule::C1, c1(claim))?;
    check_c2(claim)?;
    keeps(Rule::C3, c3(claim))?;
    keeps(Rule::C4, c4(claim))?;
    keeps(Rule::C5, c5(claim))
}
