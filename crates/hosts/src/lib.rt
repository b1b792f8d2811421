// For a host that keeps the process records as structs: the row of them is lent beside the tables, and one is read or rewritten where it lies.
#![tactic(auto)]

ghost use Rattle.std.specs.Prelude.{◌≡◌};
ghost use Rattle.model.specs.Refusals.{code, answer_of};
ghost use Rattle.hosts.specs.Records.{record_at, forced_ok, record_ok, row_ok, row_outcome, change_role_at, patched, row_no};

use formed::well_formed;
use model::numbers::{FIRST_PROCESS, PROCESSES, ROLES, TYPES, USERS};
use model::{Forced, Process, Refusal};
use rules::refusal::refused_unless;
use rules::transitions::with_role;
use sets::every;
use tables::records::role_at;

// The record at a place; a free process past the end.
#[tactic(auto, unfolding(crate::specs::Records::record_at))]
pub fn record_at(row: &[Process], place: u32) -> Process
    ensures { result ≡ record_at row.now place }
{
    row.get(place as usize).copied().unwrap_or_default()
}

// A forced value that a process may have: a plain role, or a special case that is not inherit parent.
fn forced_ok(f: Forced) -> bool
    ensures { result ≡ forced_ok f }
{
    match f {
        Forced::Plain(r) => r < ROLES,
        Forced::InheritParent => false,
        Forced::InheritUser | Forced::InheritProcess | Forced::UpMixed => true,
    }
}

// A record that may stand at a place: in range where live, zeros only where free, and process 0 is live.
#[tactic(auto, unfolding(crate::specs::Records::record_ok))]
fn record_ok(place: u32, p: Process) -> bool
    ensures { result ≡ record_ok place p }
{
    if p.live {
        p.owner < USERS && p.role < ROLES && p.rctype < TYPES && forced_ok(p.forced)
    } else {
        place != FIRST_PROCESS && p == Process::default()
    }
}

// Whether the row may be lent: 64 records, each of which may stand at its place.
#[tactic(auto, unfolding(crate::specs::Records::row_ok))]
pub fn row_ok(row: &[Process]) -> bool
    ensures { result ≡ row_ok row.now }
{
    row.len() == (PROCESSES as usize) && every(PROCESSES, |k| record_ok(k, record_at(row, k)))
}

// Rule 15, asked of the caller's record, where the tables are well formed and the row may be lent.
#[tactic(auto, unfolding(crate::specs::Records::row_no))]
fn check_role(t: &[u32], row: &[Process], caller: u32, role: u32) -> Result<(), Refusal>
    ensures { code result ≡ row_no t.now row.now caller role }
{
    refused_unless(Refusal::IllFormed, well_formed(t) && row_ok(row))?;
    refused_unless(Refusal::OutOfRange, caller < PROCESSES && role < ROLES)?;
    let me = record_at(row, caller);
    refused_unless(Refusal::NotLive, me.live)?;
    refused_unless(
        Refusal::NotAllowed,
        role_at(t, me.role).compatible.has(role),
    )
}

// The role alone changes (H3), to what the transition by value answers, where the record lies.
#[tactic(auto, unfolding(model::specs::Transitions::with_role))]
pub fn patch_role(p: &mut Process, role: u32)
    ensures { p.new ≡ patched p.old role }
{
    p.role = with_role(role, *p).role;
}

// The change of role of the process at a place of the row: the definition's, on the tables that hold the row.
#[tactic(auto, using(crate::proofs::Laws::changes), unfolding(crate::specs::Records::record_at))]
pub fn change_role_at(
    t: &[u32],
    row: &mut [Process],
    caller: u32,
    role: u32,
) -> Result<u32, Refusal>
    ensures { row_outcome (answer_of result) row.new ≡ change_role_at t.now row.old caller role }
{
    check_role(t, row, caller, role)?;
    patch_role(&mut row[caller as usize], role);
    Ok(0)
}
