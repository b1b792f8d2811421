// The row checks itself: whether it is well formed, by one walk over each table.
#![tactic(auto)]

ghost use Rattle.std.specs.Prelude.{◌≡◌};
ghost use Rattle.model.specs.WellFormed.{well_formed};
ghost use Rattle.formed.specs.Tables.{tables_ok};

use crate::walks::{files_ok, ipcs_ok, processes_ok, roles_ok, users_ok};
use model::layout::ROW_LENGTH;
use model::numbers::{FILESYSTEM, FIRST_PROCESS, PROCESS, ROOT};
use tables::places::occupied;

mod walks;

// By `&`, as in `fitting`, which says why. Every table but for its length: numbers in their ranges, free places with zeros, process 0 live, the files a tree, what is kept beside them.
#[tactic(auto, unfolding(crate::specs::Tables::tables_ok))]
fn tables_ok(t: &[u32]) -> bool
    ensures { result ≡ tables_ok t.now }
{
    processes_ok(t)
        & users_ok(t)
        & roles_ok(t)
        & ipcs_ok(t)
        & files_ok(t)
        & occupied(t, PROCESS, FIRST_PROCESS)
        & occupied(t, FILESYSTEM, ROOT)
}

// Every table has its full length, every number is in its range, free places hold zeros, process 0 is live, the files are a tree, and what is kept
// beside them is the climb's: one step of the climb for each place tells.
// The length goes first, and the row is handed on at that length, so that the compiler knows it where the walks read.
#[tactic(auto, using(crate::proofs::Exact::lengths), unfolding(model::specs::WellFormed::well_formed))]
pub fn well_formed(t: &[u32]) -> bool
    ensures { result ≡ well_formed t.now }
{
    if t.len() != ROW_LENGTH {
        return false;
    }
    tables_ok(&t[..ROW_LENGTH])
}
