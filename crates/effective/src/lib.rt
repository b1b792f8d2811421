// Effective values (rules 5, 17, 19) by the climb itself, for the queries: the type, the initial or the forced value of a file, with the count of
// parents and the place where the climb ends. Calls and claims read what is kept of it.
#![tactic(auto)]

ghost use Rattle.std.specs.Prelude.{◌≡◌};
ghost use Rattle.model.specs.Effective.{root_value, effective as effective_of};

use climbing::climb;
use model::Climbed;
use model::layout::{DEPTH, FILE_TYPE, INITIAL};
use model::numbers::{DEPTHS, ROOT_FORCED, ROOT_INITIAL, ROOT_TYPE};
use tables::records::file_word;

mod climbing;

// What inherit parent reads as at the root.
#[tactic(auto, unfolding(model::specs::Effective::root_value))]
fn root_value(slot: u32) -> u32
    ensures { result ≡ root_value slot }
{
    match slot {
        FILE_TYPE => ROOT_TYPE,
        INITIAL => ROOT_INITIAL,
        _ => ROOT_FORCED,
    }
}

// The effective value of word `slot` of file o, the parents climbed to it, and the place where the climb ended. A file has as many parents as
// its depth says; the remainder keeps the climb short on any row.
#[tactic(auto, unfolding(model::specs::Effective::effective))]
pub fn effective(t: &[u32], slot: u32, o: u32) -> Climbed
    ensures { result ≡ effective_of t.now slot o }
{
    climb(t, file_word(t, o, DEPTH) % DEPTHS, slot, o)
}
