// The places of a group's objects: which are taken, and the lowest that is free.
ghost use Rattle.std.specs.Prelude.{◌≡◌};
ghost use Rattle.model.specs.Records.{place_addr, occupied as occupied_of, free_place};

use crate::addresses::{file_addr, ipc_addr, process_addr};
use crate::words::word;
use model::numbers::{FILESYSTEM, PROCESS};
use rules::ranges::places;
use sets::lowest;

// Where the record of a place begins.
pub fn place_addr(group: u32, p: u32) -> usize
    ensures { result ≡ place_addr group p }
{
    match group {
        FILESYSTEM => file_addr(p),
        PROCESS => process_addr(p),
        _ => ipc_addr(p),
    }
}

// A place's first word, its live mark or its kind, is 0 where the place is free.
#[tactic(auto, unfolding(model::specs::Records::occupied))]
pub fn occupied(t: &[u32], group: u32, p: u32) -> bool
    ensures { result ≡ occupied_of t.now group p }
{
    word(t, place_addr(group, p)) != 0
}

// The lowest free place; one past the last where there is none, as the definition has it.
#[tactic(auto, unfolding(model::specs::Records::free_place))]
pub fn free_place(t: &[u32], group: u32) -> u32
    ensures { result ≡ free_place t.now group }
{
    let count = places(group);
    lowest(count, |p| !occupied(t, group, p)).unwrap_or(count)
}
