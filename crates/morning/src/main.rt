// The planner's morning: a box at a water utility on which a planning script cannot write the list that the valves are driven by.
// Everything is made from fresh tables by calls of processes; each call is told, with its answer.
#![tactic(auto)]

use fresh::build_fresh;
use model::layout::ROW_LENGTH;
use std::io;

mod answers;
mod blame;
mod calls;
mod careless;
mod claim;
mod day;
mod names;
mod people;
mod places;
mod story;
mod words;

// What the story is about.
const BEGINNING: [&str; 4] = [
    "A planning script once wrote 45, meaning metres of head, into the list that the valve driver reads in kilopascals.",
    "Here the box is set up so that it cannot, and the script tries again.",
    "The monitor sees types and rights, never the 45 itself: so lists in metres and lists in kilopascals are two types.",
    "Above it, who enters an amount names its unit, and the list must be of the unit's type; entries are in pascals.",
];

fn main(rt: HostRuntime) -> io::Result<()> {
    for line in BEGINNING {
        rt.println(line)?;
    }
    let mut t = [0u32; ROW_LENGTH];
    // A row of full length is never refused.
    let _ = build_fresh(&mut t);
    people::run(&rt, &mut t)?;
    places::run(&rt, &mut t)?;
    day::run(&rt, &mut t)?;
    careless::run(&rt, &mut t)
}
