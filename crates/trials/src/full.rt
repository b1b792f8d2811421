// Every table filled to its last place, and the tree to its last depth, with the rights needed added first.
use crate::calls::{add_right, create};
use crate::tell::{Placed, number};
use crate::tries::{begin, granted, tried};
use model::numbers::{CLONE, CREATE, DEEPEST, DIR, FILE, FILES, FILESYSTEM, IPC, PROCESS, ROOT};
use model::{Answer, Call};
use monitor::step;
use std::io;

// How often process 0 is granted a call before the first refusal; no table has more places than the files.
fn times(t: &mut [u32], call: Call) -> usize {
    (0..FILES).take_while(|_| step(t, 0, call).is_ok()).count()
}

// So many directories, the first in the root and each other in the one before it; the last one's place.
pub(crate) fn chain(rt: &impl Print, t: &mut [u32], deep: u32) -> io::Result<u32> {
    let mut place = ROOT;
    for _ in 0..deep {
        place = granted(rt, t, 0, create(DIR, place))?;
    }
    Ok(place)
}

// A table is filled by a call, for which role 0 has the right; how often it was granted, and the number that the next one gets.
fn filled(
    rt: &impl Print,
    t: &mut [u32],
    text: &str,
    group: u32,
    right: u32,
    call: Call,
) -> io::Result<()> {
    begin(rt, t, &[add_right(group, 0, 0, right)])?;
    let granted = times(t, call);
    println!(rt;
        "{granted} {text} granted, the next: {}",
        number(step(t, 0, call))
    )
}

// A place that an exit leaves is the lowest free one.
fn place_again(rt: &impl Print, t: &mut [u32]) -> io::Result<()> {
    tried(rt, t, &[("process 7 exits", 7, Call::Exit)])?;
    let clone = Answer::from(step(t, 0, Call::Clone));
    println!(rt; "a clone after that: {}", Placed(clone))?;
    tried(rt, t, &[("the next clone", 0, Call::Clone)])
}

// The tree to its last depth. Where the table is full as well, the depth is told: 7 is the lower number.
fn depths(rt: &impl Print, t: &mut [u32]) -> io::Result<()> {
    begin(rt, t, &[add_right(FILESYSTEM, 0, 0, CREATE)])?;
    let above = chain(rt, t, DEEPEST - 1)?;
    let last = Answer::from(step(t, 0, create(DIR, above)));
    println!(rt; "a directory at depth 15: {}", Placed(last))?;
    tried(
        rt,
        t,
        &[("a directory at depth 16", 0, create(DIR, last.place))],
    )?;
    let more = times(t, create(FILE, ROOT));
    let next = step(t, 0, create(FILE, last.place));
    println!(rt;
        "{more} more creations granted, the next at depth 16: {}",
        number(next)
    )
}

// Each table filled in turn, and then the tree to its last depth.
pub(crate) fn run(rt: &impl Print, t: &mut [u32]) -> io::Result<()> {
    filled(rt, t, "clones", PROCESS, CLONE, Call::Clone)?;
    place_again(rt, t)?;
    filled(rt, t, "creations", FILESYSTEM, CREATE, create(FILE, ROOT))?;
    filled(rt, t, "IPC creations", IPC, CREATE, Call::CreateIpc)?;
    depths(rt, t)
}
