// A night's calls at once (W-205). An item is sixteen bytes, a kind, the caller, the call's numbers and then zeros; its answer is two, the number and
// the place. The night is told item by item, and the tables that it leaves are held against those of the same calls made one by one.
use crate::calls::{access, add_right};
use crate::numbers::damage;
use crate::tell::{Placed, number};
use crate::tries::begin;
use batch::batch;
use formed::well_formed;
use model::layout::ROW_LENGTH;
use model::numbers::{CLONE, FILESYSTEM, PROCESS, PROCESSES, READ, ROOT, WRITE};
use model::{Answer, Call};
use monitor::step;
use std::io;

const ITEM_BYTES: usize = 16;

const ANSWER_BYTES: usize = 2;

const ITEMS: usize = 11;

const ANSWERS: usize = ITEMS * ANSWER_BYTES;

// What is lent for answers holds this first, which is no number and no place.
const UNWRITTEN: u8 = 255;

// The night: each item in words and as it is sent, kind, caller, four numbers in the order of docs/KINDS.md, and the rest. Refused items stand
// between granted ones: process 1 is made, exits, and the last item takes its place.
const NIGHT: [(&str, [u8; ITEM_BYTES]); ITEMS] = [
    (
        "a1 process 0 asks READ on the root",
        [1, 0, 0, 0, 0, 0, 0, 0, 0, 0, 0, 0, 0, 0, 0, 0],
    ),
    (
        "a2 process 0 adds WRITE for role 1 to file type 2",
        [20, 0, 0, 1, 2, 1, 0, 0, 0, 0, 0, 0, 0, 0, 0, 0],
    ),
    (
        "kind 14, which is none since W-207",
        [14, 0, 0, 7, 0, 0, 0, 0, 0, 0, 0, 0, 0, 0, 0, 0],
    ),
    (
        "process 0 adds CLONE for role 0 to process type 0",
        [20, 0, 1, 0, 0, 6, 0, 0, 0, 0, 0, 0, 0, 0, 0, 0],
    ),
    (
        "a clone whose last byte is 1",
        [2, 0, 0, 0, 0, 0, 0, 0, 0, 0, 0, 0, 0, 0, 0, 1],
    ),
    (
        "process 0 clones",
        [2, 0, 0, 0, 0, 0, 0, 0, 0, 0, 0, 0, 0, 0, 0, 0],
    ),
    (
        "process 1 exits",
        [3, 1, 0, 0, 0, 0, 0, 0, 0, 0, 0, 0, 0, 0, 0, 0],
    ),
    (
        "process 1, which is not live, clones",
        [2, 1, 0, 0, 0, 0, 0, 0, 0, 0, 0, 0, 0, 0, 0, 0],
    ),
    (
        "process 64 clones",
        [2, 64, 0, 0, 0, 0, 0, 0, 0, 0, 0, 0, 0, 0, 0, 0],
    ),
    (
        "process 0 exits",
        [3, 0, 0, 0, 0, 0, 0, 0, 0, 0, 0, 0, 0, 0, 0, 0],
    ),
    (
        "process 0 clones again",
        [2, 0, 0, 0, 0, 0, 0, 0, 0, 0, 0, 0, 0, 0, 0, 0],
    ),
];

// The night, with a byte lent past its answers.
fn night(rt: &impl Print, t: &mut [u32]) -> io::Result<()> {
    let items = NIGHT.map(|(_, item)| item);
    let mut answers = [UNWRITTEN; ANSWERS + 1];
    let ended = batch(t, items.as_flattened(), &mut answers);
    println!(rt; "eleven calls at once: {}", number(ended))?;
    let (pairs, _) = answers.as_chunks::<ANSWER_BYTES>();
    for (k, ((text, _), &[number, place])) in NIGHT.iter().zip(pairs).enumerate() {
        let answer = Answer {
            number: u32::from(number),
            place: u32::from(place),
        };
        println!(rt; "item {k}, {text}: {}", Placed(answer))?;
    }
    println!(rt; "the byte past the answers: {}", answers[ANSWERS])
}

// The numbers of whole batches, each with the first of three bytes lent for its answers: an item that was made would have changed it.
fn whole(rt: &impl Print, t: &mut [u32], trials: &[(&str, &[u8])]) -> io::Result<()> {
    for &(text, calls) in trials {
        let mut answers = [UNWRITTEN; 3];
        let number = number(batch(t, calls, &mut answers));
        println!(rt; "{text}: {number}, first answer byte {}", answers[0])?;
    }
    Ok(())
}

// The tables stay as the night left them.
fn unmade(rt: &impl Print, t: &mut [u32]) -> io::Result<()> {
    let trials: [(&str, &[u8]); 3] = [
        ("number 2, a call and a byte more", &[0u8; ITEM_BYTES + 1]),
        (
            "number 2, two calls and a byte too few for their answers",
            &[0u8; 2 * ITEM_BYTES],
        ),
        ("no calls", &[]),
    ];
    whole(rt, t, &trials)
}

// Whether something holds, in a word.
fn yes_or_no(holds: bool) -> &'static str {
    if holds { "yes" } else { "no" }
}

// What the night left, beside what its calls leave one by one, without the two items that are no call.
fn left(rt: &impl Print, t: &[u32]) -> io::Result<()> {
    let mut others = [0u32; ROW_LENGTH];
    begin(rt, &mut others, &[])?;
    for (process, call) in [
        (0, access(ROOT, READ)),
        (0, add_right(FILESYSTEM, 1, 2, WRITE)),
        (0, add_right(PROCESS, 0, 0, CLONE)),
        (0, Call::Clone),
        (1, Call::Exit),
        (1, Call::Clone),
        (PROCESSES, Call::Clone),
        (0, Call::Exit),
        (0, Call::Clone),
    ] {
        let _ = step(&mut others, process, call);
    }
    println!(rt; "the tables are well formed: {}", yes_or_no(well_formed(t)))?;
    println!(rt;
        "the calls one by one leave the same tables: {}",
        yes_or_no(t == others.as_slice())
    )
}

// Batches on tables that are no longer well formed.
fn damaged(rt: &impl Print, t: &mut [u32]) -> io::Result<()> {
    damage(t);
    let trials: [(&str, &[u8]); 2] = [
        ("number 1, tables with a damaged word", &[0u8; ITEM_BYTES]),
        ("number 1, no calls on them", &[]),
    ];
    whole(rt, t, &trials)
}

// The night, what it leaves, and batches that are refused as a whole.
pub(crate) fn run(rt: &impl Print, t: &mut [u32]) -> io::Result<()> {
    begin(rt, t, &[])?;
    night(rt, t)?;
    unmade(rt, t)?;
    left(rt, t)?;
    damaged(rt, t)
}
