// Each of the numbers 1 to 6, by calls to which no lower number applies; 7 and 8 are given in full.rt, 9 in claim.rt.
use crate::calls::{access, add_right, create};
use crate::tell::number;
use crate::tries::{begin, granted, tried};
use fresh::build_fresh;
use model::Call;
use model::layout::{OWNER, PROCESSES_AT};
use model::numbers::{ADMIN, CREATE, DELETE, DIR, FILE, FILESYSTEM, PROCESSES, READ, ROOT};
use std::io;
use tables::words::set_word;

// The word of process 0's owner, and a number that no user has.
const OWNER_AT: usize = PROCESSES_AT + OWNER;

const NO_USER: u32 = 99;

// Tables that are no longer well formed.
pub(crate) fn damage(t: &mut [u32]) {
    set_word(t, OWNER_AT, NO_USER);
}

// Tables that are not well formed, and none.
fn one(rt: &impl Print, t: &mut [u32]) -> io::Result<()> {
    begin(rt, t, &[])?;
    damage(t);
    tried(
        rt,
        t,
        &[("number 1, tables with a damaged word", 0, Call::Exit)],
    )?;
    let ended = build_fresh(&mut [0u32; 10]);
    println!(rt;
        "number 1, fresh tables in a row of 10 words: {}",
        number(ended)
    )
}

// What is out of range, not live, not there, not allowed.
fn two_to_five(rt: &impl Print, t: &mut [u32]) -> io::Result<()> {
    begin(rt, t, &[])?;
    let trials = [
        ("number 2, process 64 clones", PROCESSES, Call::Clone),
        (
            "number 2, process 0 asks for access by ADMIN",
            0,
            access(ROOT, ADMIN),
        ),
        (
            "number 3, process 5, which is not live, clones",
            5,
            Call::Clone,
        ),
        (
            "number 4, process 0 asks READ on a free place",
            0,
            access(9, READ),
        ),
        (
            "number 4, process 0 executes a directory",
            0,
            Call::Execute { file: ROOT },
        ),
        ("number 5, process 0 clones without CLONE", 0, Call::Clone),
        (
            "number 5, process 0 deletes the root without DELETE",
            0,
            Call::Delete { file: ROOT },
        ),
    ];
    tried(rt, t, &trials)
}

// The root, and a directory with a file in it, by a process that has DELETE to both.
fn six(rt: &impl Print, t: &mut [u32]) -> io::Result<()> {
    for call in [
        add_right(FILESYSTEM, 0, 0, CREATE),
        add_right(FILESYSTEM, 0, 0, DELETE),
        create(DIR, ROOT),
        create(FILE, 1),
    ] {
        granted(rt, t, 0, call)?;
    }
    let trials = [
        (
            "number 6, process 0 deletes the root",
            0,
            Call::Delete { file: ROOT },
        ),
        (
            "number 6, process 0 deletes a directory with a file in it",
            0,
            Call::Delete { file: 1 },
        ),
    ];
    tried(rt, t, &trials)
}

// The numbers in their order.
pub(crate) fn run(rt: &impl Print, t: &mut [u32]) -> io::Result<()> {
    one(rt, t)?;
    two_to_five(rt, t)?;
    six(rt, t)
}
