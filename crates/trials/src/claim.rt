// Claims: a10, and the numbers that a claim may get.
use crate::tell::Judged;
use crate::tries::begin;
use claims::check;
use model::layout::{CLAIM_LENGTH, CLAIM_PROCESS, CLAIM_Q, CLAIM_S};
use model::numbers::PROCESSES;
use sets::RoleSet;
use std::io;
use tables::words::set_word;

// A claim for a process and file type 0, with S and Q alike and every T empty.
fn claim(process: u32, roles: RoleSet) -> [u32; CLAIM_LENGTH] {
    let mut w = [0u32; CLAIM_LENGTH];
    set_word(&mut w, CLAIM_PROCESS, process);
    set_word(&mut w, CLAIM_S, roles.bits);
    set_word(&mut w, CLAIM_Q, roles.bits);
    w
}

// a10, which gives number 9.
pub(crate) fn example(rt: &impl Print, t: &mut [u32]) -> io::Result<()> {
    begin(rt, t, &[])?;
    let none = RoleSet { bits: 0 };
    for (text, roles) in [("S empty", none), ("S = {0}, Q = {0}", none.add(0))] {
        let judged = Judged(check(t, &claim(0, roles)));
        println!(rt; "a10 claim for process 0 with {text}: {judged}")?;
    }
    Ok(())
}

// The numbers 1 to 3.
pub(crate) fn numbers(rt: &impl Print, t: &mut [u32]) -> io::Result<()> {
    begin(rt, t, &[])?;
    let none = RoleSet { bits: 0 };
    for (text, ended) in [
        ("number 1, a claim of no words", check(t, &[])),
        (
            "number 2, a claim for process 64",
            check(t, &claim(PROCESSES, none)),
        ),
        (
            "number 3, a claim for process 5, which is not live",
            check(t, &claim(5, none)),
        ),
    ] {
        println!(rt; "{text}: {}", Judged(ended))?;
    }
    Ok(())
}
