// What each group of trials does: it begins with fresh tables and what it needs granted, and tries calls.
use crate::tell::number;
use fresh::build_fresh;
use model::numbers::FIRST_PROCESS;
use model::{Call, Refusal};
use monitor::step;
use std::io;

// The place that a grant gives which a trial needs; a refusal is told, and gives place 0.
fn needed(rt: &impl Print, ended: Result<u32, Refusal>) -> io::Result<u32> {
    if let Err(refusal) = ended {
        println!(rt; "a call that must be granted got {}", refusal.number())?;
    }
    Ok(ended.unwrap_or(0))
}

// A call that a trial needs granted, and the place that it gives.
pub(crate) fn granted(rt: &impl Print, t: &mut [u32], process: u32, call: Call) -> io::Result<u32> {
    needed(rt, step(t, process, call))
}

// Fresh tables, and the calls of process 0, which is Role Admin there, that a group of trials needs granted first.
pub(crate) fn begin(rt: &impl Print, t: &mut [u32], calls: &[Call]) -> io::Result<()> {
    needed(rt, build_fresh(t))?;
    for &call in calls {
        granted(rt, t, FIRST_PROCESS, call)?;
    }
    Ok(())
}

// Trials of one call each: the words, who asks, and what.
pub(crate) fn tried(
    rt: &impl Print,
    t: &mut [u32],
    trials: &[(&str, u32, Call)],
) -> io::Result<()> {
    for &(text, process, call) in trials {
        println!(rt; "{text}: {}", number(step(t, process, call)))?;
    }
    Ok(())
}
