// What the scope document asks to be run: the marked examples, every table filled to its last place, and each number once; and what change requests
// brought, where effective values come from, what enters setpoint lists, how many members a role set has, who moves users, a night at once, what is
// kept beside the files, and who gives a program its roles.
// A line tells a trial and what it came to; every group of trials begins with fresh tables.
#![tactic(auto)]

use model::layout::ROW_LENGTH;
use std::io;

mod beside;
mod calls;
mod claim;
mod examples;
mod full;
mod lists;
mod night;
mod numbers;
mod programs;
mod sizes;
mod tell;
mod tries;
mod users;
mod whence;

fn main(rt: HostRuntime) -> io::Result<()> {
    let mut t = [0u32; ROW_LENGTH];
    examples::run(&rt, &mut t)?;
    claim::example(&rt, &mut t)?;
    whence::run(&rt, &mut t)?;
    lists::run(&rt, &mut t)?;
    sizes::run(&rt, &mut t)?;
    users::run(&rt, &mut t)?;
    night::run(&rt, &mut t)?;
    beside::run(&rt, &mut t)?;
    programs::run(&rt, &mut t)?;
    full::run(&rt, &mut t)?;
    numbers::run(&rt, &mut t)?;
    claim::numbers(&rt, &mut t)
}
