// The lines of the story, and how each is told: who does what, and how it ends. Where the rules do not allow it, the tables tell why: which role
// lacks which right to which type, or does not assign which role; a refusal leaves them as they were.
use crate::answers::{Ended, Judged, Reason};
use crate::blame::blame;
use crate::claim::planners_claim;
use crate::names::ADMINISTRATOR_PROCESS;
use crate::words::{File, FileType, Right, Role};
use claims::check;
use model::numbers::{EXECUTE, WRITE};
use model::{Call, Change, Objection, Refusal};
use monitor::step;
use queries::{look_type, query_forced};
use setpoints::{Setpoint, enter};
use std::io;
use tables::claim::Claim;
use tables::records::{process_at, role_at, user_role};

// What happens in a line of the story.
#[derive(Clone, Copy)]
pub(crate) enum Line {
    // A scene begins.
    Scene(&'static str),
    // The administrator asks the monitor, in these words.
    Administrator(&'static str, Call),
    // Another process does.
    Process(&'static str, u32, Call),
    // A process enters an amount in a list, in a unit of the library above the monitor.
    Amount(&'static str, Setpoint),
    // Anyone asks which role a program forces on who runs it.
    Whence(u32),
    // The checker is asked about the planner's claim.
    Checker,
}

// A role lacks a right to the type of a file.
fn lacks(rt: &impl Print, t: &[u32], process: u32, file: u32, right: u32) -> io::Result<()> {
    let role = Role(process_at(t, process).role);
    let right = Right(right);
    let rctype = FileType(look_type(t, file));
    println!(rt; "    {role} has no {right} to {rctype}")
}

// Rule 26 asks for a user's role before and for the new one.
fn assigns_not(rt: &impl Print, t: &[u32], process: u32, roles: [u32; 2]) -> io::Result<()> {
    let own = process_at(t, process).role;
    let assign = role_at(t, own).assign;
    for role in roles {
        if !assign.has(role) {
            println!(rt; "    {} does not assign {}", Role(own), Role(role))?;
        }
    }
    Ok(())
}

// Why the rules do not allow a call, of those that are not allowed in this story.
fn why(rt: &impl Print, t: &[u32], process: u32, call: Call) -> io::Result<()> {
    match call {
        Call::Access { object, right, .. } => lacks(rt, t, process, object, right),
        Call::Execute { file } => lacks(rt, t, process, file, EXECUTE),
        Call::Administer {
            change: Change::SetUserRole { user, role },
        } => assigns_not(rt, t, process, [user_role(t, user), role]),
        _ => Ok(()),
    }
}

// A call of a process.
fn ask(rt: &impl Print, t: &mut [u32], text: &str, process: u32, call: Call) -> io::Result<()> {
    let ended = step(t, process, call);
    println!(rt; "  {text}: {}", Ended(ended))?;
    if let Err(Refusal::NotAllowed) = ended {
        why(rt, t, process, call)?;
    }
    Ok(())
}

// An amount for a list: the entry that is made, or the type that is not the unit's.
fn enter_amount(rt: &impl Print, t: &[u32], text: &str, s: Setpoint) -> io::Result<()> {
    let mut entries = [0u32; 1];
    let ended = enter(t, s, &mut entries);
    println!(rt; "  {text}: {}", Ended(ended))?;
    match ended {
        Ok(_) => println!(rt; "    the entry is {} pascals", entries[0]),
        Err(Refusal::NoSuchPlace) => println!(rt;
            "    its type is {}",
            FileType(look_type(t, s.list))
        ),
        Err(Refusal::NotAllowed) => lacks(rt, t, s.process, s.list, WRITE),
        Err(_) => Ok(()),
    }
}

// Which role a program forces on who runs it, and the place that gave it that role.
fn whence(rt: &impl Print, t: &[u32], program: u32) -> io::Result<()> {
    let place = File(program);
    match query_forced(t, program) {
        Ok(up) => println!(rt;
            "  {place}: {}, from {}, parents climbed {}",
            Role(up.value),
            File(up.place),
            up.climbed
        ),
        Err(refusal) => println!(rt; "  {place}: {}", Reason(refusal)),
    }
}

// The verdict on the planner's claim, and who breaks the rule.
fn ask_checker(rt: &impl Print, t: &[u32]) -> io::Result<()> {
    let w = planners_claim();
    let judged = check(t, &w);
    println!(rt; "  The checker is asked: {}", Judged(judged))?;
    if let Err(Objection::Broken(rule)) = judged {
        let claim = Claim {
            tables: t,
            words: &w,
        };
        blame(rt, claim, rule)?;
    }
    Ok(())
}

// Tells lines of the story as they happen.
pub(crate) fn tell(rt: &impl Print, t: &mut [u32], lines: &[Line]) -> io::Result<()> {
    for &line in lines {
        match line {
            Line::Scene(text) => println!(rt; "\n{text}")?,
            Line::Administrator(text, call) => ask(rt, t, text, ADMINISTRATOR_PROCESS, call)?,
            Line::Process(text, process, call) => ask(rt, t, text, process, call)?,
            Line::Amount(text, s) => enter_amount(rt, t, text, s)?,
            Line::Whence(program) => whence(rt, t, program)?,
            Line::Checker => ask_checker(rt, t)?,
        }
    }
    Ok(())
}
