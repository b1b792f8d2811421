// The claim is checked: accepted as the box is set up, and refused after each careless change, by the rule that the change breaks.
use crate::calls::{
    access, add_role, amount, execute, file_right, no_file_right, remove_role, user_role,
};
use crate::names::{
    KILOPASCALS, KILOPASCALS_LIST, PLANNER, PLANNER_PROCESS, SCHEDULER, SCHEDULER_PROGRAM,
    SCHEDULING, SERVICE_PROGRAMS,
};
use crate::story::Line::{self, Administrator, Amount, Checker, Process, Scene};
use crate::story::tell;
use model::numbers::{ASSIGN_ROLES, COMPATIBLE_ROLES, EXECUTE, WRITE};
use setpoints::METRES;
use std::io;

// The claim before any change.
const AS_SET_UP: [Line; 2] = [
    Scene(
        "The planner's claim: its family, which is itself and every process that it starts, never writes, makes or deletes a list in kilopascals.",
    ),
    Checker,
];

// A right to what is protected.
fn right() -> [Line; 4] {
    [
        Scene("A careless right."),
        Administrator(
            "The planner may write lists in kilopascals",
            file_right(PLANNER, KILOPASCALS, WRITE),
        ),
        Checker,
        Administrator(
            "The administrator takes that right back",
            no_file_right(PLANNER, KILOPASCALS, WRITE),
        ),
    ]
}

// A role that leads out of the family.
fn role() -> [Line; 5] {
    [
        Scene("A careless role."),
        Administrator(
            "A planner may turn into a scheduler",
            add_role(COMPATIBLE_ROLES, PLANNER, SCHEDULER),
        ),
        Checker,
        Administrator(
            "The administrator takes that role back",
            remove_role(COMPATIBLE_ROLES, PLANNER, SCHEDULER),
        ),
        Checker,
    ]
}

// Rule 26 keeps the helper from users of other roles; a family that may administer is not confined all the same.
fn helper() -> [Line; 5] {
    [
        Scene("A helper for the administrator."),
        Administrator(
            "A planner may assign the role of planner",
            add_role(ASSIGN_ROLES, PLANNER, PLANNER),
        ),
        Process(
            "The planner's script makes the scheduling user a planner",
            PLANNER_PROCESS,
            user_role(SCHEDULING, PLANNER),
        ),
        Checker,
        Administrator(
            "The administrator takes that role back",
            remove_role(ASSIGN_ROLES, PLANNER, PLANNER),
        ),
    ]
}

// A right to run a program that brings in another role.
fn program() -> [Line; 3] {
    [
        Scene("A right that looks harmless."),
        Administrator(
            "The planner may run service programs",
            file_right(PLANNER, SERVICE_PROGRAMS, EXECUTE),
        ),
        Checker,
    ]
}

// What the checker named is what would happen; only an amount with its unit would still be refused.
fn unasked() -> [Line; 4] {
    [
        Scene("Had nobody asked the checker, the 45 would be in the wrong list again."),
        Process(
            "The planner's script runs the scheduler's program",
            PLANNER_PROCESS,
            execute(SCHEDULER_PROGRAM),
        ),
        Process(
            "It writes 45 to the list in kilopascals",
            PLANNER_PROCESS,
            access(KILOPASCALS_LIST, WRITE),
        ),
        Amount(
            "It enters 45000 mm of head there",
            amount(PLANNER_PROCESS, KILOPASCALS_LIST, METRES, 45000),
        ),
    ]
}

// Each change in turn.
pub(crate) fn run(rt: &impl Print, t: &mut [u32]) -> io::Result<()> {
    tell(rt, t, &AS_SET_UP)?;
    tell(rt, t, &right())?;
    tell(rt, t, &role())?;
    tell(rt, t, &helper())?;
    tell(rt, t, &program())?;
    tell(rt, t, &unasked())
}
