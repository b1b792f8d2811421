// The files of the box: its programs, with the roles that they force, and its lists, with their units as types.
use crate::calls::{create, file_type, forced_role};
use crate::names::{
    KILOPASCALS, KILOPASCALS_LIST, LISTS, METRES, METRES_LIST, PLANNER, PLANNING_PROGRAMS, PLANS,
    PROGRAMS, ROOT, SCHEDULER, SCHEDULER_PROGRAM, SERVICE_PROGRAMS,
};
use crate::story::Line::{self, Administrator, Scene};
use crate::story::tell;
use model::numbers::{DIR, FILE};
use std::io;

// The programs' places and types, and the roles that they force.
fn programs() -> [Line; 9] {
    [
        Scene("The administrator puts the programs in place."),
        Administrator("A directory for programs", create(DIR, ROOT)),
        Administrator(
            "A directory for planning programs in it",
            create(DIR, PROGRAMS),
        ),
        Administrator("The planner's script in that one", create(FILE, PLANS)),
        Administrator("The scheduler's program beside it", create(FILE, PROGRAMS)),
        Administrator(
            "The programs are service programs",
            file_type(PROGRAMS, SERVICE_PROGRAMS),
        ),
        Administrator(
            "Those in the planning directory are planning programs",
            file_type(PLANS, PLANNING_PROGRAMS),
        ),
        Administrator(
            "Whoever runs a planning program is a planner",
            forced_role(PLANS, PLANNER),
        ),
        Administrator(
            "Whoever runs the scheduler's program is a scheduler",
            forced_role(SCHEDULER_PROGRAM, SCHEDULER),
        ),
    ]
}

// The lists' places and types.
fn lists() -> [Line; 6] {
    [
        Scene("The administrator puts the lists in place."),
        Administrator("A directory for lists", create(DIR, ROOT)),
        Administrator("The planner's list in it", create(FILE, LISTS)),
        Administrator("The valve driver's list in it", create(FILE, LISTS)),
        Administrator(
            "The planner's list is in metres of head",
            file_type(METRES_LIST, METRES),
        ),
        Administrator(
            "The valve driver's list is in kilopascals",
            file_type(KILOPASCALS_LIST, KILOPASCALS),
        ),
    ]
}

// The files of the box.
pub(crate) fn run(rt: &impl Print, t: &mut [u32]) -> io::Result<()> {
    tell(rt, t, &programs())?;
    tell(rt, t, &lists())
}
