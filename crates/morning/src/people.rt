// Who works here, and what each role may do: as much as its work needs, and no more.
use crate::calls::{default_type, file_right, process_right, user_role};
use crate::names::{
    ADMINISTRATOR, BOX, HOUSEKEEPING, KILOPASCALS, METRES, PLANNER, PLANNING, PLANNING_PROGRAMS,
    SCHEDULER, SCHEDULING, SCRIPTS, SERVICE_PROGRAMS, SERVICES, VALVE_DRIVER, VALVES,
};
use crate::story::Line::{self, Administrator, Scene};
use crate::story::tell;
use model::numbers::{
    CHANGE_OWNER, CLONE, CREATE, EXECUTE, PROCESS_CHOWN, PROCESS_CREATE, READ,
    USE_NEW_ROLE_DEF_CREATE, WRITE,
};
use std::io;

// Which role each user begins with, and which type each role's processes have.
fn users() -> [Line; 7] {
    [
        Scene("The administrator says who works here."),
        Administrator(
            "The planning user begins as planner",
            user_role(PLANNING, PLANNER),
        ),
        Administrator(
            "The scheduling user begins as scheduler",
            user_role(SCHEDULING, SCHEDULER),
        ),
        Administrator(
            "The valves' user begins as valve driver",
            user_role(VALVES, VALVE_DRIVER),
        ),
        Administrator(
            "A planner's processes are scripts",
            default_type(PROCESS_CREATE, PLANNER, SCRIPTS),
        ),
        Administrator(
            "A scheduler's processes are services",
            default_type(PROCESS_CREATE, SCHEDULER, SERVICES),
        ),
        Administrator(
            "A valve driver's processes are services",
            default_type(PROCESS_CREATE, VALVE_DRIVER, SERVICES),
        ),
    ]
}

// What the administrator needs itself.
fn administrator() -> [Line; 5] {
    [
        Scene("The administrator takes the rights to set up the box and to start the others."),
        Administrator(
            "The administrator may make files and directories on the box",
            file_right(ADMINISTRATOR, BOX, CREATE),
        ),
        Administrator(
            "The administrator may clone its processes",
            process_right(ADMINISTRATOR, HOUSEKEEPING, CLONE),
        ),
        Administrator(
            "The administrator may hand a process to a user",
            process_right(ADMINISTRATOR, HOUSEKEEPING, CHANGE_OWNER),
        ),
        Administrator(
            "A process handed over is of the new role's type",
            default_type(PROCESS_CHOWN, ADMINISTRATOR, USE_NEW_ROLE_DEF_CREATE),
        ),
    ]
}

// What each role's work needs.
fn roles() -> [Line; 7] {
    [
        Scene("The administrator gives each role what its work needs, and no more."),
        Administrator(
            "The planner may run planning programs",
            file_right(PLANNER, PLANNING_PROGRAMS, EXECUTE),
        ),
        Administrator(
            "The planner may write lists in metres",
            file_right(PLANNER, METRES, WRITE),
        ),
        Administrator(
            "The scheduler may run service programs",
            file_right(SCHEDULER, SERVICE_PROGRAMS, EXECUTE),
        ),
        Administrator(
            "The scheduler may read lists in metres",
            file_right(SCHEDULER, METRES, READ),
        ),
        Administrator(
            "The scheduler may write lists in kilopascals",
            file_right(SCHEDULER, KILOPASCALS, WRITE),
        ),
        Administrator(
            "The valve driver may read lists in kilopascals",
            file_right(VALVE_DRIVER, KILOPASCALS, READ),
        ),
    ]
}

// The rules of the box.
pub(crate) fn run(rt: &impl Print, t: &mut [u32]) -> io::Result<()> {
    tell(rt, t, &users())?;
    tell(rt, t, &administrator())?;
    tell(rt, t, &roles())
}
