// The day itself: the processes start, each does its work, and the planner's script does once more what it did that morning.
use crate::calls::{access, amount, execute};
use crate::names::{
    KILOPASCALS_LIST, METRES_LIST, PLANNER_PROCESS, PLANNING, PLANNING_SCRIPT, SCHEDULER_PROCESS,
    SCHEDULER_PROGRAM, SCHEDULING, VALVE_PROCESS, VALVES,
};
use crate::story::Line::{self, Administrator, Amount, Process, Scene, Whence};
use crate::story::tell;
use model::Call;
use model::numbers::{READ, WRITE};
use setpoints::{KILOPASCALS, METRES};
use std::io;

// How each process starts.
const CLONE: Line = Administrator("The administrator clones itself", Call::Clone);

// Each process is handed to its user, and runs its program where it has one.
fn starts() -> [Line; 11] {
    [
        Scene("The planner starts."),
        CLONE,
        Process(
            "The clone is handed to the planning user",
            PLANNER_PROCESS,
            Call::ChangeOwner { user: PLANNING },
        ),
        Process(
            "The planner runs the planning script",
            PLANNER_PROCESS,
            execute(PLANNING_SCRIPT),
        ),
        Scene("The scheduler starts."),
        CLONE,
        Process(
            "The clone is handed to the scheduling user",
            SCHEDULER_PROCESS,
            Call::ChangeOwner { user: SCHEDULING },
        ),
        Process(
            "The scheduler runs the scheduler's program",
            SCHEDULER_PROCESS,
            execute(SCHEDULER_PROGRAM),
        ),
        Scene("The valve driver starts."),
        CLONE,
        Process(
            "The clone is handed to the valves' user",
            VALVE_PROCESS,
            Call::ChangeOwner { user: VALVES },
        ),
    ]
}

// What a fitter may ask, who has no process.
const FITTER: [Line; 3] = [
    Scene(
        "Anyone may ask which role a program forces on who runs it, and which place gave it that role.",
    ),
    Whence(PLANNING_SCRIPT),
    Whence(SCHEDULER_PROGRAM),
];

// The same 45 metres for each list, and a plain write that names no unit.
fn morning() -> [Line; 5] {
    [
        Scene("The morning. The planner means 45 metres of head."),
        Amount(
            "The planner's script enters 45000 mm of head in the list in metres",
            amount(PLANNER_PROCESS, METRES_LIST, METRES, 45000),
        ),
        Amount(
            "The planner's script enters 45000 mm of head in the list in kilopascals",
            amount(PLANNER_PROCESS, KILOPASCALS_LIST, METRES, 45000),
        ),
        Process(
            "The planner's script writes 45 to the list in kilopascals",
            PLANNER_PROCESS,
            access(KILOPASCALS_LIST, WRITE),
        ),
        Process(
            "The planner's script runs the scheduler's program instead",
            PLANNER_PROCESS,
            execute(SCHEDULER_PROGRAM),
        ),
    ]
}

// The same amount by the roles whose work it is.
fn right_way() -> [Line; 5] {
    [
        Scene("The 45 goes the right way: the scheduler makes 441.299 kilopascals of it."),
        Process(
            "The scheduler reads the list in metres",
            SCHEDULER_PROCESS,
            access(METRES_LIST, READ),
        ),
        Amount(
            "The scheduler enters 441299 Pa in the list in kilopascals",
            amount(SCHEDULER_PROCESS, KILOPASCALS_LIST, KILOPASCALS, 441299),
        ),
        Process(
            "The valve driver reads the list in kilopascals",
            VALVE_PROCESS,
            access(KILOPASCALS_LIST, READ),
        ),
        Process(
            "The valve driver writes to the list in kilopascals",
            VALVE_PROCESS,
            access(KILOPASCALS_LIST, WRITE),
        ),
    ]
}

// The day in its order.
pub(crate) fn run(rt: &impl Print, t: &mut [u32]) -> io::Result<()> {
    tell(rt, t, &starts())?;
    tell(rt, t, &FITTER)?;
    tell(rt, t, &morning())?;
    tell(rt, t, &right_way())
}
