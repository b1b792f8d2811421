// The numbers of the tables as a reason tells them: the number, and what it stands for here; one that has no name here is told by itself.
use crate::names::{
    ADMINISTRATOR, BOX, KILOPASCALS, KILOPASCALS_LIST, LISTS, METRES, METRES_LIST, PLANNER,
    PLANNING_PROGRAMS, PLANNING_SCRIPT, PLANS, PROGRAMS, ROOT, SCHEDULER, SCHEDULER_PROGRAM,
    SERVICE_PROGRAMS, VALVE_DRIVER,
};
use model::numbers::{CREATE, DELETE, EXECUTE, READ, WRITE};
use std::fmt;

// A role.
#[derive(Clone, Copy)]
pub(crate) struct Role(pub(crate) u32);

impl fmt::Display for Role {
    fn fmt<W: fmt::Write>(&self, f: &mut fmt::Formatter<W>) -> fmt::Result {
        let n = self.0;
        let name = match n {
            ADMINISTRATOR => "administrator",
            PLANNER => "planner",
            SCHEDULER => "scheduler",
            VALVE_DRIVER => "valve driver",
            _ => return write!(f, "role {n}"),
        };
        write!(f, "role {n} ({name})")
    }
}

// A type of files.
#[derive(Clone, Copy)]
pub(crate) struct FileType(pub(crate) u32);

impl fmt::Display for FileType {
    fn fmt<W: fmt::Write>(&self, f: &mut fmt::Formatter<W>) -> fmt::Result {
        let n = self.0;
        let name = match n {
            BOX => "the box",
            PLANNING_PROGRAMS => "planning programs",
            SERVICE_PROGRAMS => "service programs",
            METRES => "lists in metres",
            KILOPASCALS => "lists in kilopascals",
            _ => return write!(f, "file type {n}"),
        };
        write!(f, "file type {n} ({name})")
    }
}

// A place of a file or a directory.
#[derive(Clone, Copy)]
pub(crate) struct File(pub(crate) u32);

impl fmt::Display for File {
    fn fmt<W: fmt::Write>(&self, f: &mut fmt::Formatter<W>) -> fmt::Result {
        let n = self.0;
        let name = match n {
            ROOT => "the root",
            PROGRAMS => "the directory of programs",
            PLANS => "the directory of planning programs",
            PLANNING_SCRIPT => "the planner's script",
            SCHEDULER_PROGRAM => "the scheduler's program",
            LISTS => "the directory of lists",
            METRES_LIST => "the list in metres",
            KILOPASCALS_LIST => "the list in kilopascals",
            _ => return write!(f, "place {n}"),
        };
        write!(f, "place {n} ({name})")
    }
}

// A right that files have.
#[derive(Clone, Copy)]
pub(crate) struct Right(pub(crate) u32);

impl fmt::Display for Right {
    fn fmt<W: fmt::Write>(&self, f: &mut fmt::Formatter<W>) -> fmt::Result {
        let name = match self.0 {
            READ => "READ",
            WRITE => "WRITE",
            EXECUTE => "EXECUTE",
            CREATE => "CREATE",
            DELETE => "DELETE",
            n => return write!(f, "{n}"),
        };
        f.write_str(name)
    }
}
