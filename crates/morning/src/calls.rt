// The calls of the story, by the numbers that they take.
use crate::names::{KILOPASCALS, METRES};
use model::numbers::{FILESYSTEM, PROCESS, USE_FORCED_ROLE};
use model::{Call, Change};
use setpoints::Setpoint;

// A call that changes the rules.
fn administer(change: Change) -> Call {
    Call::Administer { change }
}

// Gives a role a right to a type of files.
pub(crate) fn file_right(role: u32, rctype: u32, right: u32) -> Call {
    administer(Change::AddRight {
        group: FILESYSTEM,
        role,
        rctype,
        right,
    })
}

// Takes such a right back.
pub(crate) fn no_file_right(role: u32, rctype: u32, right: u32) -> Call {
    administer(Change::RemoveRight {
        group: FILESYSTEM,
        role,
        rctype,
        right,
    })
}

// Gives a role a right to a type of processes.
pub(crate) fn process_right(role: u32, rctype: u32, right: u32) -> Call {
    administer(Change::AddRight {
        group: PROCESS,
        role,
        rctype,
        right,
    })
}

// Adds a role to those that a role may turn into, or to those that it assigns.
pub(crate) fn add_role(set: u32, role: u32, member: u32) -> Call {
    administer(Change::AddRole { set, role, member })
}

// Takes that back.
pub(crate) fn remove_role(set: u32, role: u32, member: u32) -> Call {
    administer(Change::RemoveRole { set, role, member })
}

// Gives a user a role to begin with.
pub(crate) fn user_role(user: u32, role: u32) -> Call {
    administer(Change::SetUserRole { user, role })
}

// Gives a role's processes a type to begin with.
pub(crate) fn default_type(which: u32, role: u32, value: u32) -> Call {
    administer(Change::SetDefaultType { which, role, value })
}

// Gives a file or a directory its type.
pub(crate) fn file_type(file: u32, value: u32) -> Call {
    administer(Change::SetType {
        group: FILESYSTEM,
        object: file,
        value,
    })
}

// Gives a program or a directory of programs the role that it forces on who runs it, from the start.
pub(crate) fn forced_role(file: u32, role: u32) -> Call {
    administer(Change::SetProgramRoles {
        file,
        initial: USE_FORCED_ROLE,
        forced: role,
    })
}

// Makes a file or a directory.
pub(crate) fn create(kind: u32, parent: u32) -> Call {
    Call::Create { kind, parent }
}

// Runs a program.
pub(crate) fn execute(file: u32) -> Call {
    Call::Execute { file }
}

// Opens a file to read it, or to write to it.
pub(crate) fn access(file: u32, right: u32) -> Call {
    Call::Access {
        group: FILESYSTEM,
        object: file,
        right,
    }
}

// An amount that a process enters in a list of this box, in a unit.
pub(crate) fn amount(process: u32, list: u32, unit: u32, amount: u32) -> Setpoint {
    Setpoint {
        process,
        list,
        unit,
        amount,
        metres: METRES,
        kilopascals: KILOPASCALS,
    }
}
