// The calls that are tried, by the numbers that they take.
use model::numbers::FILESYSTEM;
use model::{Call, Change};

// A call that changes the rules.
fn administer(change: Change) -> Call {
    Call::Administer { change }
}

// Access to a file or a directory by a right.
pub(crate) fn access(object: u32, right: u32) -> Call {
    Call::Access {
        group: FILESYSTEM,
        object,
        right,
    }
}

// A new file or directory below another.
pub(crate) fn create(kind: u32, parent: u32) -> Call {
    Call::Create { kind, parent }
}

// A right more of a role to a type of a group.
pub(crate) fn add_right(group: u32, role: u32, rctype: u32, right: u32) -> Call {
    administer(Change::AddRight {
        group,
        role,
        rctype,
        right,
    })
}

// A member more of one of a role's sets.
pub(crate) fn add_role(set: u32, role: u32, member: u32) -> Call {
    administer(Change::AddRole { set, role, member })
}

// A user's default role.
pub(crate) fn set_user_role(user: u32, role: u32) -> Call {
    administer(Change::SetUserRole { user, role })
}

// One of a role's default types.
pub(crate) fn set_default_type(which: u32, role: u32, value: u32) -> Call {
    administer(Change::SetDefaultType { which, role, value })
}

// A file's initial and forced value.
pub(crate) fn set_program_roles(file: u32, initial: u32, forced: u32) -> Call {
    administer(Change::SetProgramRoles {
        file,
        initial,
        forced,
    })
}

// The type of a file or a directory.
pub(crate) fn set_file_type(object: u32, value: u32) -> Call {
    administer(Change::SetType {
        group: FILESYSTEM,
        object,
        value,
    })
}
