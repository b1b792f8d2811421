// Whether every number of a call is in its range (number 2).
ghost use Rattle.std.specs.Prelude.{◌≡◌};
ghost use Rattle.model.specs.Ranges.{ranged_member, ranged_right, ranged_change, ranged as ranged_of};

use model::numbers::{
    ADMIN, DEFAULT_TYPES, DIR, FILE, FILES, FILESYSTEM, GROUPS, IPCS, PROCESSES, RIGHTS, ROLE_SETS,
    ROLES, TYPES, USERS,
};
use model::{Call, Change};
use rules::ranges::{ok_default, ok_forced, ok_initial, ok_process_forced, ok_type_in, places};

// A role of one of a role's three sets.
fn ranged_member(set: u32, role: u32, member: u32) -> bool
    ensures { result ≡ ranged_member set role member }
{
    set < ROLE_SETS && role < ROLES && member < ROLES
}

// A right of a role to a type of a group, the special rights too.
fn ranged_right(group: u32, role: u32, rctype: u32, right: u32) -> bool
    ensures { result ≡ ranged_right group role rctype right }
{
    group < GROUPS && role < ROLES && rctype < TYPES && right < RIGHTS
}

// Every number of an administration call is in its range.
fn ranged_change(change: Change) -> bool
    ensures { result ≡ ranged_change change }
{
    match change {
        Change::AddRole { set, role, member } | Change::RemoveRole { set, role, member } => {
            ranged_member(set, role, member)
        }
        Change::SetUserRole { user, role } => user < USERS && role < ROLES,
        Change::SetProgramRoles {
            file,
            initial,
            forced,
        } => file < FILES && ok_initial(initial) && ok_forced(forced),
        Change::SetProcessForced { process, value } => process < PROCESSES
            && ok_process_forced(value),
        Change::SetDefaultType { which, role, value } => which < DEFAULT_TYPES
            && role < ROLES
            && ok_default(which, value),
        Change::SetRoleAdmin { role, mark } => role < ROLES && mark <= 1,
        Change::SetType {
            group,
            object,
            value,
        } => group < GROUPS && object < places(group) && ok_type_in(group, value),
        Change::AddRight {
            group,
            role,
            rctype,
            right,
        }
        | Change::RemoveRight {
            group,
            role,
            rctype,
            right,
        } => ranged_right(group, role, rctype, right),
    }
}

// Every number of an access; it asks for no special right. A file is asked first, so that the number of its places is known: else an access costs 133
// instructions, and so 127.
pub fn ranged_access(group: u32, object: u32, right: u32) -> bool
    ensures { result ≡ ranged_of (Call.Access group object right) }
{
    if group == FILESYSTEM {
        return object < FILES && right < ADMIN;
    }
    group < GROUPS && object < places(group) && right < ADMIN
}

// Every number of a call is in its range.
pub fn ranged(call: Call) -> bool
    ensures { result ≡ ranged_of call }
{
    match call {
        Call::Access {
            group,
            object,
            right,
        } => ranged_access(group, object, right),
        Call::Clone => true,
        Call::Exit => true,
        Call::Execute { file } => file < FILES,
        Call::ChangeOwner { user } => user < USERS,
        Call::ChangeRole { role } => role < ROLES,
        Call::Create { kind, parent } => (kind == FILE || kind == DIR) && parent < FILES,
        Call::Delete { file } => file < FILES,
        Call::CreateIpc => true,
        Call::DeleteIpc { object } => object < IPCS,
        Call::Administer { change } => ranged_change(change),
    }
}
