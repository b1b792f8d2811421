// How a call is written as a kind and some numbers.
#![tactic(auto)]

ghost use Rattle.std.specs.Prelude.{◌≡◌};
ghost use Rattle.decoding.specs.Kinds.{decode_of};

use model::{Call, Change};

// The kinds, as specs/Kinds.antt has them and as C and a batch write them; 14 and 15 are no kind.
pub const CALL_ACCESS: u32 = 1;

pub const CALL_CLONE: u32 = 2;

pub const CALL_EXIT: u32 = 3;

pub const CALL_EXECUTE: u32 = 4;

pub const CALL_CHANGE_OWNER: u32 = 5;

pub const CALL_CHANGE_ROLE: u32 = 6;

pub const CALL_CREATE: u32 = 7;

pub const CALL_DELETE: u32 = 8;

pub const CALL_CREATE_IPC: u32 = 9;

pub const CALL_DELETE_IPC: u32 = 10;

pub const CALL_ADD_ROLE: u32 = 11;

pub const CALL_REMOVE_ROLE: u32 = 12;

pub const CALL_SET_USER_ROLE: u32 = 13;

pub const CALL_SET_PROCESS_FORCED: u32 = 16;

pub const CALL_SET_DEFAULT_TYPE: u32 = 17;

pub const CALL_SET_ROLE_ADMIN: u32 = 18;

pub const CALL_SET_TYPE: u32 = 19;

pub const CALL_ADD_RIGHT: u32 = 20;

pub const CALL_REMOVE_RIGHT: u32 = 21;

pub const CALL_SET_PROGRAM_ROLES: u32 = 22;

// How many numbers can be written beside a kind and a caller.
pub const NUMBERS: usize = 5;

// The call of that kind on those numbers, a line for each kind; what fits no line is no call.
#[tactic(auto, unfolding(crate::specs::Kinds::decode_of, crate::specs::Kinds::takes, sets::specs::Below::all_below))]
#[rattlefmt::skip]
pub fn decode(kind: u32, n: [u32; 5]) -> Option<Call>
    ensures { result ≡ decode_of kind n }
{
    match (kind, n) {
        (CALL_ACCESS, [group, object, right, 0, 0]) => Some(Call::Access { group, object, right }),
        (CALL_CLONE, [0, 0, 0, 0, 0]) => Some(Call::Clone),
        (CALL_EXIT, [0, 0, 0, 0, 0]) => Some(Call::Exit),
        (CALL_EXECUTE, [file, 0, 0, 0, 0]) => Some(Call::Execute { file }),
        (CALL_CHANGE_OWNER, [user, 0, 0, 0, 0]) => Some(Call::ChangeOwner { user }),
        (CALL_CHANGE_ROLE, [role, 0, 0, 0, 0]) => Some(Call::ChangeRole { role }),
        (CALL_CREATE, [kind, parent, 0, 0, 0]) => Some(Call::Create { kind, parent }),
        (CALL_DELETE, [file, 0, 0, 0, 0]) => Some(Call::Delete { file }),
        (CALL_CREATE_IPC, [0, 0, 0, 0, 0]) => Some(Call::CreateIpc),
        (CALL_DELETE_IPC, [object, 0, 0, 0, 0]) => Some(Call::DeleteIpc { object }),
        (CALL_ADD_ROLE, [set, role, member, 0, 0]) => Some(Call::Administer { change: Change::AddRole { set, role, member } }),
        (CALL_REMOVE_ROLE, [set, role, member, 0, 0]) => Some(Call::Administer { change: Change::RemoveRole { set, role, member } }),
        (CALL_SET_USER_ROLE, [user, role, 0, 0, 0]) => Some(Call::Administer { change: Change::SetUserRole { user, role } }),
        (CALL_SET_PROCESS_FORCED, [process, value, 0, 0, 0]) => Some(Call::Administer { change: Change::SetProcessForced { process, value } }),
        (CALL_SET_DEFAULT_TYPE, [which, role, value, 0, 0]) => Some(Call::Administer { change: Change::SetDefaultType { which, role, value } }),
        (CALL_SET_ROLE_ADMIN, [role, mark, 0, 0, 0]) => Some(Call::Administer { change: Change::SetRoleAdmin { role, mark } }),
        (CALL_SET_TYPE, [group, object, value, 0, 0]) => Some(Call::Administer { change: Change::SetType { group, object, value } }),
        (CALL_ADD_RIGHT, [group, role, rctype, right, 0]) => Some(Call::Administer { change: Change::AddRight { group, role, rctype, right } }),
        (CALL_REMOVE_RIGHT, [group, role, rctype, right, 0]) => Some(Call::Administer { change: Change::RemoveRight { group, role, rctype, right } }),
        (CALL_SET_PROGRAM_ROLES, [file, initial, forced, 0, 0]) => Some(Call::Administer { change: Change::SetProgramRoles { file, initial, forced } }),
        _ => None,
    }
}
