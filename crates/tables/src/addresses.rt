// Where the record of each place begins in the row; any number has an address, also past its table. One function a table: each is one sum, with another
// start and another size, and says no less than a row of numbers would.
ghost use Rattle.std.specs.Prelude.{◌≡◌};
ghost use Rattle.model.specs.Layout.{process_addr, user_addr, role_addr, ipc_addr, file_addr, kept_addr, rights_addr};

use model::layout::{
    FILE_WORDS, FILES_AT, GROUP_RIGHTS, IPC_WORDS, IPCS_AT, KEPT_AT, KEPT_WORDS, PROCESS_WORDS,
    PROCESSES_AT, RIGHTS_AT, ROLE_WORDS, ROLES_AT, USERS_AT,
};
use model::numbers::TYPES;

// Live, owner, role, type, forced.
pub fn process_addr(p: u32) -> usize
    ensures { result ≡ process_addr p }
{
    PROCESSES_AT + (p as usize) * PROCESS_WORDS
}

// The default role.
pub fn user_addr(u: u32) -> usize
    ensures { result ≡ user_addr u }
{
    USERS_AT + (u as usize)
}

// Compatible, admin and assign roles, the Role Admin mark, five default types.
pub fn role_addr(role: u32) -> usize
    ensures { result ≡ role_addr role }
{
    ROLES_AT + (role as usize) * ROLE_WORDS
}

// Live, type.
pub fn ipc_addr(i: u32) -> usize
    ensures { result ≡ ipc_addr i }
{
    IPCS_AT + (i as usize) * IPC_WORDS
}

// Kind, parent, depth, type, initial, forced.
pub fn file_addr(o: u32) -> usize
    ensures { result ≡ file_addr o }
{
    FILES_AT + (o as usize) * FILE_WORDS
}

// What is kept beside a file: its effective type, initial and forced value.
pub fn kept_addr(o: u32) -> usize
    ensures { result ≡ kept_addr o }
{
    KEPT_AT + (o as usize) * KEPT_WORDS
}

// A role's set of rights to a type of a group.
pub fn rights_addr(group: u32, role: u32, rctype: u32) -> usize
    ensures { result ≡ rights_addr group role rctype }
{
    RIGHTS_AT
        + (group as usize) * GROUP_RIGHTS
        + (role as usize) * (TYPES as usize)
        + (rctype as usize)
}
