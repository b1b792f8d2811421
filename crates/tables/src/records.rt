// The records of the tables, by value: each is loaded from its words, and is the words that it is kept in.
ghost use Rattle.std.specs.Prelude.{◌≡◌, ◌+◌};
ghost use Rattle.model.specs.Numbers.{TYPES};
ghost use Rattle.model.specs.Words.{block};
ghost use Rattle.model.specs.Layout.{FILE-TYPE, rights_addr};
ghost use Rattle.model.specs.Records.{process_at, process_words, put_process, file_words, put_file, file_word, kept_at, ipc_at, ipc_words, put_ipc, role_at, user_role, has_right};

use crate::addresses::{
    file_addr, ipc_addr, kept_addr, process_addr, rights_addr, role_addr, user_addr,
};
use crate::words::{put_words, set_at, word};
use model::layout::{
    DEFAULTS, FILE_TYPE, FILE_WORDS, IPC_LIVE, IPC_TYPE, IPC_WORDS, LIVE, MARK, OWNER,
    PROCESS_FORCED, PROCESS_TYPE, PROCESS_WORDS, ROLE,
};
use model::numbers::{
    ADMIN_ROLES, ASSIGN_ROLES, COMPATIBLE_ROLES, FILE_CREATE, IPC_CREATE, PROCESS_CHOWN,
    PROCESS_CREATE, PROCESS_EXECUTE,
};
use model::{File, Forced, Ipc, Process, Role};

// The process at place p.
#[tactic(auto, unfolding(model::specs::Records::process_at, model::specs::Words::block))]
pub fn process_at(t: &[u32], p: u32) -> Process
    ensures { result ≡ process_at t.now p }
{
    let a = process_addr(p);
    Process {
        live: word(t, a + LIVE) == 1,
        owner: word(t, a + OWNER),
        role: word(t, a + ROLE),
        rctype: word(t, a + PROCESS_TYPE),
        forced: Forced::from(word(t, a + PROCESS_FORCED)),
    }
}

// The words of a process.
pub fn process_words(process: Process) -> [u32; PROCESS_WORDS]
    ensures { result ≡ process_words process }
{
    [
        u32::from(process.live),
        process.owner,
        process.role,
        process.rctype,
        u32::from(process.forced),
    ]
}

// The row with a process at place p.
#[tactic(auto, unfolding(model::specs::Records::put_process))]
pub fn put_process(t: &mut [u32], p: u32, process: Process)
    ensures { t.new ≡ put_process t.old p process }
{
    put_words(t, process_addr(p), &process_words(process));
}

// The words of a file.
pub fn file_words(file: File) -> [u32; FILE_WORDS]
    ensures { result ≡ file_words file }
{
    [
        u32::from(file.kind),
        file.parent,
        file.depth,
        file.rctype,
        u32::from(file.initial),
        u32::from(file.forced),
    ]
}

// The row with a file at place o.
#[tactic(auto, unfolding(model::specs::Records::put_file))]
pub fn put_file(t: &mut [u32], o: u32, file: File)
    ensures { t.new ≡ put_file t.old o file }
{
    put_words(t, file_addr(o), &file_words(file));
}

// One word of a file, by its name in the layout.
#[tactic(auto, unfolding(model::specs::Records::file_word))]
pub fn file_word(t: &[u32], o: u32, slot: u32) -> u32
    ensures { result ≡ file_word t.now o slot }
{
    word(t, file_addr(o) + (slot as usize))
}

// A file's own value k: its type, initial or forced value. Not by file_word: FILE_TYPE and any k may come to more than a u32 holds.
#[tactic(auto, unfolding(model::specs::Records::file_word))]
pub fn own_value(t: &[u32], k: u32, o: u32) -> u32
    ensures { result ≡ file_word t.now o (FILE-TYPE + k) }
{
    word(t, file_addr(o) + ((FILE_TYPE as usize) + (k as usize)))
}

// Value k kept beside a file: its effective type, initial or forced value.
#[tactic(auto, unfolding(model::specs::Records::kept_at))]
pub fn kept_at(t: &[u32], k: u32, o: u32) -> u32
    ensures { result ≡ kept_at t.now k o }
{
    word(t, kept_addr(o) + (k as usize))
}

// The IPC object at place i.
#[tactic(auto, unfolding(model::specs::Records::ipc_at, model::specs::Words::block))]
pub fn ipc_at(t: &[u32], i: u32) -> Ipc
    ensures { result ≡ ipc_at t.now i }
{
    let a = ipc_addr(i);
    Ipc {
        live: word(t, a + IPC_LIVE) == 1,
        rctype: word(t, a + IPC_TYPE),
    }
}

// The words of an IPC object.
pub fn ipc_words(ipc: Ipc) -> [u32; IPC_WORDS]
    ensures { result ≡ ipc_words ipc }
{
    [u32::from(ipc.live), ipc.rctype]
}

// The row with an IPC object at place i.
#[tactic(auto, unfolding(model::specs::Records::put_ipc))]
pub fn put_ipc(t: &mut [u32], i: u32, ipc: Ipc)
    ensures { t.new ≡ put_ipc t.old i ipc }
{
    put_words(t, ipc_addr(i), &ipc_words(ipc));
}

// A role's sets, mark and default types; past the last role any number reads what stands there.
#[tactic(auto, unfolding(model::specs::Records::role_at, model::specs::Words::block))]
pub fn role_at(t: &[u32], role: u32) -> Role
    ensures { result ≡ role_at t.now role }
{
    let a = role_addr(role);
    Role {
        compatible: set_at(t, a + (COMPATIBLE_ROLES as usize)),
        admin: set_at(t, a + (ADMIN_ROLES as usize)),
        assign: set_at(t, a + (ASSIGN_ROLES as usize)),
        mark: word(t, a + MARK) == 1,
        filecreate: word(t, a + (DEFAULTS + (FILE_CREATE as usize))),
        processcreate: word(t, a + (DEFAULTS + (PROCESS_CREATE as usize))),
        execute: word(t, a + (DEFAULTS + (PROCESS_EXECUTE as usize))),
        chown: word(t, a + (DEFAULTS + (PROCESS_CHOWN as usize))),
        ipccreate: word(t, a + (DEFAULTS + (IPC_CREATE as usize))),
    }
}

// A user's default role.
#[tactic(auto, unfolding(model::specs::Records::user_role))]
pub fn user_role(t: &[u32], u: u32) -> u32
    ensures { result ≡ user_role t.now u }
{
    word(t, user_addr(u))
}

// Whether a role is compatible with a type of a group for a right (rule 16).
#[tactic(auto, unfolding(model::specs::Records::has_right))]
pub fn has_right(t: &[u32], group: u32, role: u32, rctype: u32, right: u32) -> bool
    ensures { result ≡ has_right t.now group role rctype right }
{
    set_at(t, rights_addr(group, role, rctype)).has(right)
}

// A role's row of sets of rights, one for each type of a group. In a slice of their own the compiler sees that they lie side by side.
pub fn rights_row(t: &[u32], group: u32, role: u32) -> [u32; 32]
    ensures { result ≡ block t.now (rights_addr group role 0) TYPES }
{
    let mut row = [0; 32];
    if let Some(part) = t.get(rights_addr(group, role, 0)..) {
        let n = part.len().min(32);
        row[..n].copy_from_slice(&part[..n]);
    }
    row
}
