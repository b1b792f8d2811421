// The layout, as specs/Layout.antt has it: what each word of a record is, where each table begins in the row, and what each word of a claim is.
use crate::numbers::{
    DEFAULT_TYPES, FILES, GROUPS, IPCS, PROCESSES, ROLE_SETS, ROLES, TYPES, USERS,
};

// The words of a process.
pub const LIVE: usize = 0;

pub const OWNER: usize = 1;

pub const ROLE: usize = 2;

pub const PROCESS_TYPE: usize = 3;

pub const PROCESS_FORCED: usize = 4;

pub const PROCESS_WORDS: usize = 5;

// The words of a role: its sets, the Role Admin mark, its default types.
pub const MARK: usize = ROLE_SETS as usize;

pub const DEFAULTS: usize = MARK + 1;

pub const ROLE_WORDS: usize = DEFAULTS + (DEFAULT_TYPES as usize);

// The words of an IPC object.
pub const IPC_LIVE: usize = 0;

pub const IPC_TYPE: usize = 1;

pub const IPC_WORDS: usize = 2;

// The words of a file, as numbers that name which is asked for: what is read of a file is defined for every number.
pub const KIND: u32 = 0;

pub const PARENT: u32 = 1;

pub const DEPTH: u32 = 2;

pub const FILE_TYPE: u32 = 3;

pub const INITIAL: u32 = 4;

pub const FORCED: u32 = 5;

pub const FILE_WORDS: usize = 6;

// The words kept beside a file: value k of the file itself is its word FILE_TYPE + k.
pub const KEPT_TYPE: u32 = 0;

pub const KEPT_INITIAL: u32 = 1;

pub const KEPT_FORCED: u32 = 2;

pub const KEPT_WORDS: usize = 3;

// Where each table begins: where the one before it ends.
pub const PROCESSES_AT: usize = 0;

pub const USERS_AT: usize = PROCESSES_AT + (PROCESSES as usize) * PROCESS_WORDS;

pub const ROLES_AT: usize = USERS_AT + (USERS as usize);

pub const IPCS_AT: usize = ROLES_AT + (ROLES as usize) * ROLE_WORDS;

pub const FILES_AT: usize = IPCS_AT + (IPCS as usize) * IPC_WORDS;

pub const KEPT_AT: usize = FILES_AT + (FILES as usize) * FILE_WORDS;

pub const RIGHTS_AT: usize = KEPT_AT + (FILES as usize) * KEPT_WORDS;

// The rights of one group.
pub const GROUP_RIGHTS: usize = (ROLES as usize) * (TYPES as usize);

pub const ROW_LENGTH: usize = RIGHTS_AT + (GROUPS as usize) * GROUP_RIGHTS;

// The words of a claim: a process, a filesystem type, the sets S and Q, and T(o) for each file place o.
pub const CLAIM_PROCESS: usize = 0;

pub const CLAIM_TYPE: usize = 1;

pub const CLAIM_S: usize = 2;

pub const CLAIM_Q: usize = 3;

pub const CLAIM_T: usize = 4;

pub const CLAIM_LENGTH: usize = CLAIM_T + (FILES as usize);

// What the numbers above come to: the words of a row, and those of a claim.
const _: () = prove!(ROW_LENGTH == 6144);

const _: () = prove!(CLAIM_LENGTH == 260);
