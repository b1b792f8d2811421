// The numbers that stand for things. The definition has its own (specs/Numbers.antt), so that a wrong constant here is refused.

// How many there are of each.
pub const GROUPS: u32 = 3;

pub const ROLES: u32 = 32;

pub const USERS: u32 = 32;

pub const TYPES: u32 = 32;

pub const PROCESSES: u32 = 64;

pub const FILES: u32 = 256;

pub const IPCS: u32 = 64;

// Depths are 0 to 15.
pub const DEEPEST: u32 = 15;

pub const DEPTHS: u32 = 16;

// The three groups of types.
pub const FILESYSTEM: u32 = 0;

pub const PROCESS: u32 = 1;

pub const IPC: u32 = 2;

// Kinds of a file place.
pub const FREE: u32 = 0;

pub const FILE: u32 = 1;

pub const DIR: u32 = 2;

// Special role values and type values; 0 to 31 are plain.
pub const INHERIT_PARENT: u32 = 32;

pub const USE_FORCED_ROLE: u32 = 33;

pub const INHERIT_USER: u32 = 34;

pub const INHERIT_PROCESS: u32 = 35;

pub const UP_MIXED: u32 = 36;

pub const USE_NEW_ROLE_DEF_CREATE: u32 = 33;

// Rights; 8 to 27 are spare, the last four are the special rights.
pub const READ: u32 = 0;

pub const WRITE: u32 = 1;

pub const EXECUTE: u32 = 2;

pub const CREATE: u32 = 3;

pub const DELETE: u32 = 4;

pub const CHANGE_OWNER: u32 = 5;

pub const CLONE: u32 = 6;

pub const MODIFY_ATTRIBUTE: u32 = 7;

pub const ADMIN: u32 = 28;

pub const ASSIGN: u32 = 29;

pub const ACCESS_CONTROL: u32 = 30;

pub const SUPERVISOR: u32 = 31;

pub const RIGHTS: u32 = 32;

// Which of a role's three sets, which of its five default types.
pub const COMPATIBLE_ROLES: u32 = 0;

pub const ADMIN_ROLES: u32 = 1;

pub const ASSIGN_ROLES: u32 = 2;

pub const ROLE_SETS: u32 = 3;

pub const FILE_CREATE: u32 = 0;

pub const PROCESS_CREATE: u32 = 1;

pub const PROCESS_EXECUTE: u32 = 2;

pub const PROCESS_CHOWN: u32 = 3;

pub const IPC_CREATE: u32 = 4;

pub const DEFAULT_TYPES: u32 = 5;

// The places that are never removed, and what inherit parent reads as at the root.
pub const FIRST_PROCESS: u32 = 0;

pub const ROOT: u32 = 0;

pub const ROOT_TYPE: u32 = 0;

pub const ROOT_INITIAL: u32 = USE_FORCED_ROLE;

pub const ROOT_FORCED: u32 = UP_MIXED;
