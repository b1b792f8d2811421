// The ranges of values ("Tables").
ghost use Rattle.std.specs.Prelude.{◌≡◌};
ghost use Rattle.model.specs.Numbers.{places as places_of};
ghost use Rattle.model.specs.Ranges.{ok_type, ok_chown, ok_initial, ok_forced, ok_process_forced, ok_default, ok_type_in};

use model::numbers::{
    FILES, FILESYSTEM, INHERIT_PARENT, INHERIT_USER, IPC_CREATE, IPCS, PROCESS, PROCESS_CHOWN,
    PROCESSES, ROLES, TYPES, UP_MIXED, USE_FORCED_ROLE, USE_NEW_ROLE_DEF_CREATE,
};

// File type and create, process create and execute: 0 to 32.
pub fn ok_type(v: u32) -> bool
    ensures { result ≡ ok_type v }
{
    v <= INHERIT_PARENT
}

// Chown: 0 to 33.
pub fn ok_chown(v: u32) -> bool
    ensures { result ≡ ok_chown v }
{
    v <= USE_NEW_ROLE_DEF_CREATE
}

// Initial: 0 to 33.
pub fn ok_initial(v: u32) -> bool
    ensures { result ≡ ok_initial v }
{
    v <= USE_FORCED_ROLE
}

// File forced: 0 to 32 and 34 to 36. This one and the next go by `|` and `&`: with `||` and a range the test of the tables costs 13,936 instructions,
// and so 13,171.
pub fn ok_forced(v: u32) -> bool
    ensures { result ≡ ok_forced v }
{
    (v <= INHERIT_PARENT) | ((INHERIT_USER <= v) & (v <= UP_MIXED))
}

// Process forced: 0 to 31 and 34 to 36.
pub fn ok_process_forced(v: u32) -> bool
    ensures { result ≡ ok_process_forced v }
{
    (v < ROLES) | ((INHERIT_USER <= v) & (v <= UP_MIXED))
}

// A default type: only chown takes 33, and an IPC type is plain.
pub fn ok_default(which: u32, v: u32) -> bool
    ensures { result ≡ ok_default which v }
{
    match which {
        IPC_CREATE => v < TYPES,
        PROCESS_CHOWN => ok_chown(v),
        _ => ok_type(v),
    }
}

// An object's type: only a file's may be inherit parent.
pub fn ok_type_in(group: u32, v: u32) -> bool
    ensures { result ≡ ok_type_in group v }
{
    if group == FILESYSTEM {
        ok_type(v)
    } else {
        v < TYPES
    }
}

// How many places the objects of a group have.
pub fn places(group: u32) -> u32
    ensures { result ≡ places_of group }
{
    match group {
        FILESYSTEM => FILES,
        PROCESS => PROCESSES,
        _ => IPCS,
    }
}
