// The marked examples a1 to a9, run; a10 is in claim.rt. a3 to a7 are one night of calls, the one that crate `marked` computes from the definitions:
// process 0 administers first and clones four children, and each child then goes one example's way.
use crate::calls::{
    access, add_right, add_role, create, set_default_type, set_program_roles, set_user_role,
};
use crate::full::chain;
use crate::tell::{Looked, State};
use crate::tries::{begin, granted, tried};
use model::Call;
use model::numbers::{
    CHANGE_OWNER, CLONE, COMPATIBLE_ROLES, CREATE, DEEPEST, EXECUTE, FILE, FILESYSTEM,
    INHERIT_PARENT, INHERIT_USER, PROCESS, PROCESS_CHOWN, PROCESS_CREATE, PROCESS_EXECUTE, READ,
    ROOT, UP_MIXED, USE_FORCED_ROLE, USE_NEW_ROLE_DEF_CREATE, WRITE,
};
use queries::query_type;
use std::io;
use tables::records::process_at;

// a3 to a7: the words, the process that they are of, and the owner that it gets before that.
const EVENING: [(&str, u32, Option<u32>); 6] = [
    (
        "a3 role 3 with execute type 5, file initial 7, forced up mixed",
        1,
        None,
    ),
    ("a4 role 3, file initial use forced role, forced 9", 2, None),
    ("a5 then a user with default role 4", 2, Some(1)),
    (
        "a6 forced inherit user, new owner's default role 4",
        3,
        Some(1),
    ),
    ("a7 chown type 33, new role's create type 6", 3, None),
    (
        "a7 chown type 33, new role's create type 32, type 5 before",
        4,
        Some(2),
    ),
];

// a1 and a2, on fresh tables.
fn on_fresh(rt: &impl Print, t: &mut [u32]) -> io::Result<()> {
    begin(rt, t, &[])?;
    let trials = [
        ("a1 process 0 asks READ on the root", 0, access(ROOT, READ)),
        (
            "a2 process 0 adds WRITE for role 1 to file type 2",
            0,
            add_right(FILESYSTEM, 1, 2, WRITE),
        ),
    ];
    tried(rt, t, &trials)
}

// The rights, roles and default types that the night needs. Role 3 executes to type 5; role 0 changes owner to the new role's create type, which is
// 6 for role 4 and inherited for role 8.
fn rules(rt: &impl Print, t: &mut [u32]) -> io::Result<()> {
    let calls = [
        add_right(FILESYSTEM, 0, 0, CREATE),
        add_right(PROCESS, 0, 0, CLONE),
        add_right(FILESYSTEM, 3, 0, EXECUTE),
        add_right(PROCESS, 9, 5, CHANGE_OWNER),
        add_right(PROCESS, 0, 5, CHANGE_OWNER),
        add_role(COMPATIBLE_ROLES, 0, 3),
        set_user_role(1, 4),
        set_user_role(2, 8),
        set_default_type(PROCESS_EXECUTE, 3, 5),
        set_default_type(PROCESS_CHOWN, 0, USE_NEW_ROLE_DEF_CREATE),
        set_default_type(PROCESS_CREATE, 4, 6),
    ];
    begin(rt, t, &calls)
}

// Files 1, 2 and 3, one for each way that a role is given, and processes 1 to 4.
fn programs(rt: &impl Print, t: &mut [u32]) -> io::Result<()> {
    for (initial, forced) in [
        (7, UP_MIXED),
        (USE_FORCED_ROLE, 9),
        (INHERIT_PARENT, INHERIT_USER),
    ] {
        let file = granted(rt, t, 0, create(FILE, ROOT))?;
        granted(rt, t, 0, set_program_roles(file, initial, forced))?;
    }
    for _ in 0..4 {
        granted(rt, t, 0, Call::Clone)?;
    }
    Ok(())
}

// Each process takes role 3 and executes a program; then it is told what they are, as some get new owners.
fn evening(rt: &impl Print, t: &mut [u32]) -> io::Result<()> {
    for (process, file) in [(1, 1), (2, 2), (3, 3), (4, 3)] {
        granted(rt, t, process, Call::ChangeRole { role: 3 })?;
        granted(rt, t, process, Call::Execute { file })?;
    }
    for (text, process, owner) in EVENING {
        if let Some(user) = owner {
            granted(rt, t, process, Call::ChangeOwner { user })?;
        }
        println!(rt; "{text}: {}", State(process_at(t, process)))?;
    }
    Ok(())
}

// a8 by the query, on the last of a chain of directories.
fn deep(rt: &impl Print, t: &mut [u32]) -> io::Result<()> {
    let place = chain(rt, t, DEEPEST)?;
    let found = Looked(query_type(t, place));
    println!(rt; "a8 type of an object at depth 15, all inherit: {found}")
}

// a9.
fn exit_of_first(rt: &impl Print, t: &mut [u32]) -> io::Result<()> {
    begin(rt, t, &[])?;
    tried(rt, t, &[("a9 process 0 exits", 0, Call::Exit)])
}

// The examples in their order.
pub(crate) fn run(rt: &impl Print, t: &mut [u32]) -> io::Result<()> {
    on_fresh(rt, t)?;
    rules(rt, t)?;
    programs(rt, t)?;
    evening(rt, t)?;
    deep(rt, t)?;
    exit_of_first(rt, t)
}
