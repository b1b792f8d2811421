// A program's roles (rules 27 and 28, W-207), by the calls that `marked` computes from the definitions: a helper that assigns the roles 6 and 7
// gives a program these two at once and no others; Role Admin gives any that are in range.
use crate::calls::{add_right, add_role, create, set_program_roles};
use crate::tell::number;
use crate::tries::{begin, granted};
use model::Call;
use model::layout::{FORCED, INITIAL, KEPT_FORCED, KEPT_INITIAL};
use model::numbers::{
    ASSIGN_ROLES, CLONE, COMPATIBLE_ROLES, CREATE, FILE, FILESYSTEM, INHERIT_USER,
    MODIFY_ATTRIBUTE, PROCESS, ROOT, USE_FORCED_ROLE,
};
use monitor::step;
use std::io;
use tables::records::{file_word, kept_at};

// Role 5 may assign the roles 6 and 7, and modify files of type 0; process 1, the helper, takes it. The program is file 1, in the root.
fn helper(rt: &impl Print, t: &mut [u32]) -> io::Result<()> {
    let calls = [
        add_role(ASSIGN_ROLES, 5, 6),
        add_role(ASSIGN_ROLES, 5, 7),
        add_right(FILESYSTEM, 5, 0, MODIFY_ATTRIBUTE),
        add_right(PROCESS, 0, 0, CLONE),
        add_role(COMPATIBLE_ROLES, 0, 5),
        Call::Clone,
    ];
    begin(rt, t, &calls)?;
    granted(rt, t, 1, Call::ChangeRole { role: 5 })?;
    granted(rt, t, 0, add_right(FILESYSTEM, 0, 0, CREATE))?;
    granted(rt, t, 0, create(FILE, ROOT))?;
    Ok(())
}

// Each call's number, and the two values that the program then has.
fn given(rt: &impl Print, t: &mut [u32]) -> io::Result<()> {
    for (text, process, call) in [
        (
            "a helper with roles 6 and 7, initial 6 and forced 7",
            1,
            set_program_roles(1, 6, 7),
        ),
        ("forced 8", 1, set_program_roles(1, 7, 8)),
        ("initial 8", 1, set_program_roles(1, 8, 6)),
        (
            "forced inherit user",
            1,
            set_program_roles(1, 7, INHERIT_USER),
        ),
        (
            "initial use forced role",
            1,
            set_program_roles(1, USE_FORCED_ROLE, 6),
        ),
        (
            "initial 8 and forced 33, which is out of range",
            1,
            set_program_roles(1, 8, USE_FORCED_ROLE),
        ),
        ("of a place that is free", 1, set_program_roles(2, 6, 7)),
        (
            "Role Admin, use forced role and inherit user",
            0,
            set_program_roles(1, USE_FORCED_ROLE, INHERIT_USER),
        ),
        ("forced 33", 0, set_program_roles(1, 7, USE_FORCED_ROLE)),
    ] {
        let number = number(step(t, process, call));
        let [initial, forced] = [INITIAL, FORCED].map(|slot| file_word(t, 1, slot));
        println!(rt; "{text}: {number}, initial {initial}, forced {forced}")?;
    }
    Ok(())
}

// A second program inherits both values of the root.
fn below(rt: &impl Print, t: &mut [u32]) -> io::Result<()> {
    granted(rt, t, 0, create(FILE, ROOT))?;
    granted(rt, t, 0, set_program_roles(ROOT, 4, 9))?;
    let [initial, forced] = [KEPT_INITIAL, KEPT_FORCED].map(|k| kept_at(t, k, 2));
    println!(rt; "the root's are 4 and 9; kept for a file that inherits: {initial} and {forced}")
}

// Roles given to a program, and what a program below the root inherits.
pub(crate) fn run(rt: &impl Print, t: &mut [u32]) -> io::Result<()> {
    helper(rt, t)?;
    given(rt, t)?;
    below(rt, t)
}
