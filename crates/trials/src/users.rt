// A user's default role (rule 26, W-204), by the calls that `marked` computes from the definitions: a helper that assigns the roles 6 and 7
// moves users between these two and no others; Role Admin, which has no assign roles, moves any.
use crate::calls::{add_right, add_role, set_user_role};
use crate::tell::number;
use crate::tries::{begin, granted};
use model::Call;
use model::numbers::{ASSIGN_ROLES, CLONE, COMPATIBLE_ROLES, PROCESS};
use monitor::step;
use std::io;
use tables::records::user_role;

// The words, which process moves which user, and to which role.
const MOVES: [(&str, u32, u32, u32); 7] = [
    ("a helper with roles 6 and 7, a user from 6 to 7", 1, 1, 7),
    ("from 7 to 7", 1, 1, 7),
    ("from 8 to 7", 1, 2, 7),
    ("from 7 to 8", 1, 1, 8),
    ("from 8 to 8", 1, 2, 8),
    ("Role Admin from 8 to 6", 0, 2, 6),
    ("the helper then from 6 to 7", 1, 2, 7),
];

// User 1 has role 6, which role 5 may assign, and user 2 role 8, which it may not. Process 1, the helper, takes role 5.
fn helper(rt: &impl Print, t: &mut [u32]) -> io::Result<()> {
    let calls = [
        add_role(ASSIGN_ROLES, 5, 6),
        add_role(ASSIGN_ROLES, 5, 7),
        set_user_role(1, 6),
        set_user_role(2, 8),
        add_right(PROCESS, 0, 0, CLONE),
        add_role(COMPATIBLE_ROLES, 0, 5),
        Call::Clone,
    ];
    begin(rt, t, &calls)?;
    granted(rt, t, 1, Call::ChangeRole { role: 5 })?;
    Ok(())
}

// Each move's number, and the role that the user then has.
pub(crate) fn run(rt: &impl Print, t: &mut [u32]) -> io::Result<()> {
    helper(rt, t)?;
    for (text, process, user, role) in MOVES {
        let ended = step(t, process, set_user_role(user, role));
        println!(rt; "{text}: {}, role {}", number(ended), user_role(t, user))?;
    }
    Ok(())
}
