// How many compatible roles a role has (W-203): none, one at either end, one that is there already (H11), all.
use crate::calls::add_role;
use crate::tries::{begin, granted};
use model::numbers::COMPATIBLE_ROLES;
use std::io;
use tables::addresses::role_addr;
use tables::records::role_at;
use tables::words::set_word;

// The set with every role in it.
const ALL: u32 = u32::MAX;

// The number of role 1's compatible roles.
fn size(t: &[u32]) -> u32 {
    role_at(t, 1).compatible.size()
}

// The number, as roles are added.
pub(crate) fn run(rt: &impl Print, t: &mut [u32]) -> io::Result<()> {
    begin(rt, t, &[])?;
    println!(rt; "compatible roles of role 1: {}", size(t))?;
    for (text, member) in [
        ("role 0 added", 0),
        ("role 31 added", 31),
        ("role 31 added again", 31),
    ] {
        granted(rt, t, 0, add_role(COMPATIBLE_ROLES, 1, member))?;
        println!(rt; "{text}: {}", size(t))?;
    }
    set_word(t, role_addr(1) + (COMPATIBLE_ROLES as usize), ALL);
    println!(rt; "all roles: {}", size(t))
}
