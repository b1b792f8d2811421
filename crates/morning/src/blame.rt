// Who breaks a rule of the claim: found in the tables, for the rules that this story's careless changes break.
use crate::words::{File, FileType, Right, Role};
use claimroles::plain_in;
use claimsets::reach;
use model::Rule;
use model::layout::{KEPT_FORCED, KEPT_INITIAL};
use model::numbers::{CREATE, DELETE, EXECUTE, FILES, FILESYSTEM, ROLES, WRITE};
use sets::RoleSet;
use std::io;
use tables::claim::Claim;
use tables::records::{has_right, kept_at, role_at};

// Rule 2 of a role, as far as this story goes: the lowest role that it assigns.
fn assigns(rt: &impl Print, t: &[u32], role: u32) -> io::Result<()> {
    let assign = role_at(t, role).assign;
    if let Some(other) = (0..ROLES).find(|r| assign.has(*r)) {
        println!(rt; "    {} assigns {}", Role(role), Role(other))?;
    }
    Ok(())
}

// Rule 3 of a role, as far as this story goes: its rights that change what is protected.
fn changes(rt: &impl Print, claim: Claim<'_>, role: u32) -> io::Result<()> {
    let protected = claim.protected();
    for right in [WRITE, CREATE, DELETE] {
        if has_right(claim.tables, FILESYSTEM, role, protected, right) {
            println!(rt;
                "    {} has {} to {}",
                Role(role),
                Right(right),
                FileType(protected)
            )?;
        }
    }
    Ok(())
}

// Rule 4 of a role: the lowest role outside the family that it may turn into.
fn turns(rt: &impl Print, t: &[u32], family: RoleSet, role: u32) -> io::Result<()> {
    let compatible = role_at(t, role).compatible;
    if let Some(other) = (0..ROLES).find(|r| compatible.has(*r) && !family.has(*r)) {
        println!(rt; "    {} may turn into {}", Role(role), Role(other))?;
    }
    Ok(())
}

// Rule 7: the roles from outside the family that programs bring in, of those that a role of the family can start.
fn brings(rt: &impl Print, claim: Claim<'_>) -> io::Result<()> {
    let t = claim.tables;
    let family = claim.roles();
    let startable = reach(t, family, FILESYSTEM, EXECUTE);
    for file in (0..FILES).filter(|o| claim.types(*o).meets(startable)) {
        for kept in [KEPT_INITIAL, KEPT_FORCED] {
            let role = kept_at(t, kept, file);
            if !plain_in(family, role) {
                println!(rt; "    {} brings in {}", File(file), Role(role))?;
            }
        }
    }
    Ok(())
}

// All who break the rule: roles of the family, or the programs that they can start.
pub(crate) fn blame(rt: &impl Print, claim: Claim<'_>, rule: Rule) -> io::Result<()> {
    if rule == Rule::C7 {
        return brings(rt, claim);
    }
    let family = claim.roles();
    for role in (0..ROLES).filter(|r| family.has(*r)) {
        match rule {
            Rule::C2 => assigns(rt, claim.tables, role)?,
            Rule::C3 => changes(rt, claim, role)?,
            Rule::C4 => turns(rt, claim.tables, family, role)?,
            _ => {}
        }
    }
    Ok(())
}
