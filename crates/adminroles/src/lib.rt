// The administration calls on roles, users and rights (rules 23 to 26, 30, 33 and 34, H4, H5, H9 and H11): each is
// refused, or writes one word.
#![tactic(auto)]

ghost use Rattle.std.specs.Prelude.{◌≡◌};
ghost use Rattle.model.specs.declared.Change.{Change};
ghost use Rattle.model.specs.Words.{◌!◌};
ghost use Rattle.model.specs.Outcome.{outcome, decide, carry_out};
ghost use Rattle.model.specs.Refusals.{code, answer_of};
ghost use Rattle.model.specs.Administration.{changed as changed_of, change_set_no, change_set_row, right_needed, change_right_no, change_right_row, role_admin_no, ruling_on};

use caller::Caller;
use model::Refusal;
use model::layout::{DEFAULTS, MARK};
use model::numbers::{ACCESS_CONTROL, ADMIN, COMPATIBLE_ROLES, SUPERVISOR};
use rules::refusal::refused_unless;
use tables::addresses::{rights_addr, role_addr, user_addr};
use tables::records::user_role;
use tables::words::{set_at, set_word};

// The set kept at an address, with one number added or removed (H5, H11). Which of the two is a truth value, as in the definition: a function handed in
// would take a clause of four lines here and in both that hand it on.
fn changed(t: &[u32], adding: bool, at: usize, i: u32) -> u32
    ensures { result ≡ changed_of adding (t.now ! at) i }
{
    let s = set_at(t, at);
    if adding {
        s.add(i).bits
    } else {
        s.remove(i).bits
    }
}

// One role of a role's set, added or removed: compatible roles by rule 25 (H5), admin and assign roles by Role Admin only (rules 24, 30).
#[tactic(auto, using(model::proofs::Ends::ends), unfolding(model::specs::Administration::change_set_no, model::specs::Administration::change_set_row))]
pub fn change_set(
    t: &mut [u32],
    caller: u32,
    adding: bool,
    set: u32,
    role: u32,
    member: u32,
) -> Result<u32, Refusal>
    ensures { outcome (answer_of result) t.new ≡ decide t.old (change_set_no t.old caller set role member) 0 (change_set_row adding t.old set role member) }
{
    let me = Caller {
        tables: t,
        process: caller,
    };
    let rule = set == COMPATIBLE_ROLES && me.may_assign(member) && me.may_admin(role);
    refused_unless(Refusal::NotAllowed, me.passes(rule))?;
    let at = role_addr(role) + (set as usize);
    let v = changed(t, adding, at, member);
    set_word(t, at, v);
    Ok(0)
}

// A user's default role: the new one and the one before it are in own assign roles (rule 26).
#[tactic(auto, using(model::proofs::Ends::ends), unfolding(model::specs::Administration::ruling_on, model::specs::Administration::set_user_role_no, model::specs::Administration::set_user_role_row))]
pub fn set_user_role(t: &mut [u32], caller: u32, user: u32, role: u32) -> Result<u32, Refusal>
    ensures { outcome (answer_of result) t.new ≡ carry_out t.old (ruling_on t.old caller (Change.SetUserRole user role)) }
{
    let me = Caller {
        tables: t,
        process: caller,
    };
    let both = me.may_assign(role) && me.may_assign(user_role(t, user));
    refused_unless(Refusal::NotAllowed, me.passes(both))?;
    set_word(t, user_addr(user), role);
    Ok(0)
}

// What Role Admin alone may set (H9).
#[tactic(auto, unfolding(model::specs::Administration::role_admin_no))]
fn check_role_admin(me: Caller) -> Result<(), Refusal>
    ensures { code result ≡ role_admin_no me.entry.tables.now me.entry.process }
{
    refused_unless(Refusal::NotAllowed, me.passes(false))
}

// One of a role's five default types: Role Admin only (H9).
#[tactic(auto, using(model::proofs::Ends::ends), unfolding(model::specs::Administration::ruling_on, model::specs::Administration::set_default_type_row))]
pub fn set_default_type(
    t: &mut [u32],
    caller: u32,
    which: u32,
    role: u32,
    value: u32,
) -> Result<u32, Refusal>
    ensures { outcome (answer_of result) t.new ≡ carry_out t.old (ruling_on t.old caller (Change.SetDefaultType which role value)) }
{
    let me = Caller {
        tables: t,
        process: caller,
    };
    check_role_admin(me)?;
    set_word(t, role_addr(role) + (DEFAULTS + (which as usize)), value);
    Ok(0)
}

// The Role Admin mark: Role Admin only (H9), which may clear its own.
#[tactic(auto, using(model::proofs::Ends::ends), unfolding(model::specs::Administration::ruling_on, model::specs::Administration::set_role_admin_row))]
pub fn set_role_admin(t: &mut [u32], caller: u32, role: u32, mark: u32) -> Result<u32, Refusal>
    ensures { outcome (answer_of result) t.new ≡ carry_out t.old (ruling_on t.old caller (Change.SetRoleAdmin role mark)) }
{
    let me = Caller {
        tables: t,
        process: caller,
    };
    check_role_admin(me)?;
    set_word(t, role_addr(role) + MARK, mark);
    Ok(0)
}

// The right to the type that a change asks for: rule 33 for the rights 0 to 27, rule 34 for the special rights.
fn right_needed(right: u32) -> u32
    ensures { result ≡ right_needed right }
{
    if right < ADMIN {
        ACCESS_CONTROL
    } else {
        SUPERVISOR
    }
}

// One right for a group, role and type, added or removed (rules 33 and 34).
#[tactic(auto, using(model::proofs::Ends::ends), unfolding(model::specs::Administration::change_right_no, model::specs::Administration::change_right_row))]
pub fn change_right(
    t: &mut [u32],
    caller: u32,
    adding: bool,
    group: u32,
    role: u32,
    rctype: u32,
    right: u32,
) -> Result<u32, Refusal>
    ensures { outcome (answer_of result) t.new ≡ decide t.old (change_right_no t.old caller group role rctype right) 0 (change_right_row adding t.old group role rctype right) }
{
    let me = Caller {
        tables: t,
        process: caller,
    };
    let rule = me.may(group, rctype, right_needed(right)) && me.may_admin(role);
    refused_unless(Refusal::NotAllowed, me.passes(rule))?;
    let at = rights_addr(group, role, rctype);
    let v = changed(t, adding, at, right);
    set_word(t, at, v);
    Ok(0)
}
