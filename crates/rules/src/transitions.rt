// What becomes of a record, on records by value (rules 2 to 22).
ghost use Rattle.std.specs.Prelude.{◌≡◌};
ghost use Rattle.model.specs.Transitions.{default_or, chown_type, forced_role, initial_role, chown_role, cloned as cloned_of, executed as executed_of, chowned as chowned_of, with_role, created as created_of};

use model::numbers::{INHERIT_PARENT, USE_NEW_ROLE_DEF_CREATE};
use model::{File, Forced, Initial, Kind, Process, Role};

// Rules 8 and 10: the default type, or the present one where that is inherit parent.
#[tactic(auto, unfolding(model::specs::Transitions::default_or))]
pub fn default_or(default: u32, present: u32) -> u32
    ensures { result ≡ default_or default present }
{
    if default == INHERIT_PARENT {
        present
    } else {
        default
    }
}

// Rule 13, H2: use new role def create stands for the create type of the new role.
#[tactic(auto, unfolding(model::specs::Transitions::chown_type))]
pub fn chown_type(chown: u32, create: u32, present: u32) -> u32
    ensures { result ≡ chown_type chown create present }
{
    if chown == USE_NEW_ROLE_DEF_CREATE {
        default_or(create, present)
    } else {
        default_or(chown, present)
    }
}

// Rule 20: the role that a forced value gives at execute.
pub fn forced_role(forced: Forced, owner_role: u32, present: u32) -> u32
    ensures { result ≡ forced_role forced owner_role present }
{
    match forced {
        Forced::Plain(role) => role,
        Forced::InheritUser => owner_role,
        Forced::InheritParent | Forced::InheritProcess | Forced::UpMixed => present,
    }
}

// Rule 18: a plain initial role, or else what rule 20 gives.
pub fn initial_role(initial: Initial, by_forced: u32) -> u32
    ensures { result ≡ initial_role initial by_forced }
{
    match initial {
        Initial::Plain(role) => role,
        Initial::InheritParent | Initial::UseForcedRole => by_forced,
    }
}

// Rule 22: the role that a process's forced value gives when its owner changes.
pub fn chown_role(forced: Forced, owner_role: u32, present: u32) -> u32
    ensures { result ≡ chown_role forced owner_role present }
{
    match forced {
        Forced::Plain(role) => role,
        Forced::InheritParent | Forced::InheritUser | Forced::UpMixed => owner_role,
        Forced::InheritProcess => present,
    }
}

// Rules 2 and 8, H1: the child of a clone.
#[tactic(auto, unfolding(model::specs::Transitions::cloned))]
pub fn cloned(own: Role, me: Process) -> Process
    ensures { result ≡ cloned_of own me }
{
    Process {
        live: true,
        rctype: default_or(own.processcreate, me.rctype),
        ..me
    }
}

// Rules 10, 18, 20 and 21: the type goes by the role before, and the forced value is always copied.
#[tactic(auto, unfolding(model::specs::Transitions::executed))]
pub fn executed(
    own: Role,
    owner_role: u32,
    initial: Initial,
    forced: Forced,
    me: Process,
) -> Process
    ensures { result ≡ executed_of own owner_role initial forced me }
{
    Process {
        live: true,
        role: initial_role(initial, forced_role(forced, owner_role, me.role)),
        rctype: default_or(own.execute, me.rctype),
        forced,
        ..me
    }
}

// Rules 13 and 22: a new owner, the role that rule 22 gives, and by H2 that role's process create type.
#[tactic(auto, unfolding(model::specs::Transitions::chowned))]
pub fn chowned(own: Role, user: u32, after: u32, create: u32, me: Process) -> Process
    ensures { result ≡ chowned_of own user after create me }
{
    Process {
        live: true,
        owner: user,
        role: after,
        rctype: chown_type(own.chown, create, me.rctype),
        ..me
    }
}

// Rule 15, H3: the role alone changes.
#[tactic(auto, unfolding(model::specs::Transitions::with_role))]
pub fn with_role(role: u32, me: Process) -> Process
    ensures { result ≡ with_role role me }
{
    Process {
        live: true,
        role,
        ..me
    }
}

// Rule 6: a new file or directory; initial and forced inherit parent.
#[tactic(auto, unfolding(model::specs::Transitions::created))]
pub fn created(own: Role, kind: Kind, parent: u32, depth: u32) -> File
    ensures { result ≡ created_of own kind parent depth }
{
    File {
        kind,
        parent,
        depth,
        rctype: own.filecreate,
        initial: Initial::InheritParent,
        forced: Forced::InheritParent,
    }
}
