// The types of the monitor: what the tables hold, what a process may ask, what it is answered.
// Their meaning is in specs/, in the order of the scope document.
#![tactic(auto)]

ghost use Rattle.std.specs.Prelude.{◌≡◌};

use sets::RoleSet;

mod answers;
mod cases;
mod free;
pub mod layout;
pub mod numbers;

// What stands at a file place.
#[derive(Clone, Copy, Debug, PartialEq, Eq)]
pub enum Kind {
    Free,
    File,
    Dir,
}

// A file's initial role: a role, or a named special case.
#[derive(Clone, Copy, Debug, PartialEq, Eq)]
pub enum Initial {
    Plain(u32),
    InheritParent,
    UseForcedRole,
}

// A file's or a process's forced role: a role, or a named special case.
#[derive(Clone, Copy, Debug, PartialEq, Eq)]
pub enum Forced {
    Plain(u32),
    InheritParent,
    InheritUser,
    InheritProcess,
    UpMixed,
}

// A process place; `rctype` is the type that rights are held to.
#[derive(Clone, Copy, Debug, PartialEq, Eq)]
pub struct Process {
    pub live: bool,
    pub owner: u32,
    pub role: u32,
    pub rctype: u32,
    pub forced: Forced,
}

// A file place; its type may be inherit parent.
#[derive(Clone, Copy, Debug, PartialEq, Eq)]
pub struct File {
    pub kind: Kind,
    pub parent: u32,
    pub depth: u32,
    pub rctype: u32,
    pub initial: Initial,
    pub forced: Forced,
}

// An IPC place.
#[derive(Clone, Copy, Debug, PartialEq, Eq)]
pub struct Ipc {
    pub live: bool,
    pub rctype: u32,
}

// A role: the sets that bound what it may take and give, the Role Admin mark, and the default types.
#[derive(Clone, Copy, Debug, PartialEq, Eq)]
pub struct Role {
    pub compatible: RoleSet,
    pub admin: RoleSet,
    pub assign: RoleSet,
    pub mark: bool,
    pub filecreate: u32,
    pub processcreate: u32,
    pub execute: u32,
    pub chown: u32,
    pub ipccreate: u32,
}

// What a process asks of the monitor; who asks stands beside it. Groups, kinds, sets and the like are numbers, since a call is answered for each
// number: 2 where it names nothing.
#[derive(Clone, Copy, Debug, PartialEq, Eq)]
pub enum Call {
    Access { group: u32, object: u32, right: u32 },
    Clone,
    Exit,
    Execute { file: u32 },
    ChangeOwner { user: u32 },
    ChangeRole { role: u32 },
    Create { kind: u32, parent: u32 },
    Delete { file: u32 },
    CreateIpc,
    DeleteIpc { object: u32 },
    Administer { change: Change },
}

// What an administration call asks for.
#[derive(Clone, Copy, Debug, PartialEq, Eq)]
pub enum Change {
    AddRole {
        set: u32,
        role: u32,
        member: u32,
    },
    RemoveRole {
        set: u32,
        role: u32,
        member: u32,
    },
    SetUserRole {
        user: u32,
        role: u32,
    },
    SetProgramRoles {
        file: u32,
        initial: u32,
        forced: u32,
    },
    SetProcessForced {
        process: u32,
        value: u32,
    },
    SetDefaultType {
        which: u32,
        role: u32,
        value: u32,
    },
    SetRoleAdmin {
        role: u32,
        mark: u32,
    },
    SetType {
        group: u32,
        object: u32,
        value: u32,
    },
    AddRight {
        group: u32,
        role: u32,
        rctype: u32,
        right: u32,
    },
    RemoveRight {
        group: u32,
        role: u32,
        rctype: u32,
        right: u32,
    },
}

// An effective value, the number of parents climbed to it, and the place where the climb ended.
#[derive(Clone, Copy, Debug, PartialEq, Eq)]
pub struct Climbed {
    pub value: u32,
    pub climbed: u32,
    pub place: u32,
}

// Why a call or a query is refused, in the order in which refusals are looked for.
#[derive(Clone, Copy, Debug, PartialEq, Eq)]
pub enum Refusal {
    IllFormed = 1,
    OutOfRange = 2,
    NotLive = 3,
    NoSuchPlace = 4,
    NotAllowed = 5,
    NotRemovable = 6,
    TooDeep = 7,
    Full = 8,
}

// The rules of a claim, in the order in which they are looked at.
#[derive(Clone, Copy, Debug, PartialEq, Eq)]
pub enum Rule {
    C1 = 1,
    C2 = 2,
    C3 = 3,
    C4 = 4,
    C5 = 5,
    C6 = 6,
    C7 = 7,
    C8 = 8,
    C9 = 9,
}

// Why a claim is not accepted: it is refused as a call is, or a rule is broken.
#[derive(Clone, Copy, Debug, PartialEq, Eq)]
pub enum Objection {
    Refused(Refusal),
    Broken(Rule),
}

// What a call is answered: 0 and the place that a grant gives, or the number of the refusal and 0.
#[repr(C)]
#[derive(Clone, Copy, Debug, PartialEq, Eq)]
pub struct Answer {
    pub number: u32,
    pub place: u32,
}

// What a query is answered: 0, the value, the parents climbed and the place where the climb ended, or the number of the refusal and zeros.
#[repr(C)]
#[derive(Clone, Copy, Debug, PartialEq, Eq)]
pub struct Found {
    pub number: u32,
    pub value: u32,
    pub climbed: u32,
    pub place: u32,
}

// What a claim is answered: 0 and 0, 9 and the first rule broken, or another number and 0.
#[repr(C)]
#[derive(Clone, Copy, Debug, PartialEq, Eq)]
pub struct Verdict {
    pub number: u32,
    pub rule: u32,
}
