// The process that makes a call: whether it may ask at all, its own role, and what that role allows.
#![tactic(auto)]

ghost use Rattle.std.specs.Prelude.{◌≡◌, ◌&&◌, ltb};
ghost use Rattle.model.specs.Numbers.{◌unless◌, ◌▹◌, PROCESS, PROCESSES};
ghost use Rattle.model.specs.Records.{occupied as occupied_of, process_at as process_at_of};
ghost use Rattle.model.specs.Calls.{own_role, may as may_of, may_self};
ghost use Rattle.model.specs.Administration.{passes as passes_of, may_assign, may_admin};
ghost use Rattle.model.specs.Refusals.{code};
ghost use Rattle.model.specs.Step.{caller_no};

use crate::ranges::{ranged, ranged_access};
use model::numbers::{PROCESS, PROCESSES};
use model::{Call, Process, Refusal, Role};
use rules::refusal::refused_unless;
use tables::places::occupied;
use tables::records::{has_right, process_at, role_at};

mod ranges;

// The process that makes a call, beside the tables that it asks of. Calls that write take the two apart, and make one of these to ask: over a row that
// may be written, each contract would have to say besides that the row is the same one.
#[derive(Clone, Copy)]
pub struct Caller<'a> {
    pub tables: &'a [u32],
    pub process: u32,
}

impl Caller<'_> {
    // Numbers 2 and 3: the numbers of the call fit their ranges, the caller's does too, and the caller is live.
    fn check_head(self, fits: bool) -> Result<(), Refusal>
        ensures { code result ≡ 2 unless (ltb self.entry.process PROCESSES && fits) ▹ 3 unless occupied_of self.entry.tables.now PROCESS self.entry.process }
    {
        refused_unless(Refusal::OutOfRange, self.process < PROCESSES && fits)?;
        refused_unless(
            Refusal::NotLive,
            occupied(self.tables, PROCESS, self.process),
        )
    }

    // Numbers 2 and 3 of any call.
    #[tactic(auto, unfolding(model::specs::Step::caller_no))]
    pub fn check_call(self, call: Call) -> Result<(), Refusal>
        ensures { code result ≡ caller_no self.entry.tables.now self.entry.process call }
    {
        self.check_head(ranged(call))
    }

    // Numbers 2 and 3 of an access, for those who make no other call.
    #[tactic(auto, unfolding(model::specs::Step::caller_no))]
    pub fn check_access(self, group: u32, object: u32, right: u32) -> Result<(), Refusal>
        ensures { code result ≡ caller_no self.entry.tables.now self.entry.process (Call.Access group object right) }
    {
        self.check_head(ranged_access(group, object, right))
    }

    // The caller's own record.
    pub fn record(self) -> Process
        ensures { result ≡ process_at_of self.entry.tables.now self.entry.process }
    {
        process_at(self.tables, self.process)
    }

    // Own role: the caller's current role.
    #[tactic(auto, unfolding(model::specs::Calls::own_role))]
    pub fn own_role(self) -> Role
        ensures { result ≡ own_role self.entry.tables.now self.entry.process }
    {
        role_at(self.tables, self.record().role)
    }

    // Rule 16: own role has the right to a type of a group.
    #[tactic(auto, unfolding(model::specs::Calls::may))]
    pub fn may(self, group: u32, rctype: u32, right: u32) -> bool
        ensures { result ≡ may_of self.entry.tables.now self.entry.process group rctype right }
    {
        has_right(self.tables, group, self.record().role, rctype, right)
    }

    // Rule 16 for the caller itself: own role has the right to own process type.
    pub fn may_self(self, right: u32) -> bool
        ensures { result ≡ may_self self.entry.tables.now self.entry.process right }
    {
        self.may(PROCESS, self.record().rctype, right)
    }

    // H4: Role Admin passes every test of rules 23 to 34.
    #[tactic(auto, unfolding(model::specs::Administration::passes))]
    pub fn passes(self, rule: bool) -> bool
        ensures { result ≡ passes_of self.entry.tables.now self.entry.process rule }
    {
        self.own_role().mark || rule
    }

    // A role is in own assign roles.
    pub fn may_assign(self, role: u32) -> bool
        ensures { result ≡ may_assign self.entry.tables.now self.entry.process role }
    {
        self.own_role().assign.has(role)
    }

    // A role is in own admin roles (rule 23).
    pub fn may_admin(self, role: u32) -> bool
        ensures { result ≡ may_admin self.entry.tables.now self.entry.process role }
    {
        self.own_role().admin.has(role)
    }
}
