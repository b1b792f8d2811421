// The administration calls (rules 23 to 34, H4, H5 and H7 to H11), each by a live caller with numbers in range (`monitor::act` has tested that).
// Each is refused, or writes a word of the row, a program's roles two, and what is kept of them beside the files; it answers
// and leaves what the ruling says, on any row.
#![tactic(auto)]

ghost use Rattle.std.specs.Prelude.{◌≡◌};
ghost use Rattle.model.specs.Layout.{KEPT-WORDS};
ghost use Rattle.model.specs.Outcome.{outcome, carry_out};
ghost use Rattle.model.specs.Refusals.{answer_of};
ghost use Rattle.model.specs.Administration.{ruling_on};
ghost use Rattle.administration.specs.Written.{writing_on, values_of, file_of, sets, along_below, along_with};

use adminobjects::{set_process_forced, set_program_roles, set_type};
use adminroles::{change_right, change_set, set_default_type, set_role_admin, set_user_role};
use kept::refresh::revalue;
use model::layout::{KEPT_FORCED, KEPT_TYPE};
use model::numbers::FILESYSTEM;
use model::{Change, Refusal};

// What a change sets of a file: its type, or a program's two roles.
#[derive(Clone, Copy, Debug, PartialEq, Eq)]
pub enum FileValues {
    Type { file: u32 },
    Roles { file: u32 },
}

impl FileValues {
    // The file.
    fn file(self) -> u32
        ensures { result ≡ file_of self }
    {
        match self {
            FileValues::Type { file } | FileValues::Roles { file } => file,
        }
    }

    // Whether value k of the file is among them.
    fn sets(self, k: u32) -> bool
        ensures { result ≡ sets self k }
    {
        match self {
            FileValues::Type { .. } => k == KEPT_TYPE,
            FileValues::Roles { .. } => k != KEPT_TYPE,
        }
    }
}

// The values of a file that a change sets, if it sets any.
#[tactic(auto, unfolding(crate::specs::Written::values_of))]
fn file_values(change: Change) -> Option<FileValues>
    ensures { result ≡ values_of change }
{
    match change {
        Change::SetProgramRoles { file, .. } => Some(FileValues::Roles { file }),
        Change::SetType {
            group: FILESYSTEM,
            object,
            ..
        } => Some(FileValues::Type { file: object }),
        _ => None,
    }
}

// What a change writes but for what is kept, where it is granted.
#[tactic(auto, unfolding(crate::specs::Written::writing_on, model::specs::Administration::ruling_on))]
fn write(t: &mut [u32], caller: u32, change: Change) -> Result<u32, Refusal>
    ensures { outcome (answer_of result) t.new ≡ carry_out t.old (writing_on t.old caller change) }
{
    match change {
        Change::AddRole { set, role, member } => change_set(t, caller, true, set, role, member),
        Change::RemoveRole { set, role, member } => change_set(t, caller, false, set, role, member),
        Change::SetUserRole { user, role } => set_user_role(t, caller, user, role),
        Change::SetProgramRoles {
            file,
            initial,
            forced,
        } => set_program_roles(t, caller, file, initial, forced),
        Change::SetProcessForced { process, value } => set_process_forced(
            t, caller, process, value,
        ),
        Change::SetDefaultType { which, role, value } => set_default_type(
            t, caller, which, role, value,
        ),
        Change::SetRoleAdmin { role, mark } => set_role_admin(t, caller, role, mark),
        Change::SetType {
            group,
            object,
            value,
        } => set_type(t, caller, group, object, value),
        Change::AddRight {
            group,
            role,
            rctype,
            right,
        } => change_right(t, caller, true, group, role, rctype, right),
        Change::RemoveRight {
            group,
            role,
            rctype,
            right,
        } => change_right(t, caller, false, group, role, rctype, right),
    }
}

// Each value that was set is kept anew. All three are gone through, so that the compiler knows the value at hand and makes a sweep for it alone.
#[tactic(auto, using(crate::proofs::Along::steps))]
fn keep_along(t: &mut [u32], values: FileValues)
    ensures { t.new ≡ along_below KEPT-WORDS t.old values }
{
    for k in KEPT_TYPE..KEPT_FORCED + 1 {
        if values.sets(k) {
            revalue(t, k, values.file());
        }
    }
}

// Where values of a file were set, what is kept goes with them.
fn keep_values(t: &mut [u32], change: Change)
    ensures { t.new ≡ along_with t.old (values_of change) }
{
    if let Some(values) = file_values(change) {
        keep_along(t, values);
    }
}

// Any of them, and then what is kept, in one place for all of them: with the refresh in each that sets a value, every call paid 3 or 4 instructions more.
pub fn administer(t: &mut [u32], caller: u32, change: Change) -> Result<u32, Refusal>
    ensures { outcome (answer_of result) t.new ≡ carry_out t.old (ruling_on t.old caller change) }
{
    let place = write(t, caller, change)?;
    keep_values(t, change);
    Ok(place)
}
