// The administration calls on objects (rules 27, 28, 29 and 32, H4, H7, H8 and H10): the initial and forced values of a file, the forced value of a
// process, the type of any object. Each is refused, or writes its words; what is kept of a file `administration` then moves.
#![tactic(auto)]

ghost use Rattle.std.specs.Prelude.{◌+◌, ◌≡◌, [], ◌∷◌, set};
ghost use Rattle.model.specs.declared.Change.{Change};
ghost use Rattle.model.specs.Layout.{INITIAL, file_addr};
ghost use Rattle.model.specs.Words.{put};
ghost use Rattle.model.specs.Outcome.{outcome, decide, carry_out};
ghost use Rattle.model.specs.Refusals.{code, answer_of};
ghost use Rattle.model.specs.Administration.{modify_no, program_roles_no, set_type_no, inherited as inherited_of, assigned_type, type_addr, ruling_on};

use caller::Caller;
use kept::type_of;
use model::Refusal;
use model::layout::{
    FILE_TYPE, INITIAL, IPC_TYPE, KEPT_TYPE, PARENT, PROCESS_FORCED, PROCESS_TYPE,
};
use model::numbers::{
    ASSIGN, FILESYSTEM, INHERIT_PARENT, MODIFY_ATTRIBUTE, PROCESS, ROOT, ROOT_TYPE,
};
use rules::refusal::refused_unless;
use tables::addresses::{file_addr, ipc_addr, process_addr};
use tables::places::occupied;
use tables::records::{file_word, kept_at};
use tables::words::{put_words, set_word};

// What is set of an object (rules 27, 28, 29 and 32): it is there, own role has MODIFY_ATTRIBUTE to its type, and what else the rule asks holds.
#[tactic(auto, unfolding(model::specs::Administration::modify_no))]
fn check_modify(me: Caller, group: u32, object: u32, rule: bool) -> Result<(), Refusal>
    ensures { code result ≡ modify_no me.entry.tables.now me.entry.process group object rule }
{
    refused_unless(Refusal::NoSuchPlace, occupied(me.tables, group, object))?;
    let rctype = type_of(me.tables, group, object);
    let modifies = me.may(group, rctype, MODIFY_ATTRIBUTE);
    refused_unless(Refusal::NotAllowed, me.passes(rule && modifies))
}

// A program's roles, the initial and the forced value of a file at once (rules 27 and 28, W-207); a special value is in no role set (H7).
#[tactic(auto, using(model::proofs::Ends::ends), unfolding(model::specs::Administration::program_roles_no))]
pub fn set_program_roles(
    t: &mut [u32],
    caller: u32,
    file: u32,
    initial: u32,
    forced: u32,
) -> Result<u32, Refusal>
    ensures { outcome (answer_of result) t.new ≡ decide t.old (program_roles_no t.old caller file initial forced) 0 (put t.old (file_addr file + INITIAL) (initial ∷ forced ∷ [])) }
{
    let me = Caller {
        tables: t,
        process: caller,
    };
    let both = me.may_assign(initial) && me.may_assign(forced);
    check_modify(me, FILESYSTEM, file, both)?;
    put_words(t, file_addr(file) + (INITIAL as usize), &[initial, forced]);
    Ok(0)
}

// A process's forced value (rule 29, H7); its current role does not move (H8).
#[tactic(auto, using(model::proofs::Ends::ends), unfolding(model::specs::Administration::ruling_on, model::specs::Administration::set_process_forced_row))]
pub fn set_process_forced(
    t: &mut [u32],
    caller: u32,
    process: u32,
    value: u32,
) -> Result<u32, Refusal>
    ensures { outcome (answer_of result) t.new ≡ carry_out t.old (ruling_on t.old caller (Change.SetProcessForced process value)) }
{
    let me = Caller {
        tables: t,
        process: caller,
    };
    check_modify(me, PROCESS, process, me.may_assign(value))?;
    set_word(t, process_addr(process) + PROCESS_FORCED, value);
    Ok(0)
}

// H10: the effective type that a file would have if it inherited; at a root, that of a root without a type.
#[tactic(auto, unfolding(model::specs::Administration::inherited))]
fn inherited(t: &[u32], file: u32) -> u32
    ensures { result ≡ inherited_of t.now file }
{
    if file == ROOT {
        ROOT_TYPE
    } else {
        kept_at(t, KEPT_TYPE, file_word(t, file, PARENT))
    }
}

// The type that ASSIGN is asked to.
#[tactic(auto, unfolding(model::specs::Administration::assigned_type))]
fn assigned_type(t: &[u32], object: u32, value: u32) -> u32
    ensures { result ≡ assigned_type t.now object value }
{
    if value == INHERIT_PARENT {
        inherited(t, object)
    } else {
        value
    }
}

// Where an object's type is kept.
fn type_addr(group: u32, object: u32) -> usize
    ensures { result ≡ type_addr group object }
{
    if group == FILESYSTEM {
        file_addr(object) + (FILE_TYPE as usize)
    } else if group == PROCESS {
        process_addr(object) + PROCESS_TYPE
    } else {
        ipc_addr(object) + IPC_TYPE
    }
}

// An object's type: ASSIGN to the new one (rule 32, H10).
#[tactic(auto, using(model::proofs::Ends::ends), unfolding(model::specs::Administration::set_type_no))]
pub fn set_type(
    t: &mut [u32],
    caller: u32,
    group: u32,
    object: u32,
    value: u32,
) -> Result<u32, Refusal>
    ensures { outcome (answer_of result) t.new ≡ decide t.old (set_type_no t.old caller group object value) 0 (set t.old (type_addr group object) value) }
{
    let me = Caller {
        tables: t,
        process: caller,
    };
    let assigns = me.may(group, assigned_type(t, object, value), ASSIGN);
    check_modify(me, group, object, assigns)?;
    set_word(t, type_addr(group, object), value);
    Ok(0)
}
