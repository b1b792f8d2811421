// What a process does with itself: clone, exit, execute, change owner, change role. Each is by a live caller with numbers in range
// (`monitor::act` has tested that); it answers and leaves what the ruling says, on any row.
#![tactic(auto)]

ghost use Rattle.std.specs.Prelude.{◌≡◌};
ghost use Rattle.model.specs.declared.Call.{Call};
ghost use Rattle.model.specs.Outcome.{outcome, carry_out};
ghost use Rattle.model.specs.Refusals.{code, answer_of};
ghost use Rattle.model.specs.Calls.{execute_no, role_under};
ghost use Rattle.model.specs.Step.{ruling};

use caller::Caller;
use model::layout::{KEPT_FORCED, KEPT_INITIAL, KEPT_TYPE, KIND};
use model::numbers::{
    CHANGE_OWNER, CLONE, EXECUTE, FILE, FILESYSTEM, FIRST_PROCESS, PROCESS, PROCESSES,
};
use model::{Forced, Initial, Process, Refusal};
use rules::refusal::refused_unless;
use rules::transitions::{chown_role, chowned, cloned, executed, with_role};
use tables::places::free_place;
use tables::records::{file_word, kept_at, put_process, role_at, user_role};

// CLONE to own process type; the child takes the lowest free place (rules 2 and 8, H1).
#[tactic(auto, using(model::proofs::Ends::ends), unfolding(model::specs::Step::ruling, model::specs::Calls::clone_no, model::specs::Calls::clone_row))]
pub fn clone(t: &mut [u32], caller: u32) -> Result<u32, Refusal>
    ensures { outcome (answer_of result) t.new ≡ carry_out t.old (ruling t.old caller Call.Clone) }
{
    let me = Caller {
        tables: t,
        process: caller,
    };
    let place = free_place(t, PROCESS);
    refused_unless(Refusal::NotAllowed, me.may_self(CLONE))?;
    refused_unless(Refusal::Full, place < PROCESSES)?;
    let child = cloned(me.own_role(), me.record());
    put_process(t, place, child);
    Ok(place)
}

// No right is needed, and the place becomes free; process 0 stays.
#[tactic(auto, using(model::proofs::Ends::ends), unfolding(model::specs::Step::ruling, model::specs::Calls::exit_no, model::specs::Calls::exit_row))]
pub fn exit(t: &mut [u32], caller: u32) -> Result<u32, Refusal>
    ensures { outcome (answer_of result) t.new ≡ carry_out t.old (ruling t.old caller Call.Exit) }
{
    refused_unless(Refusal::NotRemovable, caller != FIRST_PROCESS)?;
    put_process(t, caller, Process::default());
    Ok(0)
}

// EXECUTE to the effective type of a FILE.
#[tactic(auto, unfolding(model::specs::Calls::execute_no))]
fn check_execute(me: Caller, file: u32) -> Result<(), Refusal>
    ensures { code result ≡ execute_no me.entry.tables.now me.entry.process file }
{
    refused_unless(
        Refusal::NoSuchPlace,
        file_word(me.tables, file, KIND) == FILE,
    )?;
    let rctype = kept_at(me.tables, KEPT_TYPE, file);
    refused_unless(Refusal::NotAllowed, me.may(FILESYSTEM, rctype, EXECUTE))
}

// Role by rules 18 and 20, forced value by rule 21, type by rule 10.
#[tactic(auto, using(model::proofs::Ends::ends), unfolding(model::specs::Step::ruling, model::specs::Calls::execute_row))]
pub fn execute(t: &mut [u32], caller: u32, file: u32) -> Result<u32, Refusal>
    ensures { outcome (answer_of result) t.new ≡ carry_out t.old (ruling t.old caller (Call.Execute file)) }
{
    let me = Caller {
        tables: t,
        process: caller,
    };
    check_execute(me, file)?;
    let before = me.record();
    let initial = Initial::from(kept_at(t, KEPT_INITIAL, file));
    let forced = Forced::from(kept_at(t, KEPT_FORCED, file));
    let owner_role = user_role(t, before.owner);
    let after = executed(me.own_role(), owner_role, initial, forced, before);
    put_process(t, caller, after);
    Ok(0)
}

// Rule 22: the caller's role once a user owns it.
#[tactic(auto, unfolding(model::specs::Calls::role_under))]
fn role_under(me: Caller, user: u32) -> u32
    ensures { result ≡ role_under me.entry.tables.now me.entry.process user }
{
    let before = me.record();
    chown_role(before.forced, user_role(me.tables, user), before.role)
}

// CHANGE_OWNER to own process type; role by rule 22, type by rule 13 (H2).
#[tactic(auto, using(model::proofs::Ends::ends), unfolding(model::specs::Step::ruling, model::specs::Calls::change_owner_no, model::specs::Calls::change_owner_row))]
pub fn change_owner(t: &mut [u32], caller: u32, user: u32) -> Result<u32, Refusal>
    ensures { outcome (answer_of result) t.new ≡ carry_out t.old (ruling t.old caller (Call.ChangeOwner user)) }
{
    let me = Caller {
        tables: t,
        process: caller,
    };
    refused_unless(Refusal::NotAllowed, me.may_self(CHANGE_OWNER))?;
    let role = role_under(me, user);
    let create = role_at(t, role).processcreate;
    let after = chowned(me.own_role(), user, role, create, me.record());
    put_process(t, caller, after);
    Ok(0)
}

// Rule 15: the role is in own compatible roles, the present one too; the role alone changes (H3).
#[tactic(auto, using(model::proofs::Ends::ends), unfolding(model::specs::Step::ruling, model::specs::Calls::change_role_no, model::specs::Calls::change_role_row))]
pub fn change_role(t: &mut [u32], caller: u32, role: u32) -> Result<u32, Refusal>
    ensures { outcome (answer_of result) t.new ≡ carry_out t.old (ruling t.old caller (Call.ChangeRole role)) }
{
    let me = Caller {
        tables: t,
        process: caller,
    };
    refused_unless(Refusal::NotAllowed, me.own_role().compatible.has(role))?;
    let after = with_role(role, me.record());
    put_process(t, caller, after);
    Ok(0)
}
