// The monitor: one entry for any call. It tests the tables once, then the caller and the call's numbers once, then does the call; its contract
// is the definition itself.
#![tactic(auto)]

ghost use Rattle.std.specs.Prelude.{◌≡◌};
ghost use Rattle.model.specs.Outcome.{outcome, carry_out};
ghost use Rattle.model.specs.Refusals.{answer_of};
ghost use Rattle.model.specs.Step.{ruling, act as act_of, step as step_of};

use administration::administer;
use caller::Caller;
use formed::well_formed;
use model::layout::ROW_LENGTH;
use model::{Call, Refusal};
use objects::access::access;
use objects::files::{create, delete};
use objects::ipc::{create_ipc, delete_ipc};
use processes::{change_owner, change_role, clone, execute, exit};
use rules::refusal::refused_unless;

pub mod reading;

// What the rules say of a call by a live caller with numbers in range.
#[tactic(auto, unfolding(model::specs::Step::ruling))]
fn carry_out(t: &mut [u32], caller: u32, call: Call) -> Result<u32, Refusal>
    ensures { outcome (answer_of result) t.new ≡ carry_out t.old (ruling t.old caller call) }
{
    match call {
        Call::Access {
            group,
            object,
            right,
        } => access(t, caller, group, object, right),
        Call::Clone => clone(t, caller),
        Call::Exit => exit(t, caller),
        Call::Execute { file } => execute(t, caller, file),
        Call::ChangeOwner { user } => change_owner(t, caller, user),
        Call::ChangeRole { role } => change_role(t, caller, role),
        Call::Create { kind, parent } => create(t, caller, kind, parent),
        Call::Delete { file } => delete(t, caller, file),
        Call::CreateIpc => create_ipc(t, caller),
        Call::DeleteIpc { object } => delete_ipc(t, caller, object),
        Call::Administer { change } => administer(t, caller, change),
    }
}

// A call on tables that are known to be well formed; on any others it still answers and leaves what `act` says.
#[tactic(auto, using(model::proofs::Ends::heads), unfolding(model::specs::Step::act, model::specs::Step::number))]
pub fn act(t: &mut [u32], caller: u32, call: Call) -> Result<u32, Refusal>
    ensures { outcome (answer_of result) t.new ≡ act_of t.old caller call }
{
    let me = Caller {
        tables: t,
        process: caller,
    };
    me.check_call(call)?;
    carry_out(t, caller, call)
}

// A call on any row: tables that are not well formed are number 1. Well-formed ones have their full length, and are handed on at that length,
// so that the compiler knows it too.
#[tactic(auto, using(crate::proofs::Whole::whole))]
pub fn step(t: &mut [u32], caller: u32, call: Call) -> Result<u32, Refusal>
    ensures { outcome (answer_of result) t.new ≡ step_of t.old caller call }
{
    refused_unless(Refusal::IllFormed, well_formed(t))?;
    act(&mut t[..ROW_LENGTH], caller, call)
}
