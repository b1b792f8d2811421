// Access to a file for those who are lent the tables to read only: the one call that never changes them.
ghost use Rattle.std.specs.Prelude.{◌≡◌};
ghost use Rattle.model.specs.declared.Call.{Call};
ghost use Rattle.model.specs.Numbers.{FILESYSTEM};
ghost use Rattle.model.specs.Outcome.{outcome};
ghost use Rattle.model.specs.Refusals.{answer_of};
ghost use Rattle.model.specs.Step.{act as act_of, step as step_of};

use caller::Caller;
use formed::well_formed;
use model::Refusal;
use model::layout::ROW_LENGTH;
use model::numbers::FILESYSTEM;
use objects::access::access_file;
use rules::refusal::refused_unless;

// On tables that are known to be well formed.
#[tactic(auto, using(model::proofs::Ends::heads), unfolding(model::specs::Step::act, model::specs::Step::number))]
fn act_access_file(t: &[u32], caller: u32, file: u32, right: u32) -> Result<u32, Refusal>
    ensures { outcome (answer_of result) t.now ≡ act_of t.now caller (Call.Access FILESYSTEM file right) }
{
    let me = Caller {
        tables: t,
        process: caller,
    };
    me.check_access(FILESYSTEM, file, right)?;
    access_file(t, caller, file, right)
}

// On any row: what `step` answers to that call.
#[tactic(auto, using(crate::proofs::Whole::whole))]
pub fn step_access_file(t: &[u32], caller: u32, file: u32, right: u32) -> Result<u32, Refusal>
    ensures { outcome (answer_of result) t.now ≡ step_of t.now caller (Call.Access FILESYSTEM file right) }
{
    refused_unless(Refusal::IllFormed, well_formed(t))?;
    act_access_file(&t[..ROW_LENGTH], caller, file, right)
}
