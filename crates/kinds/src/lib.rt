// The one entry for calls that are written as a kind and some numbers, for C and for batches.
#![tactic(auto)]

ghost use Rattle.std.specs.Prelude.{◌≡◌};
ghost use Rattle.model.specs.Outcome.{outcome};
ghost use Rattle.model.specs.Refusals.{answer_of};
ghost use Rattle.kinds.specs.ByKind.{done as done_of, act_by_kind, step_by_kind};

use decoding::decode;
use formed::well_formed;
use model::layout::ROW_LENGTH;
use model::{Answer, Call, Refusal};
use monitor::act;

// What is no call is 2; a call is done, on tables that are known to be well formed.
fn done(t: &mut [u32], caller: u32, what: Option<Call>) -> Result<u32, Refusal>
    ensures { outcome (answer_of result) t.new ≡ done_of t.old caller what }
{
    let call = what.ok_or(Refusal::OutOfRange)?;
    act(t, caller, call)
}

// A call of a process by its kind and its numbers, on tables that are known to be well formed. One call of C and each of a batch end up here,
// and the row is handed on at its full length, so that the compiler knows it. The answer is in numbers from here on: turned into them by those that
// call this, an access costs 140 instructions, and so 127.
#[tactic(auto, using(crate::proofs::ByKind::full), unfolding(crate::specs::ByKind::act_by_kind))]
pub fn act_by_kind(t: &mut [u32], kind: u32, caller: u32, n: [u32; 5]) -> Answer
    ensures { outcome result t.new ≡ act_by_kind t.old kind caller n }
{
    if t.len() != ROW_LENGTH {
        return Answer::from(Err(Refusal::IllFormed));
    }
    Answer::from(done(&mut t[..ROW_LENGTH], caller, decode(kind, n)))
}

// The same on any row, through the test of the tables; what is no call is refused with 1 or 2.
#[tactic(auto, using(crate::proofs::ByKind::whole))]
pub fn step_by_kind(t: &mut [u32], kind: u32, caller: u32, n: [u32; 5]) -> Answer
    ensures { outcome result t.new ≡ step_by_kind t.old kind caller n }
{
    if well_formed(t) {
        act_by_kind(&mut t[..ROW_LENGTH], kind, caller, n)
    } else {
        Answer::from(Err(Refusal::IllFormed))
    }
}
