// A night's calls at once (W-205). One function sees what was sent, one the tables, one the answers; the loop alone has all three. The tables are
// tested once: every call keeps them well formed.
#![tactic(auto)]

ghost use Rattle.std.specs.Prelude.{◌≡◌, true, [], ◌∷◌, ◌+◌, ◌*◌, ◌%◌, ◌<◌, ◌≤◌, length};
ghost use Rattle.model.specs.Outcome.{outcome};
ghost use Rattle.model.specs.Refusals.{code, answer_of};
ghost use Rattle.model.specs.WellFormed.{well_formed};
ghost use Rattle.model.specs.Words.{put};
ghost use Rattle.batch.specs.Items.{acted};
ghost use Rattle.batch.specs.Batch.{ANSWER-BYTES, items as items_of, item_at, tables_after, answers_after, batch_no, batched, batch as batch_of};

use formed::well_formed;
use items::{ITEM_BYTES, Item, count, read};
use kinds::act_by_kind;
use model::layout::ROW_LENGTH;
use model::{Answer, Refusal};
use rules::refusal::refused_unless;

mod items;

const ANSWER_BYTES: usize = 2;

// Item k of what was sent.
fn item_at(calls: &[u8], k: usize) -> Option<Item>
    requires { k < items_of calls.now }
    ensures { result ≡ item_at calls.now k }
{
    let at = k * ITEM_BYTES;
    let end = at + ITEM_BYTES;
    read(&calls[at..end])
}

// One item on tables that are known to be well formed.
fn make(t: &mut [u32], item: Option<Item>) -> Answer
    ensures { outcome result t.new ≡ acted t.old item }
{
    match item {
        None => Answer::from(Err(Refusal::OutOfRange)),
        Some(item) => act_by_kind(t, item.kind, item.caller, item.numbers),
    }
}

// The answer to item k, in its two bytes. That number and place fit these is promised of every answer.
#[tactic(auto, unfolding(model::specs::Words::put))]
fn put_answer(s: &mut [u8], k: usize, answer: Answer)
    requires { k * ANSWER-BYTES + ANSWER-BYTES ≤ length s.old }
    ensures { s.new ≡ put s.old (k * ANSWER-BYTES) (answer.number % 256 ∷ answer.place % 256 ∷ []) }
{
    let at = k * ANSWER_BYTES;
    s[at] = (answer.number % 256) as u8;
    s[at + 1] = (answer.place % 256) as u8;
}

// All items in their order, each answered in its place.
#[tactic(auto, unfolding(crate::specs::Batch::tables_after, crate::specs::Batch::answers_after))]
fn make_all(t: &mut [u32], calls: &[u8], answers: &mut [u8])
    requires tables_formed { well_formed t.old ≡ true }
    requires answers_fit { items_of calls.now * ANSWER-BYTES ≤ length answers.old }
    ensures made { t.new ≡ tables_after t.old calls.now (items_of calls.now) }
    ensures answered { answers.new ≡ answers_after t.old calls.now answers.old (items_of calls.now) }
{
    for k in 0..count(calls) {
        let answer = make(t, item_at(calls, k));
        put_answer(answers, k, answer);
    }
}

// The tests of the whole batch: the tables first, then whole items, and room for an answer to each.
#[tactic(auto, unfolding(crate::specs::Batch::batch_no))]
fn check_batch(t: &[u32], calls: &[u8], answers: &[u8]) -> Result<(), Refusal>
    ensures { code result ≡ batch_no t.now calls.now answers.now }
{
    let fits = calls.len() % ITEM_BYTES == 0 && count(calls) * ANSWER_BYTES <= answers.len();
    refused_unless(Refusal::IllFormed, well_formed(t))?;
    refused_unless(Refusal::OutOfRange, fits)
}

// Makes all calls that were sent, and answers each; refused as a whole, it makes none and writes nothing.
#[tactic(auto, using(crate::proofs::Laws::lent))]
pub fn batch(t: &mut [u32], calls: &[u8], answers: &mut [u8]) -> Result<u32, Refusal>
    ensures { batched (answer_of result) t.new answers.new ≡ batch_of t.old calls.now answers.old }
{
    check_batch(t, calls, answers)?;
    make_all(&mut t[..ROW_LENGTH], calls, answers);
    Ok(0)
}
