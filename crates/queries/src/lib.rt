// The queries of a file: its effective values (rules 5, 17, 19) and its kind. They need no caller and no right, and refuse only with 1, 2 or 4.
#![tactic(auto)]

ghost use Rattle.std.specs.Prelude.{◌≡◌};
ghost use Rattle.model.specs.Queries.{look_no, look as look_of, look_type, look_kind, query as query_of, query_type, query_initial, query_forced, query_kind};
ghost use Rattle.model.specs.Refusals.{code, found_of};

use effective::effective;
use formed::well_formed;
use model::layout::{FILE_TYPE, FORCED, INITIAL, KEPT_TYPE, KIND};
use model::numbers::{FILES, FILESYSTEM};
use model::{Climbed, Refusal};
use rules::refusal::refused_unless;
use tables::places::occupied;
use tables::records::{file_word, kept_at};

// The place is in range and occupied.
fn check_place(t: &[u32], o: u32) -> Result<(), Refusal>
    ensures { code result ≡ look_no t.now o }
{
    refused_unless(Refusal::OutOfRange, o < FILES)?;
    refused_unless(Refusal::NoSuchPlace, occupied(t, FILESYSTEM, o))
}

// What a query answers on tables that are known to be well formed, where v is the value there; 0 with a refusal.
#[tactic(auto, unfolding(model::specs::Queries::look))]
fn look(t: &[u32], o: u32, v: u32) -> u32
    ensures { result ≡ look_of t.now o v }
{
    if check_place(t, o).is_ok() { v } else { 0 }
}

// The query of the word `slot` of any row; a refusal climbs nothing.
#[tactic(auto, using(model::proofs::Ends::ends), unfolding(model::specs::Queries::query, model::specs::Queries::query_no))]
fn query(t: &[u32], slot: u32, o: u32) -> Result<Climbed, Refusal>
    ensures { found_of result ≡ query_of t.now slot o }
{
    refused_unless(Refusal::IllFormed, well_formed(t))?;
    check_place(t, o)?;
    Ok(effective(t, slot, o))
}

// The effective type of a file or directory, the parents climbed to it, and the place where the climb ended (rule 5).
pub fn query_type(t: &[u32], o: u32) -> Result<Climbed, Refusal>
    ensures { found_of result ≡ query_type t.now o }
{
    query(t, FILE_TYPE, o)
}

// Its effective initial value (rule 17).
pub fn query_initial(t: &[u32], o: u32) -> Result<Climbed, Refusal>
    ensures { found_of result ≡ query_initial t.now o }
{
    query(t, INITIAL, o)
}

// Its effective forced value (rule 19).
pub fn query_forced(t: &[u32], o: u32) -> Result<Climbed, Refusal>
    ensures { found_of result ≡ query_forced t.now o }
{
    query(t, FORCED, o)
}

// Whether it is a FILE or a DIR.
pub fn query_kind(t: &[u32], o: u32) -> Result<Climbed, Refusal>
    ensures { found_of result ≡ query_kind t.now o }
{
    query(t, KIND, o)
}

// The effective type, for those who have found the tables well formed.
pub fn look_type(t: &[u32], o: u32) -> u32
    ensures { result ≡ look_type t.now o }
{
    look(t, o, kept_at(t, KEPT_TYPE, o))
}

// The kind, for those who have found the tables well formed.
pub fn look_kind(t: &[u32], o: u32) -> u32
    ensures { result ≡ look_kind t.now o }
{
    look(t, o, file_word(t, o, KIND))
}
