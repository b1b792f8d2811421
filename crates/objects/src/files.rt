// Files and directories: create, delete.
ghost use Rattle.std.specs.Prelude.{◌≡◌, eqb};
ghost use Rattle.sets.specs.Below.{first_below};
ghost use Rattle.model.specs.declared.Call.{Call};
ghost use Rattle.model.specs.Numbers.{◌unless◌, ◌▹◌, CREATE, DIR, FILES, FILESYSTEM};
ghost use Rattle.model.specs.Layout.{KEPT-TYPE, KIND, PARENT};
ghost use Rattle.model.specs.Records.{file_word, kept_at};
ghost use Rattle.model.specs.Outcome.{outcome, carry_out};
ghost use Rattle.model.specs.Refusals.{code, answer_of};
ghost use Rattle.model.specs.Calls.{may as may_of, delete_no, not_child, childless as childless_of, removable as removable_of};
ghost use Rattle.model.specs.Step.{ruling};

use caller::Caller;
use kept::{settle, unkeep};
use model::layout::{DEPTH, KEPT_TYPE, KIND, PARENT};
use model::numbers::{CREATE, DEEPEST, DELETE, DIR, FILES, FILESYSTEM, ROOT};
use model::{File, Kind, Refusal};
use rules::refusal::refused_unless;
use rules::transitions::created;
use sets::lowest;
use tables::places::{free_place, occupied};
use tables::records::{file_word, kept_at, put_file};

// CREATE to the effective type of the parent, which is a DIR.
fn check_parent(me: Caller, parent: u32) -> Result<(), Refusal>
    ensures { code result ≡ 4 unless eqb (file_word me.entry.tables.now parent KIND) DIR ▹ 5 unless may_of me.entry.tables.now me.entry.process FILESYSTEM (kept_at me.entry.tables.now KEPT-TYPE parent) CREATE }
{
    refused_unless(
        Refusal::NoSuchPlace,
        file_word(me.tables, parent, KIND) == DIR,
    )?;
    let rctype = kept_at(me.tables, KEPT_TYPE, parent);
    refused_unless(Refusal::NotAllowed, me.may(FILESYSTEM, rctype, CREATE))
}

// The lowest free place, one level below the parent, with own role's file create type (rule 6); what is kept for it is settled with it.
#[tactic(auto, using(model::proofs::Ends::ends), unfolding(model::specs::Step::ruling, model::specs::Calls::create_no, model::specs::Calls::create_row))]
pub fn create(t: &mut [u32], caller: u32, kind: u32, parent: u32) -> Result<u32, Refusal>
    ensures { outcome (answer_of result) t.new ≡ carry_out t.old (ruling t.old caller (Call.Create kind parent)) }
{
    let me = Caller {
        tables: t,
        process: caller,
    };
    let place = free_place(t, FILESYSTEM);
    check_parent(me, parent)?;
    let depth = file_word(t, parent, DEPTH);
    refused_unless(Refusal::TooDeep, depth < DEEPEST)?;
    refused_unless(Refusal::Full, place < FILES)?;
    let file = created(me.own_role(), Kind::from(kind), parent, depth + 1);
    put_file(t, place, file);
    settle(t, place);
    Ok(place)
}

// Whether place q holds no child of o: a root is nobody's child. Hardly any place names o as its parent, so that is asked first.
#[tactic(auto, unfolding(model::specs::Calls::not_child))]
fn not_child(t: &[u32], o: u32, q: u32) -> bool
    ensures { result ≡ not_child t.now o q }
{
    file_word(t, q, PARENT) != o || q == ROOT || !occupied(t, FILESYSTEM, q)
}

// The lowest place that names o as its parent; one past the last where none does, since there a walk over the rest ends at once.
fn first_named(t: &[u32], o: u32) -> u32
    ensures { result ≡ first_below FILES (λ q. eqb (file_word t.now q PARENT) o) }
{
    lowest(FILES, |q| file_word(t, q, PARENT) == o).unwrap_or(FILES)
}

// Whether no place holds a child of o. Below the first place that names o there is none, and mostly no place names it.
#[tactic(auto, using(sets::proofs::Walks::walks))]
fn childless(t: &[u32], o: u32) -> bool
    ensures { result ≡ childless_of t.now o }
{
    for q in first_named(t, o)..FILES {
        if !not_child(t, o, q) {
            return false;
        }
    }
    true
}

// Neither the root nor a DIR with children: only a DIR is looked through.
#[tactic(auto, unfolding(model::specs::Calls::removable))]
fn removable(t: &[u32], o: u32) -> bool
    ensures { result ≡ removable_of t.now o }
{
    o != ROOT && (file_word(t, o, KIND) != DIR || childless(t, o))
}

// DELETE to the effective type, and nothing below it.
#[tactic(auto, unfolding(model::specs::Calls::delete_no))]
fn check_delete(me: Caller, file: u32) -> Result<(), Refusal>
    ensures { code result ≡ delete_no me.entry.tables.now me.entry.process file }
{
    refused_unless(Refusal::NoSuchPlace, occupied(me.tables, FILESYSTEM, file))?;
    let rctype = kept_at(me.tables, KEPT_TYPE, file);
    refused_unless(Refusal::NotAllowed, me.may(FILESYSTEM, rctype, DELETE))?;
    refused_unless(Refusal::NotRemovable, removable(me.tables, file))
}

// The place becomes free, and what is kept for it zeros.
#[tactic(auto, using(model::proofs::Ends::ends), unfolding(model::specs::Step::ruling, model::specs::Calls::delete_row))]
pub fn delete(t: &mut [u32], caller: u32, file: u32) -> Result<u32, Refusal>
    ensures { outcome (answer_of result) t.new ≡ carry_out t.old (ruling t.old caller (Call.Delete file)) }
{
    let me = Caller {
        tables: t,
        process: caller,
    };
    check_delete(me, file)?;
    put_file(t, file, File::default());
    unkeep(t, file);
    Ok(0)
}
