// Effective values kept beside the files (W-206; rules 5, 17, 19): what calls read, and how a write of a file goes on to what is kept.
// Each function leaves what its definition says, on any row.
#![tactic(auto)]

ghost use Rattle.std.specs.Prelude.{◌≡◌, ◌+◌};
ghost use Rattle.model.specs.Layout.{FILE-TYPE};
ghost use Rattle.model.specs.Effective.{root_value};
ghost use Rattle.model.specs.KeptValues.{type_of, own_or_parents, settled, unkept};

use model::layout::{KEPT_FORCED, KEPT_INITIAL, KEPT_TYPE, KEPT_WORDS, PARENT};
use model::numbers::{
    FILESYSTEM, INHERIT_PARENT, PROCESS, ROOT, ROOT_FORCED, ROOT_INITIAL, ROOT_TYPE,
};
use tables::addresses::kept_addr;
use tables::records::{file_word, ipc_at, kept_at, own_value, process_at};
use tables::words::put_words;

pub mod refresh;

// The effective type of an object: only files inherit.
#[tactic(auto, unfolding(model::specs::KeptValues::type_of))]
pub fn type_of(t: &[u32], group: u32, o: u32) -> u32
    ensures { result ≡ type_of t.now group o }
{
    match group {
        FILESYSTEM => kept_at(t, KEPT_TYPE, o),
        PROCESS => process_at(t, o).rctype,
        _ => ipc_at(t, o).rctype,
    }
}

// What value k reads as where a root inherits. Not by the word FILE_TYPE + k, as the climb asks it: that of any k may come to more than a u32 holds.
#[tactic(auto, unfolding(model::specs::Effective::root_value))]
fn at_root(k: u32) -> u32
    ensures { result ≡ root_value (FILE-TYPE + k) }
{
    match k {
        KEPT_TYPE => ROOT_TYPE,
        KEPT_INITIAL => ROOT_INITIAL,
        _ => ROOT_FORCED,
    }
}

// One step of the climb: the file's own value, or where it inherits, the one kept for its parent.
#[tactic(auto, unfolding(model::specs::KeptValues::own_or_parents))]
pub fn own_or_parents(t: &[u32], k: u32, o: u32) -> u32
    ensures { result ≡ own_or_parents t.now k o }
{
    let own = own_value(t, k, o);
    if own != INHERIT_PARENT {
        own
    } else if o == ROOT {
        at_root(k)
    } else {
        kept_at(t, k, file_word(t, o, PARENT))
    }
}

// File o was put: its three values are kept anew.
#[tactic(auto, unfolding(model::specs::KeptValues::settled))]
pub fn settle(t: &mut [u32], o: u32)
    ensures { t.new ≡ settled t.old o }
{
    let vs = [
        own_or_parents(t, KEPT_TYPE, o),
        own_or_parents(t, KEPT_INITIAL, o),
        own_or_parents(t, KEPT_FORCED, o),
    ];
    put_words(t, kept_addr(o), &vs);
}

// File o was removed: a free place keeps zeros.
#[tactic(auto, unfolding(model::specs::KeptValues::unkept))]
pub fn unkeep(t: &mut [u32], o: u32)
    ensures { t.new ≡ unkept t.old o }
{
    put_words(t, kept_addr(o), &[0; KEPT_WORDS]);
}
