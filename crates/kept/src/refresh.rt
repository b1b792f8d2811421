// A value of a file was set: it is kept anew for that file, and where the file is a DIR, below it. A child may stand at a lower place than its
// parent, so a DIR's places are swept until a sweep moves nothing; in a tree whose places are in order that is the second.
ghost use Rattle.std.specs.Prelude.{false, ◌≡◌, ◌-◌};
ghost use Rattle.model.specs.KeptValues.{kept_anew, swept, refreshed, revalued};

use crate::own_or_parents;
use model::layout::KIND;
use model::numbers::{DEPTHS, DIR, FILES};
use tables::addresses::kept_addr;
use tables::records::file_word;
use tables::words::{set_word, word};

// Value k of one place; whether it had to be written.
#[tactic(auto, using(crate::proofs::Laws::anew), unfolding(model::specs::KeptValues::kept_anew))]
fn keep_anew(t: &mut [u32], k: u32, o: u32) -> bool
    ensures { (t.new ≡ kept_anew t.old k o) × (result ≡ false → t.new ≡ t.old) }
{
    let v = own_or_parents(t, k, o);
    let a = kept_addr(o) + (k as usize);
    if word(t, a) == v {
        return false;
    }
    set_word(t, a, v);
    true
}

// Value k of the places from `low` up to `end`, one after the other; whether any had to be written.
fn sweep(t: &mut [u32], low: u32, end: u32, k: u32) -> bool
    ensures { (t.new ≡ swept low (end - low) t.old k) × (result ≡ false → t.new ≡ t.old) }
{
    let mut moved = false;
    for o in low..end {
        moved = keep_anew(t, k, o) | moved;
    }
    moved
}

// Value k of these places, at every depth: a sweep that moves nothing is the last. By a `for` that returns, the root's type costs 14,045 instructions
// to set, and so 7,611.
pub fn refresh(t: &mut [u32], low: u32, end: u32, k: u32)
    ensures { t.new ≡ refreshed low (end - low) t.old k }
{
    let mut moved = true;
    let mut d: u32 = 0;
    while moved & (d < DEPTHS) {
        moved = sweep(t, low, end, k);
        d += 1;
    }
}

// Value k of file o was set; below a DIR any place may inherit it.
#[tactic(auto, unfolding(model::specs::KeptValues::revalued))]
pub fn revalue(t: &mut [u32], k: u32, o: u32)
    ensures { t.new ≡ revalued t.old k o }
{
    if file_word(t, o, KIND) == DIR {
        refresh(t, 0, FILES, k);
    } else {
        keep_anew(t, k, o);
    }
}
