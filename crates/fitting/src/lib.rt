// Whether the words of one record are well formed.
// The first word tells a free place, and the others are read where they are tested. Truth values are joined by `&`: by `&&` here and in `formed` the test of
// the tables costs 20,725 instructions, and so 13,171.
#![tactic(auto)]

ghost use Rattle.std.specs.Prelude.{[], ◌∷◌, ◌≡◌, ◌&&◌};
ghost use Rattle.model.specs.Layout.{FILE-WORDS, file_addr};
ghost use Rattle.model.specs.Words.{block};
ghost use Rattle.model.specs.WellFormed.{link_ok, process_ok, user_ok, role_ok, ipc_ok, file_ok};
ghost use Rattle.fitting.specs.Steps.{value_ok, values_ok, free_ok, step_ok};

use model::layout::{
    DEFAULTS, DEPTH, FILE_TYPE, FORCED, INITIAL, IPC_TYPE, KEPT_FORCED, KEPT_INITIAL, KEPT_TYPE,
    KIND, MARK, OWNER, PARENT, PROCESS_FORCED, PROCESS_TYPE, ROLE,
};
use model::numbers::{
    DEEPEST, DIR, FILE_CREATE, FILES, FREE, INHERIT_PARENT, IPC_CREATE, PROCESS_CHOWN,
    PROCESS_CREATE, PROCESS_EXECUTE, ROLES, ROOT, ROOT_FORCED, ROOT_INITIAL, ROOT_TYPE, TYPES,
    USERS,
};
use rules::ranges::{ok_chown, ok_forced, ok_initial, ok_process_forced, ok_type};
use tables::addresses::{file_addr, ipc_addr, process_addr, role_addr, user_addr};
use tables::records::{file_word, kept_at, own_value};
use tables::words::word;

// Live, owner, role, type, forced.
#[tactic(auto, unfolding(model::specs::WellFormed::process_ok, model::specs::Words::block))]
pub fn process_ok(t: &[u32], p: u32) -> bool
    ensures { result ≡ process_ok t.now p }
{
    let a = process_addr(p);
    let live = word(t, a);
    if live == 0 {
        return (word(t, a + OWNER) == 0)
            & (word(t, a + ROLE) == 0)
            & (word(t, a + PROCESS_TYPE) == 0)
            & (word(t, a + PROCESS_FORCED) == 0);
    }
    (live == 1)
        & (word(t, a + OWNER) < USERS)
        & (word(t, a + ROLE) < ROLES)
        & (word(t, a + PROCESS_TYPE) < TYPES)
        & ok_process_forced(word(t, a + PROCESS_FORCED))
}

// A default role is a plain role.
#[tactic(auto, unfolding(model::specs::WellFormed::user_ok))]
pub fn user_ok(t: &[u32], u: u32) -> bool
    ensures { result ≡ user_ok t.now u }
{
    word(t, user_addr(u)) < ROLES
}

// The sets may be any; the mark and the five default types follow them.
#[tactic(auto, unfolding(model::specs::WellFormed::role_ok, model::specs::Words::block))]
pub fn role_ok(t: &[u32], role: u32) -> bool
    ensures { result ≡ role_ok t.now role }
{
    let a = role_addr(role);
    (word(t, a + MARK) <= 1)
        & ok_type(word(t, a + (DEFAULTS + (FILE_CREATE as usize))))
        & ok_type(word(t, a + (DEFAULTS + (PROCESS_CREATE as usize))))
        & ok_type(word(t, a + (DEFAULTS + (PROCESS_EXECUTE as usize))))
        & ok_chown(word(t, a + (DEFAULTS + (PROCESS_CHOWN as usize))))
        & (word(t, a + (DEFAULTS + (IPC_CREATE as usize))) < TYPES)
}

// Live, type.
#[tactic(auto, unfolding(model::specs::WellFormed::ipc_ok, model::specs::Words::block))]
pub fn ipc_ok(t: &[u32], i: u32) -> bool
    ensures { result ≡ ipc_ok t.now i }
{
    let a = ipc_addr(i);
    let live = word(t, a);
    let rctype = word(t, a + IPC_TYPE);
    if live == 0 {
        return rctype == 0;
    }
    (live == 1) & (rctype < TYPES)
}

// Place 0 is the root; any other file has a DIR as parent and lies one deeper, so that no walk up the tree is needed.
#[tactic(auto, unfolding(model::specs::WellFormed::link_ok, model::specs::Words::block))]
fn link_ok(t: &[u32], o: u32, kind: u32, parent: u32, depth: u32) -> bool
    ensures { result ≡ link_ok o (kind ∷ parent ∷ depth ∷ []) (block t.now (file_addr parent) FILE-WORDS) }
{
    if o == ROOT {
        return (kind == DIR) & (parent == ROOT) & (depth == 0);
    }
    if parent >= FILES {
        return false;
    }
    let a = file_addr(parent);
    (word(t, a) == DIR)
        & ((depth as usize) == (word(t, a + (DEPTH as usize)) as usize) + 1)
        & (depth <= DEEPEST)
}

// One value of a file: it is inherit parent, and the one above it is kept, or it is in its range, and is kept itself.
#[tactic(auto, unfolding(crate::specs::Steps::value_ok))]
fn value_ok(ranged: bool, own: u32, kept: u32, above: u32) -> bool
    ensures { result ≡ value_ok ranged own kept above }
{
    if own == INHERIT_PARENT {
        kept == above
    } else {
        ranged & (kept == own)
    }
}

// The three values of a file and what is kept of them, where those above it are handed in.
#[tactic(auto, unfolding(crate::specs::Steps::values_ok))]
fn values_ok(t: &[u32], o: u32, rctype: u32, initial: u32, forced: u32) -> bool
    ensures { result ≡ values_ok t.now o rctype initial forced }
{
    let own_type = own_value(t, KEPT_TYPE, o);
    if !value_ok(
        ok_type(own_type),
        own_type,
        kept_at(t, KEPT_TYPE, o),
        rctype,
    ) {
        return false;
    }
    let own_initial = own_value(t, KEPT_INITIAL, o);
    if !value_ok(
        ok_initial(own_initial),
        own_initial,
        kept_at(t, KEPT_INITIAL, o),
        initial,
    ) {
        return false;
    }
    let own_forced = own_value(t, KEPT_FORCED, o);
    value_ok(
        ok_forced(own_forced),
        own_forced,
        kept_at(t, KEPT_FORCED, o),
        forced,
    )
}

// A free place holds zeros only, and zeros are kept for it.
#[tactic(auto, unfolding(crate::specs::Steps::free_ok))]
fn free_ok(t: &[u32], o: u32) -> bool
    ensures { result ≡ free_ok t.now o }
{
    (file_word(t, o, PARENT) == 0)
        & (file_word(t, o, DEPTH) == 0)
        & (file_word(t, o, FILE_TYPE) == 0)
        & (file_word(t, o, INITIAL) == 0)
        & (file_word(t, o, FORCED) == 0)
        & (kept_at(t, KEPT_TYPE, o) == 0)
        & (kept_at(t, KEPT_INITIAL, o) == 0)
        & (kept_at(t, KEPT_FORCED, o) == 0)
}

// Kind, parent, depth, type, initial, forced, and one step of the climb for what is kept of the last three: a value is in hand for both tests.
pub fn file_ok(t: &[u32], o: u32) -> bool
    ensures { result ≡ (file_ok t.now o && step_ok t.now o) }
{
    let kind = file_word(t, o, KIND);
    if kind == FREE {
        return free_ok(t, o);
    }
    let parent = file_word(t, o, PARENT);
    let linked = (kind <= DIR) & link_ok(t, o, kind, parent, file_word(t, o, DEPTH));
    if !linked {
        return false;
    }
    if o == ROOT {
        return values_ok(t, o, ROOT_TYPE, ROOT_INITIAL, ROOT_FORCED);
    }
    values_ok(
        t,
        o,
        kept_at(t, KEPT_TYPE, parent),
        kept_at(t, KEPT_INITIAL, parent),
        kept_at(t, KEPT_FORCED, parent),
    )
}
