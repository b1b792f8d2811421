// The fresh tables that any monitor begins with.
#![tactic(auto)]

ghost use Rattle.std.specs.Prelude.{◌≡◌};
ghost use Rattle.model.specs.Outcome.{outcome};
ghost use Rattle.model.specs.Refusals.{answer_of};
ghost use Rattle.model.specs.Fresh.{first_process, root_dir, build_fresh};
ghost use Rattle.fresh.specs.Stores.{put_fresh_role, put_first};

use model::layout::{DEFAULTS, MARK, ROW_LENGTH};
use model::numbers::{
    FIRST_PROCESS, INHERIT_PARENT, ROLES, ROOT, ROOT_FORCED, ROOT_INITIAL, ROOT_TYPE,
};
use model::{File, Forced, Initial, Kind, Process, Refusal};
use rules::refusal::refused_unless;
use tables::addresses::{kept_addr, role_addr};
use tables::records::{put_file, put_process};
use tables::words::{put_words, set_word};

// Process 0 of fresh tables (rule 1).
fn first_process() -> Process
    ensures { result ≡ first_process }
{
    Process {
        live: true,
        owner: 0,
        role: 0,
        rctype: 0,
        forced: Forced::UpMixed,
    }
}

// The root of fresh tables: its type, initial and forced role inherit.
fn root_dir() -> File
    ensures { result ≡ root_dir }
{
    File {
        kind: Kind::Dir,
        parent: ROOT,
        depth: 0,
        rctype: INHERIT_PARENT,
        initial: Initial::InheritParent,
        forced: Forced::InheritParent,
    }
}

// A role over zeros: the mark, which role 0 has, and the four default types that inherit; the IPC type stays 0.
fn put_fresh_role(t: &mut [u32], role: u32)
    ensures { t.new ≡ put_fresh_role t.old role }
{
    set_word(t, role_addr(role) + MARK, u32::from(role == 0));
    put_words(t, role_addr(role) + DEFAULTS, &[INHERIT_PARENT; 4]);
}

// Process 0 and the root, which fresh tables have, and what the root's values read as.
#[tactic(auto, unfolding(crate::specs::Stores::put_first))]
fn put_first(t: &mut [u32])
    ensures { t.new ≡ put_first t.old }
{
    put_process(t, FIRST_PROCESS, first_process());
    put_file(t, ROOT, root_dir());
    put_words(t, kept_addr(ROOT), &[ROOT_TYPE, ROOT_INITIAL, ROOT_FORCED]);
}

// Fresh tables over whatever a row of full length held; a row of any other length is refused.
#[tactic(auto, using(model::proofs::Ends::ends, crate::proofs::Built::builds), unfolding(model::specs::Fresh::build_fresh))]
pub fn build_fresh(t: &mut [u32]) -> Result<u32, Refusal>
    ensures { outcome (answer_of result) t.new ≡ build_fresh t.old }
{
    refused_unless(Refusal::IllFormed, t.len() == ROW_LENGTH)?;
    t.fill(0);
    for r in 0..ROLES {
        put_fresh_role(t, r);
    }
    put_first(t);
    Ok(0)
}
