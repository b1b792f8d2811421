// The library for C: a row of tables is lent to each function as a pointer and a number of words. include/monitor.h is its face.
#![tactic(auto)]

ghost use Rattle.std.specs.Prelude.{◌≡◌, [], ◌∷◌};
ghost use Rattle.model.specs.Outcome.{outcome};
ghost use Rattle.model.specs.WellFormed.{well_formed};
ghost use Rattle.model.specs.Fresh.{build_fresh};
ghost use Rattle.model.specs.Queries.{query_type, query_initial, query_forced, query_kind};
ghost use Rattle.model.specs.Claims.{check as check_of};
ghost use Rattle.kinds.specs.ByKind.{step_by_kind};
ghost use Rattle.setpoints.specs.Setpoints.{enter as enter_of};
ghost use Rattle.batch.specs.Batch.{batched, batch as batch_of};

use batch::batch;
use claims::check;
use formed::well_formed;
use fresh::build_fresh;
use kinds::step_by_kind;
use model::{Answer, Found, Verdict};
use queries::{query_forced, query_initial, query_kind, query_type};
use setpoints::{Setpoint, enter};

// One call of a process, by its kind and its numbers; a fifth number is none that a call of today takes.
#[unsafe(no_mangle)]
pub extern "C" fn rc_call(
    tables: &mut [u32],
    kind: u32,
    caller: u32,
    a: u32,
    b: u32,
    c: u32,
    d: u32,
) -> Answer
    ensures { outcome result tables.new ≡ step_by_kind tables.old kind caller (a ∷ b ∷ c ∷ d ∷ 0 ∷ []) }
{
    step_by_kind(tables, kind, caller, [a, b, c, d, 0])
}

// Fresh tables over whatever the row held.
#[unsafe(no_mangle)]
pub extern "C" fn rc_fresh(tables: &mut [u32]) -> Answer
    ensures { outcome result tables.new ≡ build_fresh tables.old }
{
    Answer::from(build_fresh(tables))
}

// Whether the tables are well formed.
#[unsafe(no_mangle)]
pub extern "C" fn rc_well_formed(tables: &[u32]) -> bool
    ensures { result ≡ well_formed tables.now }
{
    well_formed(tables)
}

// The effective type of a file or directory (rule 5).
#[unsafe(no_mangle)]
pub extern "C" fn rc_effective_type(tables: &[u32], file: u32) -> Found
    ensures { result ≡ query_type tables.now file }
{
    Found::from(query_type(tables, file))
}

// Its effective initial value (rule 17).
#[unsafe(no_mangle)]
pub extern "C" fn rc_effective_initial(tables: &[u32], file: u32) -> Found
    ensures { result ≡ query_initial tables.now file }
{
    Found::from(query_initial(tables, file))
}

// Its effective forced value (rule 19).
#[unsafe(no_mangle)]
pub extern "C" fn rc_effective_forced(tables: &[u32], file: u32) -> Found
    ensures { result ≡ query_forced tables.now file }
{
    Found::from(query_forced(tables, file))
}

// Whether it is a FILE or a DIR.
#[unsafe(no_mangle)]
pub extern "C" fn rc_file_kind(tables: &[u32], file: u32) -> Found
    ensures { result ≡ query_kind tables.now file }
{
    Found::from(query_kind(tables, file))
}

// The verdict on a claim, by rules C1 to C9.
#[unsafe(no_mangle)]
pub extern "C" fn rc_check_claim(tables: &[u32], claim: &[u32]) -> Verdict
    ensures { result ≡ check_of tables.now claim.now }
{
    Verdict::from(check(tables, claim))
}

// An amount entered into a setpoint list (W-202); only the entries change.
#[unsafe(no_mangle)]
pub extern "C" fn rc_setpoint(
    tables: &[u32],
    process: u32,
    list: u32,
    unit: u32,
    amount: u32,
    metres: u32,
    kilopascals: u32,
    entries: &mut [u32],
) -> Answer
    ensures { outcome result entries.new ≡ enter_of tables.now (record { process = process; list = list; unit = unit; amount = amount; metres = metres; kilopascals = kilopascals }) entries.old }
{
    let s = Setpoint {
        process,
        list,
        unit,
        amount,
        metres,
        kilopascals,
    };
    Answer::from(enter(tables, s, entries))
}

// A night's calls at once (W-205): items of sixteen bytes, and two bytes of answer for each.
#[unsafe(no_mangle)]
pub extern "C" fn rc_batch(tables: &mut [u32], calls: &[u8], answers: &mut [u8]) -> Answer
    ensures { batched result tables.new answers.new ≡ batch_of tables.old calls.now answers.old }
{
    Answer::from(batch(tables, calls, answers))
}
