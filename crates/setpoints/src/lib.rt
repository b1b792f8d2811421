// Setpoint lists with a unit (W-202): what process may enter an amount into which list, and the entry it makes. This library stands above the
// monitor and knows of it only what it promises: the WRITE decision, and what the queries answer of the list.
#![tactic(auto)]

ghost use Rattle.std.specs.Prelude.{◌≡◌, ◌&&◌, eqb};
ghost use Rattle.model.specs.Numbers.{◌unless◌, ◌▹◌, FILE};
ghost use Rattle.model.specs.Outcome.{outcome};
ghost use Rattle.model.specs.Queries.{look_kind, look_type};
ghost use Rattle.model.specs.Refusals.{code, answer_of};
ghost use Rattle.setpoints.specs.Setpoints.{type_for, in_range, entry as entry_of, write_no, enter_no, enter as enter_of};

use crate::head::pascals;
use model::Refusal;
use model::numbers::{FILE, TYPES, WRITE};
use monitor::reading::step_access_file;
use queries::{look_kind, look_type};
use rules::refusal::{lower_refusal, refused_unless};

mod head;

// The units, each with its own file type: metres of head come in millimetres, kilopascals in pascals. Numbers, since C passes any, and `enter`
// answers for each.
pub const METRES: u32 = 0;

pub const KILOPASCALS: u32 = 1;

const UNITS: u32 = 2;

// The largest amount, in millimetres or in pascals.
pub const LIMIT: u32 = 2000000;

// What a process asks to have entered: an amount in a unit, into a list; and the file types set aside for lists in metres and in kilopascals.
#[derive(Clone, Copy, Debug, PartialEq, Eq)]
pub struct Setpoint {
    pub process: u32,
    pub list: u32,
    pub unit: u32,
    pub amount: u32,
    pub metres: u32,
    pub kilopascals: u32,
}

impl Setpoint {
    // Every number that the monitor does not look at is in its range, and there is a place for the entry.
    #[tactic(auto, unfolding(crate::specs::Setpoints::in_range))]
    fn in_range(self, places: usize) -> bool
        ensures { result ≡ in_range self places }
    {
        self.unit < UNITS
            && self.amount <= LIMIT
            && self.metres < TYPES
            && self.kilopascals < TYPES
            && 0 < places
    }

    // The type that is set aside for lists in its unit.
    fn list_type(self) -> u32
        ensures { result ≡ type_for self }
    {
        match self.unit {
            METRES => self.metres,
            _ => self.kilopascals,
        }
    }

    // The entry that a grant makes, in pascals.
    #[tactic(auto, unfolding(crate::specs::Setpoints::entry))]
    fn entry(self) -> u64
        ensures { result ≡ entry_of self }
    {
        match self.unit {
            METRES => pascals(self.amount),
            _ => u64::from(self.amount),
        }
    }
}

// This library's own tests: the numbers are in their ranges, and the list is a FILE of its unit's type. The list is only looked at, since the
// monitor's decision tests the tables.
fn check_own(t: &[u32], s: Setpoint, places: usize) -> Result<(), Refusal>
    ensures { code result ≡ 2 unless in_range s places ▹ 4 unless (eqb (look_kind t.now s.list) FILE && eqb (look_type t.now s.list) (type_for s)) }
{
    refused_unless(Refusal::OutOfRange, s.in_range(places))?;
    let of_unit = look_kind(t, s.list) == FILE && look_type(t, s.list) == s.list_type();
    refused_unless(Refusal::NoSuchPlace, of_unit)
}

// The monitor's decision on WRITE to the list.
#[tactic(auto, unfolding(crate::specs::Setpoints::write_no))]
fn check_write(t: &[u32], s: Setpoint) -> Result<(), Refusal>
    ensures { code result ≡ write_no t.now s }
{
    step_access_file(t, s.process, s.list, WRITE)?;
    Ok(())
}

// The lower refusal, of this library's tests and of the monitor's decision. The monitor is asked first: the other way round a setpoint costs 12
// instructions more.
#[tactic(auto, using(crate::proofs::Number::number_looked))]
fn check_entry(t: &[u32], s: Setpoint, places: usize) -> Result<(), Refusal>
    ensures { code result ≡ enter_no t.now s places }
{
    let write = check_write(t, s);
    lower_refusal(check_own(t, s, places), write)
}

// Enters a setpoint: a grant writes the first entry and nothing else, a refusal nothing.
#[tactic(auto, using(model::proofs::Ends::ends, crate::proofs::Number::grants), unfolding(crate::specs::Setpoints::enter))]
pub fn enter(t: &[u32], s: Setpoint, entries: &mut [u32]) -> Result<u32, Refusal>
    ensures { outcome (answer_of result) entries.new ≡ enter_of t.now s entries.old }
{
    check_entry(t, s, entries.len())?;
    entries[0] = s.entry() as u32;
    Ok(0)
}
