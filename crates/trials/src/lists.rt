// Setpoint lists with a unit (W-202): what enters them, rounded to whole pascals, and each number once. Process 0 may write lists of types 3 (metres)
// and 4 (kilopascals), and not of type 5.
use crate::calls::{add_right, create, set_file_type};
use crate::tell::number;
use crate::tries::begin;
use model::numbers::{CREATE, FILE, FILESYSTEM, PROCESSES, ROOT, WRITE};
use queries::query_kind;
use setpoints::{KILOPASCALS, LIMIT, METRES, Setpoint, enter};
use std::io;

const METRES_TYPE: u32 = 3;

const KILOPASCALS_TYPE: u32 = 4;

const UNWRITTEN_TYPE: u32 = 5;

// The lists, in the order in which they are made, and a place that stays free.
const METRES_LIST: u32 = 1;

const KILOPASCALS_LIST: u32 = 2;

const UNWRITTEN_LIST: u32 = 3;

const FREE_PLACE: u32 = 4;

// Three lists with their types, and WRITE to two of these.
fn lists(rt: &impl Print, t: &mut [u32]) -> io::Result<()> {
    let calls = [
        add_right(FILESYSTEM, 0, 0, CREATE),
        create(FILE, ROOT),
        create(FILE, ROOT),
        create(FILE, ROOT),
        set_file_type(METRES_LIST, METRES_TYPE),
        set_file_type(KILOPASCALS_LIST, KILOPASCALS_TYPE),
        set_file_type(UNWRITTEN_LIST, UNWRITTEN_TYPE),
        add_right(FILESYSTEM, 0, METRES_TYPE, WRITE),
        add_right(FILESYSTEM, 0, KILOPASCALS_TYPE, WRITE),
    ];
    begin(rt, t, &calls)
}

// An amount in a unit, for a list, by process 0.
fn setpoint(unit: u32, list: u32, amount: u32) -> Setpoint {
    Setpoint {
        process: 0,
        list,
        unit,
        amount,
        metres: METRES_TYPE,
        kilopascals: KILOPASCALS_TYPE,
    }
}

// 45000 with one type for both units: a list of it takes both.
fn of_one_type(unit: u32, list: u32, rctype: u32) -> Setpoint {
    Setpoint {
        metres: rctype,
        kilopascals: rctype,
        ..setpoint(unit, list, 45000)
    }
}

// Metres for the list in kilopascals.
fn by_process(process: u32) -> Setpoint {
    Setpoint {
        process,
        ..setpoint(METRES, KILOPASCALS_LIST, 1000)
    }
}

// Amounts entered where two entries stand, each told with both.
fn entered(rt: &impl Print, t: &[u32], trials: &[(&str, Setpoint)]) -> io::Result<()> {
    for &(text, s) in trials {
        let mut entries = [7u32; 2];
        let number = number(enter(t, s, &mut entries));
        println!(rt; "{text}: {number}, entries {} {}", entries[0], entries[1])?;
    }
    Ok(())
}

// Amounts that enter a list.
fn rounded(rt: &impl Print, t: &[u32]) -> io::Result<()> {
    let trials = [
        ("0 mm of head", setpoint(METRES, METRES_LIST, 0)),
        ("1000 mm", setpoint(METRES, METRES_LIST, 1000)),
        (
            "10000 mm, a half that goes up",
            setpoint(METRES, METRES_LIST, 10000),
        ),
        ("45000 mm", setpoint(METRES, METRES_LIST, 45000)),
        (
            "2000000 mm, the limit",
            setpoint(METRES, METRES_LIST, LIMIT),
        ),
        (
            "45000 Pa into the list in kilopascals",
            setpoint(KILOPASCALS, KILOPASCALS_LIST, 45000),
        ),
        (
            "one type for both, 45000 mm",
            of_one_type(METRES, METRES_LIST, METRES_TYPE),
        ),
        (
            "one type for both, 45000 Pa",
            of_one_type(KILOPASCALS, METRES_LIST, METRES_TYPE),
        ),
    ];
    entered(rt, t, &trials)
}

// Tables that are none, no place for an entry, an amount above the limit, a unit that is none, and types of which only the one in use is in range.
fn out_of_range(rt: &impl Print, t: &[u32]) -> io::Result<()> {
    let metre = setpoint(METRES, METRES_LIST, 1000);
    let no_tables = [0u32; 10];
    entered(
        rt,
        &no_tables,
        &[("number 1, tables in a row of 10 words", metre)],
    )?;
    let trials = [
        (
            "number 2, above the limit",
            setpoint(METRES, METRES_LIST, LIMIT + 1),
        ),
        (
            "number 2, a unit that is none",
            Setpoint {
                unit: 2,
                amount: 0,
                kilopascals: METRES_TYPE,
                ..metre
            },
        ),
        (
            "number 2, metres where lists in kilopascals would have type 32",
            Setpoint {
                amount: 0,
                kilopascals: 32,
                ..metre
            },
        ),
    ];
    entered(rt, t, &trials)?;
    println!(rt;
        "number 2, no place for an entry: {}",
        number(enter(t, metre, &mut []))
    )
}

// A process or a list that is none, or not allowed.
fn refused(rt: &impl Print, t: &[u32]) -> io::Result<()> {
    let trials = [
        (
            "number 2, process 64 and a list in another unit",
            by_process(PROCESSES),
        ),
        (
            "number 3, process 5, which is not live, and that list",
            by_process(5),
        ),
        ("number 4, that list", by_process(0)),
        ("number 4, a directory", setpoint(METRES, ROOT, 1000)),
        ("number 4, a free place", setpoint(METRES, FREE_PLACE, 1000)),
        (
            "number 5, a list that is not to be written",
            of_one_type(METRES, UNWRITTEN_LIST, UNWRITTEN_TYPE),
        ),
    ];
    entered(rt, t, &trials)
}

// The kinds of places, or the number of a refusal.
fn kinds(rt: &impl Print, t: &[u32]) -> io::Result<()> {
    for (text, o) in [
        ("a list", METRES_LIST),
        ("the root", ROOT),
        ("a free place", FREE_PLACE),
    ] {
        match query_kind(t, o) {
            Ok(up) => println!(rt; "kind of {text}: {}", up.value)?,
            Err(refusal) => println!(rt; "kind of {text}, refused: {}", refusal.number())?,
        }
    }
    Ok(())
}

// Amounts that enter lists, and each number once.
pub(crate) fn run(rt: &impl Print, t: &mut [u32]) -> io::Result<()> {
    lists(rt, t)?;
    rounded(rt, t)?;
    out_of_range(rt, t)?;
    refused(rt, t)?;
    kinds(rt, t)
}
