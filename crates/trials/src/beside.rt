// What is kept beside the files (W-206): entries of the root, a file and a free place, a refresh of a directory whose file lies at a lower place, a
// file with a type of its own, which does not follow until it inherits, and a kept word that is not the climb's.
use crate::calls::{add_right, create, set_file_type};
use crate::tries::{begin, granted, tried};
use model::Call;
use model::layout::{KEPT_FORCED, KEPT_INITIAL, KEPT_TYPE};
use model::numbers::{CREATE, DELETE, DIR, FILE, FILESYSTEM, INHERIT_PARENT, ROOT};
use std::io;
use tables::addresses::kept_addr;
use tables::records::kept_at;
use tables::words::set_word;

// Directory 2 in the root, and in it file 1, where another file was deleted, and file 3, with type 7.
fn planted(rt: &impl Print, t: &mut [u32]) -> io::Result<()> {
    let calls = [
        add_right(FILESYSTEM, 0, 0, CREATE),
        add_right(FILESYSTEM, 0, 0, DELETE),
        create(FILE, ROOT),
        create(DIR, ROOT),
        Call::Delete { file: 1 },
        create(FILE, 2),
        create(FILE, 2),
        set_file_type(3, 7),
    ];
    begin(rt, t, &calls)
}

// The three values kept beside files.
fn entries(rt: &impl Print, t: &[u32]) -> io::Result<()> {
    for (text, o) in [
        ("the root", ROOT),
        ("file 3, of type 7", 3),
        ("place 4, which is free", 4),
    ] {
        let kept = |k| kept_at(t, k, o);
        println!(rt;
            "kept for {text}: {} {} {}",
            kept(KEPT_TYPE),
            kept(KEPT_INITIAL),
            kept(KEPT_FORCED)
        )?;
    }
    Ok(())
}

// The types kept of the directory and its files, as they are, and after each of two changes.
fn refreshed(rt: &impl Print, t: &mut [u32]) -> io::Result<()> {
    for (text, change) in [
        ("type kept of directory 2", None),
        ("directory 2 gets type 5", Some(set_file_type(2, 5))),
        ("file 3 inherits", Some(set_file_type(3, INHERIT_PARENT))),
    ] {
        if let Some(call) = change {
            granted(rt, t, 0, call)?;
        }
        let kept = |o| kept_at(t, KEPT_TYPE, o);
        println!(rt;
            "{text}: {}, of its files {} and {}",
            kept(2),
            kept(1),
            kept(3)
        )?;
    }
    Ok(())
}

// A kept word that is not the climb's.
fn damaged(rt: &impl Print, t: &mut [u32]) -> io::Result<()> {
    set_word(t, kept_addr(1), 6);
    let trial = (
        "number 1, a kept type that is not the climb's",
        0,
        Call::Exit,
    );
    tried(rt, t, &[trial])
}

// Values kept beside files, refreshed, and damaged.
pub(crate) fn run(rt: &impl Print, t: &mut [u32]) -> io::Result<()> {
    planted(rt, t)?;
    entries(rt, t)?;
    refreshed(rt, t)?;
    damaged(rt, t)
}
