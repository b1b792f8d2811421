// Where effective values come from (W-201): the three values of one file from three places, the root's own, and a refused query.
use crate::calls::{add_right, create, set_file_type, set_program_roles};
use crate::tell::Looked;
use crate::tries::begin;
use model::numbers::{CREATE, DIR, FILE, FILESYSTEM, INHERIT_PARENT, ROOT};
use queries::{query_forced, query_initial, query_type};
use std::io;

// Directory 1, in the root, forces role 9; directory 2, in directory 1, has initial role 7; file 3, in directory 2, has type 5.
fn three_places(rt: &impl Print, t: &mut [u32]) -> io::Result<()> {
    let calls = [
        add_right(FILESYSTEM, 0, 0, CREATE),
        create(DIR, ROOT),
        set_program_roles(1, INHERIT_PARENT, 9),
        create(DIR, 1),
        set_program_roles(2, 7, INHERIT_PARENT),
        create(FILE, 2),
        set_file_type(3, 5),
    ];
    begin(rt, t, &calls)
}

// Place 0 is the root's, also where it has the default; a refusal answers it too.
pub(crate) fn run(rt: &impl Print, t: &mut [u32]) -> io::Result<()> {
    three_places(rt, t)?;
    for (text, ended) in [
        ("type of file 3, its own", query_type(t, 3)),
        ("its initial value, of directory 2", query_initial(t, 3)),
        ("its forced value, of directory 1", query_forced(t, 3)),
        ("type of directory 2, of the root", query_type(t, 2)),
        ("type of the root", query_type(t, ROOT)),
        ("type of place 4, which is free", query_type(t, 4)),
    ] {
        println!(rt; "{text}: {}", Looked(ended))?;
    }
    Ok(())
}
