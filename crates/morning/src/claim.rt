// The planner's claim, word by word: that its family, itself and every process that it starts, never writes, makes or deletes a list in
// kilopascals.
use crate::names::{
    BOX, KILOPASCALS, KILOPASCALS_LIST, LISTS, METRES, METRES_LIST, PLANNER, PLANNER_PROCESS,
    PLANNING_PROGRAMS, PLANNING_SCRIPT, PLANS, PROGRAMS, ROOT, SCHEDULER_PROGRAM, SCRIPTS,
    SERVICE_PROGRAMS,
};
use model::layout::{CLAIM_LENGTH, CLAIM_PROCESS, CLAIM_Q, CLAIM_S, CLAIM_T, CLAIM_TYPE};
use sets::RoleSet;
use tables::words::set_word;

// The one type that each file has, whatever is done.
const FILE_TYPES: [(u32, u32); 8] = [
    (ROOT, BOX),
    (PROGRAMS, SERVICE_PROGRAMS),
    (PLANS, PLANNING_PROGRAMS),
    (PLANNING_SCRIPT, PLANNING_PROGRAMS),
    (SCHEDULER_PROGRAM, SERVICE_PROGRAMS),
    (LISTS, BOX),
    (METRES_LIST, METRES),
    (KILOPASCALS_LIST, KILOPASCALS),
];

// The word of a set of one.
fn only(member: u32) -> u32 {
    RoleSet { bits: 0 }.add(member).bits
}

// The process, what is protected, and the roles and process types that the family stays in; then the files' types.
pub(crate) fn planners_claim() -> [u32; CLAIM_LENGTH] {
    let mut w = [0u32; CLAIM_LENGTH];
    set_word(&mut w, CLAIM_PROCESS, PLANNER_PROCESS);
    set_word(&mut w, CLAIM_TYPE, KILOPASCALS);
    set_word(&mut w, CLAIM_S, only(PLANNER));
    set_word(&mut w, CLAIM_Q, only(SCRIPTS));
    for (file, rctype) in FILE_TYPES {
        set_word(&mut w, CLAIM_T + (file as usize), only(rctype));
    }
    w
}
