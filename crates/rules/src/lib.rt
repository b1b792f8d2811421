// The rules on values alone: how tests refuse, what becomes of a record (rules 2 to 22), the ranges of values. No memory is lent here.
#![tactic(auto)]

pub mod ranges;
pub mod refusal;
pub mod transitions;
