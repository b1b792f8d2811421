// The tables in one lent row of words: its words, its addresses, its records by value, its places; and a claim beside it.
#![tactic(auto)]

pub mod addresses;
pub mod claim;
pub mod places;
pub mod records;
pub mod words;
