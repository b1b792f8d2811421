// That an accepted claim confines is proved in proofs/: this crate has no code.
#![tactic(auto)]
