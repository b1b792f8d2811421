// The marked examples of the scope document are in proofs/: this crate has no code.
#![tactic(auto)]
