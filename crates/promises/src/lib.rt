// What the monitor promises: the statements are in specs/Promises.antt, their proofs in proofs/. This crate has no code.
#![tactic(auto)]
