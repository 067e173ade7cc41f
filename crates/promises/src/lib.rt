#![tactic(auto)]
// What Ballastwren promises, in one place. This crate has theorems; no code.
