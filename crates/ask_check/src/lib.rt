// The verdict on a table.
#![tactic(auto)]

pub mod show; // the cycle that a check shows
pub mod by_flags; // the flags engine
pub mod by_sets; // the engine by sets of rows
pub mod engine; // a type for each engine, and their contract
pub mod check; // any bytes, and buffers of any length
