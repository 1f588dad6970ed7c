// Mutually-ordered rows, release sequences and synchronizes-with, as bits in a lent work area.
#![tactic(auto)]

pub mod carriers; // M5: rows that carry a release to an acquire
pub mod heads; // M3 and M4: mutually-ordered rows, release sequences
pub mod sync; // M5: synchronizes-with, and all three stages in order
