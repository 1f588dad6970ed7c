// The rules' tests on one row or two, from the rows alone: what the engines, the finder and the reader of derivations share.
#![tactic(auto)]

pub mod carriers; // M5: rows that carry a release to an acquire
pub mod cases; // M6: the direct cases of inter-thread order
pub mod control; // M5: control barriers
pub mod moments; // M1: the moments of a row, and program order
pub mod pairs; // L1 to L5: tests on two rows and a byte
pub mod sequences; // M3 and M4: mutually-ordered rows, release sequences
pub mod shared; // the bytes that two accesses share
