// The sources of rows: the table's own, and those that a fill chooses for its blanks.
#![tactic(auto)]

pub mod sources; // the sources of a table's rows, as a list, and whether a check admits them
pub mod writers; // the writers that come before a row, and between a source and its reader
pub mod blanks; // the source that each blank must have
