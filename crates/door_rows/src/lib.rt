// What stands in a table's bytes, and the tests on rows that the rules are made of.
#![tactic(auto)]

pub mod bytes; // numbers, rows and sources out of the bytes
pub mod kinds; // what a row is: its kind, order, flags, classes and bytes
pub mod pick; // choosing by a test
pub mod scopes; // agents' places, scopes, mutually-ordered rows
