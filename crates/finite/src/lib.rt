// Tests over finitely many numbers. The crate is specs only: connectives, quantifiers, the least number, counts, closure, walks and
// cycles, lists from functions.
#![tactic(auto)]
