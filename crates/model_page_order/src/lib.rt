// The order of the page does not matter: of a table and the same with its rows moved, the same is said. Specs and proofs only.
#![tactic(auto)]
