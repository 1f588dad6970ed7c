// Inter-thread order for a class set as sets of rows, by way of the few rows that are its nodes: specs and proofs only.
#![tactic(auto)]
