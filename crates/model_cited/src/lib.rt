// Pages to cite: what is promised of a table in two pieces, of the writer and of the stepping reader. Specs and proofs only.
#![tactic(auto)]
