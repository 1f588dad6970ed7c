// Location order, edges, axiom B and races by sets of rows: specs and proofs only. What leads from a first element of a write to the rows that meet it hangs on that element alone.
#![tactic(auto)]
