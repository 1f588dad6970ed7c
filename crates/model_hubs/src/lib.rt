// Inter-thread order for a class set by way of few rows: specs only. The closure over moments is one over rows that hold the set.
#![tactic(auto)]
