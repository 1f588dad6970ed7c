// Runs of the definitions: tables with the answers that they must give. Specs only; no crate stands on it.
#![tactic(auto)]
