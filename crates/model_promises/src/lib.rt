// What the answers are promised to mean: specs only. All of it stands on one page, specs/Main.antt; the pages beside it have the proofs.
#![tactic(auto)]
