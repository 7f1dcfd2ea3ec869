// Total definitions over the list of cells, in the shape that the code has. This crate has no code.
#![tactic(auto)]
