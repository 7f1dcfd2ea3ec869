// The refinement: what the definitions of `cells` compute is what the written meaning says. This crate has no code.
#![tactic(auto)]
