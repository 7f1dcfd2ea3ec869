// The written meaning: definitions in specs/, laws and theorems in proofs/. This crate has no code.
#![tactic(auto)]
