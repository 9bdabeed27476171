// Saving and loading one after the other. This crate has no functions: its definitions are in specs/, its theorems in proofs/.
#![tactic(auto)]
