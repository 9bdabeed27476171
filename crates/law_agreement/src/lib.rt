// The theorems over calls and over lines. This crate has no functions: its definitions are in specs/, its theorems in proofs/.
#![tactic(auto)]
