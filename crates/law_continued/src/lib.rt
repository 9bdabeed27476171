// Histories of lines, calls, and the table's latest form loaded into another space. This crate has no functions: its definitions are in specs/, its theorems in proofs/.
#![tactic(auto)]
