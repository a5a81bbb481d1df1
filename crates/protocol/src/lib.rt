// The engine accepts exactly what the protocol's own step rules allow. This crate has definitions and theorems, and no code.

#![tactic(auto)]
