// The definitions that every contract of this package cites stand in specs/, and the laws about them in proofs/. This crate has no code.
#![tactic(auto)]
