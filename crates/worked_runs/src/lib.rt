//! Runs that the definitions compute, each held to the laws: proofs alone; nothing here runs.
#![tactic(auto)]
