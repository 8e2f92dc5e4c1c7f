//! What each step of a run keeps, and that a boot ends: definitions and laws alone; nothing here runs.
#![tactic(auto)]
