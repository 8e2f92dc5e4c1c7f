//! Laws of accepted configurations: lemmas alone.
#![tactic(auto)]
