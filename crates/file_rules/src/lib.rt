//! What the `file` statements of a configuration select: definitions and laws alone.
#![tactic(auto)]
