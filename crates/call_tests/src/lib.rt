//! Tests of calls that no program makes, and of answers that no output shows; and no code.
#![tactic(auto)]

#[cfg(test)]
mod compiled;
#[cfg(test)]
mod parts;
#[cfg(test)]
mod replayed;
#[cfg(test)]
mod waits;
