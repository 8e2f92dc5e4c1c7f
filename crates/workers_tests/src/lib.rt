//! Tests of what no contract says about workers: that they run at the same time, that those who wait are woken, and
//! that they end.
#![tactic(auto)]

#[cfg(test)]
mod looks;
#[cfg(test)]
mod runs;
#[cfg(test)]
mod stale;
#[cfg(test)]
mod stops;
#[cfg(test)]
mod turns;
