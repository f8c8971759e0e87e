//! Tests of the crates from groups to the planners, by public calls alone.
//!
//! What a script or a log can show is a case of the built program and not a test here, and what a call from C shows is one of `tests/libraries`.
#![tactic(auto)]

#[cfg(test)]
mod bound;
#[cfg(test)]
mod dispatching;
#[cfg(test)]
mod gap;
#[cfg(test)]
mod group;
#[cfg(test)]
mod planners;
#[cfg(test)]
mod plans;
#[cfg(test)]
mod problem;
#[cfg(test)]
mod rule_sample;
#[cfg(test)]
mod ruled;
#[cfg(test)]
mod sample;
#[cfg(test)]
mod sectors;
#[cfg(test)]
mod split;
#[cfg(test)]
mod texts;
