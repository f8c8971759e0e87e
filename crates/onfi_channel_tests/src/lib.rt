//! Tests of parameter pages, requests and chips on the sample device, and of what channels and sequencers do, by public calls alone: of
//! what no program of the gate calls.
//!
//! What a page, a sheet or a run of the built program shows is a case, and what a chip or a core does an event of `tests/calls`.
#![tactic(auto)]

#[cfg(test)]
mod addr;
#[cfg(test)]
mod batch;
#[cfg(test)]
mod held;
#[cfg(test)]
mod opened;
#[cfg(test)]
mod page;
#[cfg(test)]
mod param;
#[cfg(test)]
mod plain;
#[cfg(test)]
mod sectors;
#[cfg(test)]
mod texts;
#[cfg(test)]
mod three_calls;
#[cfg(test)]
mod timing;
