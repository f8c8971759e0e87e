//! How long operations took.
ghost use Rattle.std.specs.Prelude.{◌≡◌, ◌++◌, [], OnOk, IfOk, filter_map};
ghost use Rattle.std.specs.List.{cons_option, flat_map};
ghost use Rattle.onfi_run.specs.Latency as spec;

use crate::answers::{Answers, Got};
use crate::completion::Completion;
use onfi_gap::mean;
use onfi_timing::Operation;
use std::alloc::{AllocError, Global};

/// How long reads, programs or erases took, from arrival to reply, in ns of the run's clock; from submission, where no row says
/// when they arrived.
#[derive(Clone, Copy)]
pub struct Latency {
    /// How many they are, at least 1.
    pub count: u64,
    /// Rounded down.
    pub mean: u64,
    /// The least of them that at least 99 of 100 don't pass.
    pub most_of_99: u64,
}

impl Completion {
    /// How long the operation took, where it is that one and has its reply.
    fn latency(&self, operation: Operation) -> Option<u64>
        ensures { result ≡ spec.latency_of operation self.now }
    {
        if operation.is(self.kind.operation()) && self.answer.is_some() {
            Some(self.at.saturating_sub(self.arrives.unwrap_or(self.sent)))
        } else {
            None
        }
    }
}

/// Appends a latency to others, where there is one.
fn put(latencies: &mut Vec<u64>, latency: Option<u64>) -> Result<(), AllocError>
    ensures { OnOk result (latencies.new.items ≡ latencies.old.items ++ cons_option latency []) }
{
    if let Some(latency) = latency {
        latencies.push(latency)?;
    }
    Ok(())
}

/// Appends to others how long the operations of a host on a channel took.
fn add(latencies: &mut Vec<u64>, operation: Operation, all: &[Completion]) -> Result<(), AllocError>
    ensures { OnOk result (latencies.new.items ≡ latencies.old.items ++ filter_map (spec.latency_of operation) all.now) }
{
    for completion in all {
        put(latencies, completion.latency(operation))?;
    }
    Ok(())
}

/// .. of a host on all channels.
fn add_got(
    latencies: &mut Vec<u64>,
    operation: Operation,
    got: &[Answers],
) -> Result<(), AllocError>
    ensures { OnOk result (latencies.new.items ≡ latencies.old.items ++ flat_map (filter_map (spec.latency_of operation)) got.now) }
{
    for answers in got {
        add(latencies, operation, answers.as_slice())?;
    }
    Ok(())
}

/// .. of all hosts.
fn latencies(alloc: Global, operation: Operation, all: &[Got]) -> Result<Vec<u64>, AllocError>
    ensures { IfOk result (λ v. v.items ≡ spec.latencies operation all.now) }
{
    let mut latencies = Vec::new(alloc);
    for got in all {
        add_got(&mut latencies, operation, got.as_slice())?;
    }
    Ok(latencies)
}

/// What is reported of latencies; nothing of none.
fn summarize_latencies(latencies: Vec<u64>) -> Option<Latency>
    ensures { spec.IsLatencyOf latencies.items result }
{
    let mut latencies = latencies;
    let count = latencies.len();
    if count == 0 {
        return None;
    }
    let mean = mean(latencies.as_slice());
    latencies.sort_unstable();
    Some(Latency {
        count: count as u64,
        mean,
        most_of_99: latencies[count - count / 100 - 1],
    })
}

/// How long reads, programs or erases took which have their replies; nothing where there are none.
///
/// # Errors
/// Where memory was refused.
pub(crate) fn latency_of(
    alloc: Global,
    operation: Operation,
    all: &[Got],
) -> Result<Option<Latency>, AllocError>
    ensures { IfOk result (λ latency. spec.IsLatencyOf (spec.latencies operation all.now) latency) }
{
    Ok(summarize_latencies(latencies(alloc, operation, all)?))
}
