//! What is printed of plans and replies.

use crate::ended::Ended;
use onfi_core::{LastPlan, Outcome};
use onfi_problem::Problem;
use onfi_request::{Answer, Reply, Request};
use onfi_schedule::Placed;

/// The byte that all are, where they are one.
fn only_byte(bytes: &[u8]) -> Option<u8> {
    let first = bytes.first()?;
    for byte in bytes {
        if byte != first {
            return None;
        }
    }
    Some(*first)
}

pub(crate) fn say_reply(rt: &impl Print, reply: &Reply) -> Result<(), Ended> {
    let (place, serial) = (reply.place, reply.serial);
    match &reply.answer {
        Answer::Read(bytes) => {
            let bytes = bytes.as_slice();
            println!(rt;
                "reply {place} {serial} {} bytes of {:?}",
                bytes.len(),
                only_byte(bytes)
            )?;
        }
        Answer::Done => println!(rt; "reply {place} {serial} done")?,
        Answer::Failed => println!(rt; "reply {place} {serial} failed")?,
    }
    Ok(())
}

fn say_return(rt: &impl Print, why: &str, request: &Request) -> Result<(), Ended> {
    println!(rt; "{why}, and back comes a request of {:?}", request.kind)?;
    Ok(())
}

/// What came of an event that came to something, by the name of what it gives.
fn say_step(rt: &impl Print, outcome: &Outcome) -> Result<(), Ended> {
    match outcome {
        Outcome::Submitted(serial) => println!(rt; "Submitted {{ serial: {serial} }}")?,
        Outcome::Accepted(place) => println!(rt; "Accepted {{ place: {place} }}")?,
        Outcome::Planned(finish) => println!(rt; "Planned {{ finish: {finish} }}")?,
        Outcome::Phase(start) => println!(rt; "Phase {{ start: {start} }}")?,
        Outcome::Posted(place) => println!(rt; "Posted {{ place: {place} }}")?,
        outcome => println!(rt; "{outcome:?}")?,
    }
    Ok(())
}

pub(crate) fn say_outcome(rt: &impl Print, outcome: &Outcome) -> Result<(), Ended> {
    match outcome {
        Outcome::Collected(reply) => say_reply(rt, reply),
        Outcome::SubmitFull(request) => say_return(rt, "full", request),
        Outcome::NoSuch(Some(request)) => say_return(rt, "no such host", request),
        Outcome::Refused(fault, request) => {
            println!(rt; "{fault:?}, and back comes a request of {:?}", request.kind)?;
            Ok(())
        }
        outcome => say_step(rt, outcome),
    }
}

fn say_group(rt: &impl Print, placed: &Placed) -> Result<(), Ended> {
    println!(rt; "group {:?}", placed.starts().as_slice())?;
    for member in placed.members().members() {
        println!(rt; "member {}", member.id)?;
    }
    Ok(())
}

/// The wants of a plan's problem, when it ends and before when nothing does, its starts and its certificate.
pub(crate) fn say_plan(rt: &impl Print, last: Option<(&Problem, &LastPlan)>) -> Result<(), Ended> {
    let Some((_, plan)) = last else {
        println!(rt; "no plan")?;
        return Ok(());
    };
    println!(rt; "finish {} below {}", plan.finish(), plan.below())?;
    let schedule = plan.schedule();
    for starts in schedule.rest() {
        println!(rt; "rest {:?}", starts.as_slice())?;
    }
    for placed in schedule.groups() {
        say_group(rt, placed)?;
    }
    match plan {
        LastPlan::Tokens { planned, .. } => {
            for token in planned.cert.as_slice() {
                println!(rt; "{token:?}")?;
            }
        }
        LastPlan::Text { .. } => println!(rt; "a certificate that remembers states")?,
    }
    Ok(())
}
