//! Makes calls of the libraries, and prints a line for what each answers. A call that answers Memory is reported as `memory`
//! and made once more: so whoever refuses it memory sees whether anything else changed.
#![tactic(auto)]

mod channel;
mod ended;
mod judging;
mod page;
mod planning;
mod rows;
mod sample;
mod saying;
mod serving;
mod stage;

use crate::channel::{run_events, step_by_step};
use crate::ended::Ended;
use crate::judging::{judge_text, judge_tokens};
use crate::page::play_page;
use crate::planning::{plan_apart, plan_in_parts, plan_remembering, plan_running};
use crate::rows::read_rows;
use crate::serving::serve;
use std::alloc::Global;
use std::io::Input;
use std::process::ExitCode;
use std::sync::Wait;
use std::thread::Threads;

/// The first argument; empty where there is none.
fn name_of(rt: &(impl std::rt::Env + AllocGlobal)) -> Result<String, Ended> {
    let Ok(mut args) = std::env::args(rt) else {
        return Err(Ended::Memory);
    };
    let _program = args.next();
    match args.next() {
        Some(name) => Ok(name),
        None => Err(Ended::NoTrial),
    }
}

/// Makes the calls of the trial with this name.
fn try_calls<R: Input + Print + Threads + Wait + Sync>(
    rt: &R,
    alloc: Global,
    name: &str,
) -> Result<(), Ended> {
    match name {
        "apart" => plan_apart(rt, alloc),
        "running" => plan_running(rt, alloc),
        "parts" => plan_in_parts(rt, alloc),
        "remembering" => plan_remembering(rt, alloc),
        "tokens" => judge_tokens(rt, alloc),
        "text" => judge_text(rt, alloc),
        "core" => step_by_step(rt, alloc, read_rows(rt, alloc)?.as_slice()),
        "events" => run_events(rt, alloc, read_rows(rt, alloc)?.as_slice()),
        "sequencer" => serve(rt, alloc, read_rows(rt, alloc)?.as_slice()),
        "page" => play_page(rt, alloc),
        _ => Err(Ended::NoTrial),
    }
}

fn try_named(
    rt: &(impl std::rt::Env + AllocGlobal + Input + Print + Threads + Wait + Sync),
) -> Result<(), Ended> {
    let name = name_of(rt)?;
    try_calls(rt, rt.alloc(), name.as_str())
}

fn main(rt: HostRuntime) -> ExitCode {
    match try_named(&rt) {
        Ok(()) => ExitCode::SUCCESS,
        Err(Ended::Memory) => {
            let _ = rt.println("memory");
            ExitCode::from(4)
        }
        Err(Ended::NoTrial) => {
            let _ = rt.eprintln(
                "usage: onfi_trials apart|running|parts|remembering|tokens|text|core|events|sequencer|page",
            );
            ExitCode::from(5)
        }
        Err(Ended::Write) => ExitCode::from(7),
    }
}
