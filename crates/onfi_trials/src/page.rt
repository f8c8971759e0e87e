//! A page of trials of cores and sequencers, one after another.

use crate::channel::step_by_step;
use crate::ended::Ended;
use crate::rows::{read_input, rows_in};
use crate::serving::serve;
use std::alloc::Global;
use std::io::Input;
use std::sync::Wait;

/// Plays each trial of standard input, and prints its name and what it prints. A trial is a line `=== NAME`, then
/// `$ core` or `$ sequencer`, then its rows.
pub(crate) fn play_page<R: Input + Print + Wait>(rt: &R, alloc: Global) -> Result<(), Ended> {
    let bytes = read_input(rt, alloc)?;
    let Ok(text) = std::str::from_utf8(bytes.as_slice()) else {
        return Err(Ended::NoTrial);
    };
    let mut left = text;
    for _ in 0..text.len() {
        let Some((_, behind)) = left.split_once("=== ") else {
            break;
        };
        let (trial, _) = behind.split_once("\n=== ").unwrap_or((behind, ""));
        play(rt, alloc, trial)?;
        left = behind;
    }
    Ok(())
}

// Plays a trial: its name, its command and its rows, each after a line end.
fn play<R: Print + Wait>(rt: &R, alloc: Global, trial: &str) -> Result<(), Ended> {
    let Some((name, rest)) = trial.split_once("\n") else {
        return Err(Ended::NoTrial);
    };
    let (command, rows) = rest.split_once("\n").unwrap_or((rest, ""));
    println!(rt; "=== {name}")?;
    let rows = rows_in(alloc, rows.as_bytes())?;
    match command {
        "$ core" => step_by_step(rt, alloc, rows.as_slice()),
        "$ sequencer" => serve(rt, alloc, rows.as_slice()),
        _ => Err(Ended::NoTrial),
    }
}
