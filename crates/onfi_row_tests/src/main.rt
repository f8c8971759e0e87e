//! Plays a page of worked rows by the calls `words`, `engine`, `engine_split` and `run_script`, and says which of them
//! weren't answered as the page says. Its tests are runs with gates.
#![tactic(auto)]

mod answering;
mod ended;
#[cfg(test)]
mod gates;
mod page;
mod unflushed;

use crate::answering::{Answer, answer_to};
use crate::ended::Ended;
use crate::page::Page;
use std::alloc::Global;
use std::io::{Input, Print, Read};
use std::process::ExitCode;
use std::sync::Wait;
use std::thread::Threads;

/// How many rows were played, and how many of them were answered otherwise than the page says.
#[derive(Clone, Copy)]
struct Count {
    rows: u32,
    missed: u32,
}

// Whether an answer is that of the row; after its text come empty lines alone.
fn is_told(page: &Page<'_>, answer: &Answer) -> bool {
    let Some(behind) = page.text.strip_prefix(answer.text.as_slice()) else {
        return false;
    };
    let status = page.status.parse::<u8>();
    status == Ok(answer.status) && behind.iter().all(|byte| *byte == b'\n')
}

// Whether the row is answered so by that command line.
fn holds<R: Threads + Wait + Sync>(
    rt: &R,
    alloc: Global,
    page: &Page<'_>,
    words: &str,
) -> Result<bool, Ended> {
    let answer = answer_to(rt, alloc, words, page.input.as_slice())?;
    Ok(is_told(page, &answer))
}

// Whether each beginning of the input is answered so, but that which lacks the last byte alone.
fn holds_cut<R: Threads + Wait + Sync>(
    rt: &R,
    alloc: Global,
    page: &Page<'_>,
    words: &str,
) -> Result<bool, Ended> {
    let input = page.input.as_slice();
    let mut all = true;
    for size in 0..input.len().saturating_sub(1) {
        let answer = answer_to(rt, alloc, words, input.get(..size).unwrap_or(input))?;
        all = all && is_told(page, &answer);
    }
    Ok(all)
}

// Whether a plan that is found is the same by several workers.
fn holds_split<R: Threads + Wait + Sync>(
    rt: &R,
    alloc: Global,
    page: &Page<'_>,
) -> Result<bool, Ended> {
    match page.words {
        "plan" => Ok(
            holds(rt, alloc, page, "plan --workers 2")?
                && holds(rt, alloc, page, "plan --workers 8")?,
        ),
        _ => Ok(true),
    }
}

// Plays a row.
fn play<R: Threads + Wait + Sync + Print>(
    rt: &R,
    alloc: Global,
    page: &Page<'_>,
    count: Count,
) -> Result<Count, Ended> {
    let held = match page.words.strip_prefix("cut ") {
        Some(words) => holds_cut(rt, alloc, page, words)?,
        None => holds(rt, alloc, page, page.words)? && holds_split(rt, alloc, page)?,
    };
    if !held {
        println!(rt; "answered otherwise: {}", page.name)?;
    }
    Ok(Count {
        rows: count.rows.saturating_add(1),
        missed: count.missed.saturating_add(u32::from(!held)),
    })
}

// Plays all rows of a page.
fn play_all<R: Threads + Wait + Sync + Print>(
    rt: &R,
    alloc: Global,
    text: &str,
) -> Result<Count, Ended> {
    let mut page = Page::new(alloc);
    let mut count = Count { rows: 0, missed: 0 };
    let mut left = text;
    for _ in 0..text.len() {
        let Some((line, behind)) = left.split_once("\n") else {
            break;
        };
        left = behind;
        if page.ends_row(line) {
            count = play(rt, alloc, &page, count)?;
        }
        page.take(line)?;
    }
    if page.has_row() {
        count = play(rt, alloc, &page, count)?;
    }
    Ok(count)
}

// Counts one row more: a failed flush has to be reported.
fn with_flush<R: Print>(rt: &R, alloc: Global, count: Count) -> Result<Count, Ended> {
    let told = unflushed::is_told(alloc);
    if !told {
        println!(rt; "answered otherwise: a failed flush")?;
    }
    Ok(Count {
        rows: count.rows.saturating_add(1),
        missed: count.missed.saturating_add(u32::from(!told)),
    })
}

fn played<R: Threads + Wait + Sync + Print + Input>(rt: &R, alloc: Global) -> Result<Count, Ended> {
    let mut bytes = Vec::new(alloc);
    rt.reader().read_to_end(&mut bytes)?;
    let Ok(text) = std::str::from_utf8(bytes.as_slice()) else {
        return Err(Ended::Stream);
    };
    let count = play_all(rt, alloc, text)?;
    with_flush(rt, alloc, count)
}

fn main(rt: HostRuntime) -> ExitCode {
    let Ok(count) = played(&rt, rt.alloc()) else {
        return ExitCode::from(7);
    };
    let told = println!(&rt; "{} rows, {} answered otherwise", count.rows, count.missed);
    if told.is_err() {
        return ExitCode::from(7);
    }
    ExitCode::from(u8::from(count.missed > 0))
}
