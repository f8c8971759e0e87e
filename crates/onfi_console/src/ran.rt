//! What stands in the way of a run.
use std::alloc::{AllocError, Global};

/// The message beside the report of a run, or nothing where each channel ended well.
///
/// # Errors
/// Where memory was refused.
pub fn run_message(alloc: Global, report: &[u8]) -> Result<Option<String>, AllocError> {
    let mut message = String::new(alloc);
    for line in report.split(|byte| *byte == b'\n') {
        if let Ok(line) = std::str::from_utf8(line) {
            push_about(alloc, &mut message, line)?;
        }
    }
    Ok(if message.is_empty() {
        None
    } else {
        Some(message)
    })
}

/// Appends to a message what a line of a report says of its channel.
fn push_about(alloc: Global, message: &mut String, line: &str) -> Result<(), AllocError> {
    if let Some(what) = about(line) {
        let text = format!(in alloc; "onfi_sim: '{line}': {what}\n")?;
        message.push_str(text.as_str())?;
    }
    Ok(())
}

/// What a line of a report that isn't a reply says.
fn about(line: &str) -> Option<&'static str> {
    if line.starts_with("stopped,") {
        Some(
            "this channel stopped: a call of its chip failed, or a status came before its LUN was ready; operations without a line have no reply",
        )
    } else if line.starts_with("over,") {
        Some(
            "a plan of this channel opened as many nodes as it may; raise '--limit', or write a row 'batch,N' with a smaller N",
        )
    } else if line.starts_with("unfinished,") {
        Some("this channel's thread ended before its operations did")
    } else if line == "memory" {
        Some("memory or a thread was refused; operations without a line have no reply")
    } else {
        None
    }
}
