//! The message beside an answer.
ghost use Rattle.std.specs.Prelude.{◌≡◌, IfOk, None, true};

use crate::cautions::push_cautions;
use crate::input::Input;
use crate::judged::describe_refusal;
use crate::logged::describe_log;
use crate::parsed::{MOST, Named, Parsed};
use crate::ran::run_message;
use crate::script::{purpose_of, script_message};
use onfi_script::Why;
use std::alloc::{AllocError, Global};

/// The message for a person beside an answer to an input, which refuses for that reason; nothing where the
/// answer says all, or where quiet was asked for. Which words is free: no program may rely on them.
///
/// # Errors
/// Where memory was refused; the answer is none the worse for it.
pub fn message(
    alloc: Global,
    parsed: &Parsed<'_>,
    input: &Input<'_>,
    answer: &[u8],
    why: Option<Why>,
) -> Result<Option<String>, AllocError>
    ensures quiet { (parsed.now.quiet ≡ true) → IfOk result (λ m. m ≡ None) }
{
    if parsed.quiet {
        return Ok(None);
    }
    let told = about(alloc, parsed, input, answer, why)?;
    let mut said = told.unwrap_or(String::new(alloc));
    if !is_unread(answer) {
        push_cautions(alloc, purpose_of(parsed.command()), &mut said, input)?;
    }
    Ok(if said.is_empty() { None } else { Some(said) })
}

/// Whether an answer is that of no script that was read.
fn is_unread(answer: &[u8]) -> bool {
    answer.starts_with(b"script refused ") || answer.starts_with(b"memory\n")
}

/// What an answer leaves unsaid.
fn about(
    alloc: Global,
    parsed: &Parsed<'_>,
    input: &Input<'_>,
    answer: &[u8],
    why: Option<Why>,
) -> Result<Option<String>, AllocError> {
    match (why, parsed.named) {
        (Some(Why::Script(refusal)), _) => Ok(Some(script_message(
            alloc,
            parsed.command(),
            input,
            refusal,
        )?)),
        (_, Named::Run { .. }) => run_message(alloc, answer),
        (_, Named::Audit { .. } | Named::Gaps { .. }) => describe_log(alloc, input, answer),
        (Some(Why::Over(opened)), Named::Problem { .. }) => {
            Ok(Some(over_message(alloc, parsed.limit(), opened)?))
        }
        (Some(why), Named::Problem { command, .. }) => {
            Ok(Some(describe_refusal(alloc, command, input, why)?))
        }
        _ => Ok(None),
    }
}

/// The message where a search opened that many nodes and isn't over.
fn over_message(alloc: Global, limit: u32, opened: u32) -> Result<String, AllocError> {
    let raise = if limit < MOST {
        "raise '--limit' up to 1048576, or "
    } else {
        ""
    };
    format!(in alloc;
        "onfi_sim: no optimal plan was found within {opened} nodes; {raise}plan with '--by within', which always gives a plan\n"
    )
}
