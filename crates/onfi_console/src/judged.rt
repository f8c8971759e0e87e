//! Why a plan text or its certificate is refused.
use crate::escaping::escape_bytes;
use crate::guess::{OtherText, guess};
use crate::input::{Input, line_at, line_start};
use crate::lines::{last_of_text, line_fault, token_at, token_text_fault};
use onfi_cert::CertTextFault;
use onfi_check::{CertFault, TextFault};
use onfi_known_check::{KnownFault, KnownTextFault};
use onfi_script::{Command, Why, after_end, script_len};
use std::alloc::{AllocError, Global};

/// What a certificate has to prove for a command.
fn proof_of(command: Command) -> &'static str {
    match command {
        Command::CheckWithin => "that nothing ends before the time that is told",
        _ => "it optimal",
    }
}

/// The message beside an answer that refuses a plan text or its certificate, or that memory was refused.
///
/// # Errors
/// Where memory was refused.
pub fn describe_refusal(
    alloc: Global,
    command: Command,
    input: &Input<'_>,
    why: Why,
) -> Result<String, AllocError> {
    match why {
        Why::Line(number) => plan_line_message(alloc, input, number as usize),
        Why::Finish { said, is } => format!(in alloc;
            "onfi_sim: the line 'finish' says {said} ns, and the schedule ends at {is} ns\n"
        ),
        Why::Below { said, is } => format!(in alloc;
            "onfi_sim: nothing is said to end before {said} ns, and the schedule ends at {is} ns\n"
        ),
        Why::Illegal(Some(breach)) => {
            format!(in alloc; "onfi_sim: the schedule isn't legal: {breach}\n")
        }
        Why::Cert(TextFault::Cert(fault)) => {
            tokens_message(alloc, command, KnownFault::Cert(fault))
        }
        Why::Known(TextFault::Cert(fault)) => tokens_message(alloc, command, fault),
        Why::Cert(TextFault::Text(CertTextFault::BadToken(place))) => {
            bad_token_message(alloc, input, place as usize)
        }
        Why::Known(TextFault::Text(KnownTextFault::BadToken(place))) => {
            bad_token_message(alloc, input, place)
        }
        Why::Illegal(None) => String::from_str(alloc, "onfi_sim: the schedule isn't legal\n"),
        Why::Memory => String::from_str(alloc, "onfi_sim: memory was refused\n"),
        _ => {
            let what = certificate_fault(command, input, why);
            format!(in alloc; "onfi_sim: the certificate is refused: {what}\n")
        }
    }
}

/// The message about tokens that prove nothing.
fn tokens_message(
    alloc: Global,
    command: Command,
    fault: KnownFault,
) -> Result<String, AllocError> {
    let proof = proof_of(command);
    let (what, place) = token_fault(fault);
    match place {
        Some(place) => format!(in alloc;
            "onfi_sim: the schedule is legal, and the certificate doesn't prove {proof}: token {place}, counted from 0, {what}\n"
        ),
        None => format!(in alloc;
            "onfi_sim: the schedule is legal, and the certificate doesn't prove {proof}: {what}\n"
        ),
    }
}

/// The text after the line `end`: a plan text, or a log.
pub fn text_after<'a>(input: &Input<'a>) -> &'a [u8] {
    match script_len(input.text) {
        Some(size) => after_end(&input.text[size..]),
        None => b"",
    }
}

/// The message about a line of a plan text, counted from 1.
fn plan_line_message(
    alloc: Global,
    input: &Input<'_>,
    number: usize,
) -> Result<String, AllocError> {
    let (text, above) = (text_after(input), number.saturating_sub(1));
    let start = line_start(text, above);
    let before = input.text.len().saturating_sub(text.len());
    let (name, line) = input.place(before.saturating_add(start));
    let found = escape_bytes(alloc, line_at(text, above))?;
    let place = if line == number {
        format!(in alloc; "onfi_sim: {name}:{line}: '{found}'")?
    } else {
        format!(in alloc; "onfi_sim: {name}:{line}: line {number} of the plan text '{found}'")?
    };
    let expected = name_expected(number);
    match line_cause(text.get(start..).unwrap_or(b""), number) {
        Some(cause) => { format!(in alloc; "{place}: {cause}\n  expected: {expected}\n") }
        None => format!(in alloc; "{place}: expected {expected}\n"),
    }
}

/// Why what stands in a plan text from a line on, counted from 1, isn't taken, where that can be said.
fn line_cause(text: &[u8], number: usize) -> Option<&'static str> {
    let line = line_at(text, 0);
    match guess(text) {
        Some(OtherText::Plan) | None => {}
        Some(guess) if number == 1 => return Some(guess.text()),
        Some(_) => {}
    }
    if number == 3 && line.starts_with(b"below ") {
        return Some("a line 'below N' is taken by 'check --by within' alone");
    }
    if text.is_empty() && number > 2 {
        return Some(
            "the text ends here without certificate; 'check --legal' judges a schedule without one",
        );
    }
    if text.is_empty() {
        return Some("the text ends here");
    }
    line_fault(line, last_of_text(text))
}

/// What stands in a line of a plan text, counted from 1.
fn name_expected(number: usize) -> &'static str {
    match number {
        1 => "'ONFIPLAN 1', with a line end",
        2 => "'finish N', N in ns without leading zeros, with a line end",
        _ =>
            "'rest LUN START ..' by rising LUN, then 'group ID+ID.. START ..', at most 8 of each, with line ends, then the certificate",
    }
}

/// The text of the certificate in a plan text.
fn certificate<'a>(text: &'a [u8]) -> &'a [u8] {
    let above = text
        .split(|byte| *byte == b'\n')
        .skip(2)
        .position(|line| line.starts_with(b"ONFICERT"));
    match above {
        Some(above) => text
            .get(line_start(text, above.saturating_add(2))..)
            .unwrap_or(b""),
        None => b"",
    }
}

/// Why a text is no certificate of the problem.
fn certificate_fault(command: Command, input: &Input<'_>, why: Why) -> &'static str {
    match why {
        Why::Cert(TextFault::Option) | Why::Known(TextFault::Option) =>
            "its header is of the other option: 'strict' of the script differs from that of the plan",
        Why::Cert(TextFault::Text(CertTextFault::TooLong)) => "it has too many tokens",
        _ => header_fault(command, line_at(certificate(text_after(input)), 0)),
    }
}

/// The message about a token that is none, counted from 0.
fn bad_token_message(alloc: Global, input: &Input<'_>, at: usize) -> Result<String, AllocError> {
    let text = certificate(text_after(input));
    let behind = text.get(line_start(text, 1)..).unwrap_or(b"");
    let (token, why) = (
        escape_bytes(alloc, token_at(behind, at))?,
        token_text_fault(behind, at),
    );
    format!(in alloc;
        "onfi_sim: the certificate is refused at token {at}, counted from 0, '{token}': {why}\n"
    )
}

/// Why a certificate with this header isn't taken by a check.
fn header_fault(command: Command, header: &[u8]) -> &'static str {
    let remembers = header == b"ONFICERT 3 remember".as_slice()
        || header == b"ONFICERT 4 strict remember".as_slice();
    let plain = header == b"ONFICERT 1".as_slice() || header == b"ONFICERT 2 strict".as_slice();
    match command {
        Command::Check if remembers => "it remembers states; 'check --by within' takes it",
        Command::CheckWithin if plain =>
            "it is a plain one; 'check' takes it, without '--by within'",
        _ =>
            "its first line is 'ONFICERT 1', 'ONFICERT 2 strict', 'ONFICERT 3 remember' or 'ONFICERT 4 strict remember', with LF behind it",
    }
}

/// Why tokens prove nothing, and the token that shows so, counted from 0.
fn token_fault(fault: KnownFault) -> (&'static str, Option<usize>) {
    match fault {
        KnownFault::Cert(fault) => plain_token_fault(fault),
        KnownFault::Unknown(at) => ("names an open node that hasn't ended", Some(at)),
        KnownFault::OtherLeft(at) => ("names a node at which something else is left", Some(at)),
        KnownFault::Sooner(at) => ("names a node at which LUNs may go on only later", Some(at)),
        KnownFault::TooMany(at) => ("is one open node too many, above 1048576", Some(at)),
        KnownFault::Above => ("isn't one of this problem", None),
    }
}

/// .. of those of a plain certificate.
fn plain_token_fault(fault: CertFault) -> (&'static str, Option<usize>) {
    match fault {
        CertFault::Short => ("its tokens end too early", None),
        CertFault::Trailing(at) => ("stands behind the end of the tree", Some(at)),
        CertFault::Width(at) => (
            "has another number of moves than the problem there",
            Some(at),
        ),
        CertFault::BoundLow(at) => ("names a bound that is below the finish", Some(at)),
        CertFault::YieldNoFit(at) => ("yields to a LUN whose moves don't fit", Some(at)),
        CertFault::YieldLoop(at) => ("yields in a circle", Some(at)),
        CertFault::NotEnd(at) => ("says that nothing is left, and phases are left", Some(at)),
        CertFault::Illegal | CertFault::Memory => ("isn't one of this problem", None),
    }
}
