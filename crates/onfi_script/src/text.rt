//! The texts that are written.
ghost use Rattle.std.specs.Prelude.{◌≡◌, ◌++◌, string_bytes, IfOk, OnOk, Some};
ghost use Rattle.std.specs.Fmt.{decimal};
ghost use Rattle.std.specs.List.{flat_map};
ghost use Rattle.onfi_script.specs.Text as spec;
ghost use Rattle.onfi_script.specs.AnswerOf.{answer_of};

use crate::fault::Refusal;
use crate::why::Why;
use onfi_cert::CertTextFault;
use onfi_check::{CertFault, TextFault};
use onfi_known_check::{KnownFault, KnownTextFault};
use onfi_request::Want;
use onfi_schedule::{Placed, Schedule, Starts};
use std::alloc::{AllocError, Global};

/// The text that is written, the status that the program ends with, and for a person why it refuses, where it does.
#[derive(Drop)]
pub struct Answer {
    pub text: Vec<u8>,
    pub status: u8,
    pub why: Option<Why>,
}

impl Answer {
    /// This text, with this status; it refuses nothing.
    pub fn of(text: Vec<u8>, status: u8) -> Answer
        ensures { answer_of result ≡ record { text = text.items; status = status } }
    {
        Answer {
            text,
            status,
            why: None,
        }
    }
}

/// The line that refuses a script.
fn refuse_script(alloc: Global, refusal: Refusal) -> Result<Answer, AllocError>
    ensures { IfOk result (λ a. answer_of a ≡ spec.refused refusal) }
{
    let row = refusal.row;
    let name = refusal.fault.name();
    let text = format!(in alloc; "script refused {row} {name}\n")?;
    Ok(Answer::of(text.into_bytes(), 1))
}

/// A line of a word and a number.
fn line(alloc: Global, word: &str, number: u64, status: u8) -> Result<Answer, AllocError>
    ensures { IfOk result (λ a. answer_of a ≡ spec.line word.now number status) }
{
    let text = format!(in alloc; "{word} {number}\n")?;
    Ok(Answer::of(text.into_bytes(), status))
}

/// The line that refuses for this reason.
fn refuse_for(alloc: Global, reason: &str) -> Result<Answer, AllocError>
    ensures { IfOk result (λ a. answer_of a ≡ spec.refused_for reason.now) }
{
    let text = format!(in alloc; "refused {reason}\n")?;
    Ok(Answer::of(text.into_bytes(), 2))
}

/// The line that refuses for this reason, with a place.
fn refuse_at(alloc: Global, reason: &str, place: u64) -> Result<Answer, AllocError>
    ensures { IfOk result (λ a. answer_of a ≡ spec.refused_at reason.now place) }
{
    let text = format!(in alloc; "refused {reason} {place}\n")?;
    Ok(Answer::of(text.into_bytes(), 2))
}

/// The line of a schedule that ends at `ends`, in ns, and that nothing beats.
pub fn accept_end(alloc: Global, ends: u64) -> Result<Answer, AllocError>
    ensures { IfOk result (λ a. answer_of a ≡ spec.accepted ends) }
{
    line(alloc, "accepted", ends, 0)
}

/// The line of a schedule that ends at `ends` where nothing ends before `below`, both in ns.
pub fn within(alloc: Global, ends: u64, below: u64) -> Result<Answer, AllocError>
    ensures { IfOk result (λ a. answer_of a ≡ spec.within ends below) }
{
    let text = format!(in alloc; "within {ends} {below}\n")?;
    Ok(Answer::of(text.into_bytes(), 8))
}

/// The line of a schedule that is legal and ends at `ends`, in ns.
pub fn legal_until(alloc: Global, ends: u64) -> Result<Answer, AllocError>
    ensures { IfOk result (λ a. answer_of a ≡ spec.legal_until ends) }
{
    line(alloc, "legal", ends, 0)
}

/// The line that refuses the tokens of a certificate; none where memory was refused.
fn refuse_cert(alloc: Global, fault: CertFault) -> Result<Answer, AllocError>
    ensures { IfOk result (λ a. answer_of a ≡ spec.cert_refused fault) }
{
    match fault {
        CertFault::Illegal => refuse_for(alloc, "1 Illegal"),
        CertFault::Short => refuse_for(alloc, "2 Short"),
        CertFault::Trailing(place) => refuse_at(alloc, "3 Trailing", place as u64),
        CertFault::Width(place) => refuse_at(alloc, "4 Width", place as u64),
        CertFault::BoundLow(place) => refuse_at(alloc, "5 BoundLow", place as u64),
        CertFault::YieldNoFit(place) => refuse_at(alloc, "6 YieldNoFit", place as u64),
        CertFault::YieldLoop(place) => refuse_at(alloc, "7 YieldLoop", place as u64),
        CertFault::NotEnd(place) => refuse_at(alloc, "8 NotEnd", place as u64),
        CertFault::Memory => Err(AllocError),
    }
}

/// The line that refuses a text as no certificate; none where memory was refused.
fn refuse_cert_text(alloc: Global, fault: CertTextFault) -> Result<Answer, AllocError>
    ensures { IfOk result (λ a. answer_of a ≡ spec.cert_text_refused fault) }
{
    match fault {
        CertTextFault::Header => refuse_for(alloc, "cert Header"),
        CertTextFault::BadToken(place) => refuse_at(alloc, "cert BadToken", u64::from(place)),
        CertTextFault::TooLong => refuse_for(alloc, "cert TooLong"),
        CertTextFault::Memory => Err(AllocError),
    }
}

/// The line that refuses the text of a certificate; none where memory was refused.
fn refuse_text(alloc: Global, fault: TextFault) -> Result<Answer, AllocError>
    ensures { IfOk result (λ a. answer_of a ≡ spec.text_refused fault) }
{
    match fault {
        TextFault::Text(fault) => refuse_cert_text(alloc, fault),
        TextFault::Cert(fault) => refuse_cert(alloc, fault),
        TextFault::Option => refuse_for(alloc, "cert Option"),
    }
}

/// The line that refuses a schedule or the tokens of a certificate that remembers states; none where memory was refused.
fn refuse_known(alloc: Global, fault: KnownFault) -> Result<Answer, AllocError>
    ensures { IfOk result (λ a. answer_of a ≡ spec.known_refused fault) }
{
    match fault {
        KnownFault::Cert(fault) => refuse_cert(alloc, fault),
        KnownFault::Unknown(place) => refuse_at(alloc, "10 Unknown", place as u64),
        KnownFault::OtherLeft(place) => refuse_at(alloc, "11 OtherLeft", place as u64),
        KnownFault::Sooner(place) => refuse_at(alloc, "12 Sooner", place as u64),
        KnownFault::TooMany(place) => refuse_at(alloc, "13 TooMany", place as u64),
        KnownFault::Above => refuse_for(alloc, "below"),
    }
}

/// The line that refuses a schedule or the text of a certificate that remembers states; none where memory was refused.
fn refuse_known_text(
    alloc: Global,
    fault: TextFault<KnownFault, KnownTextFault>,
) -> Result<Answer, AllocError>
    ensures { IfOk result (λ a. answer_of a ≡ spec.known_text_refused fault) }
{
    match fault {
        TextFault::Text(KnownTextFault::Header) => refuse_for(alloc, "cert Header"),
        TextFault::Text(KnownTextFault::BadToken(place)) => {
            refuse_at(alloc, "cert BadToken", place as u64)
        }
        TextFault::Cert(fault) => refuse_known(alloc, fault),
        TextFault::Option => refuse_text(alloc, TextFault::Option),
    }
}

/// The line that says why; none where memory was refused.
fn line_of(alloc: Global, why: Why) -> Result<Answer, AllocError>
    ensures { IfOk result (λ a. answer_of a ≡ spec.refused_by why) }
{
    match why {
        Why::Script(refusal) => refuse_script(alloc, refusal),
        Why::Over(opened) => line(alloc, "over", u64::from(opened), 6),
        Why::Line(number) => refuse_at(alloc, "plan", number),
        Why::Illegal(_) => refuse_for(alloc, "1 Illegal"),
        Why::Finish { .. } => refuse_for(alloc, "finish"),
        Why::Below { .. } => refuse_for(alloc, "below"),
        Why::Cert(fault) => refuse_text(alloc, fault),
        Why::Known(fault) => refuse_known_text(alloc, fault),
        Why::Memory => Err(AllocError),
    }
}

/// The answer that refuses so: its line, and why.
///
/// # Errors
/// Where memory was refused.
pub fn refuse(alloc: Global, why: Why) -> Result<Answer, AllocError>
    ensures answer { IfOk result (λ a. answer_of a ≡ spec.refused_by why) }
    ensures why { IfOk result (λ a. a.why ≡ Some why) }
{
    let mut answer = line_of(alloc, why)?;
    answer.why = Some(why);
    Ok(answer)
}

/// The answer to a script that is refused.
///
/// # Errors
/// Where memory was refused.
pub fn answer_refusal(alloc: Global, refusal: Refusal) -> Result<Answer, AllocError>
    ensures { IfOk result (λ a. answer_of a ≡ spec.refused refusal) }
{
    refuse(alloc, Why::Script(refusal))
}

/// .. where a search opened as many nodes as it may, and is not over.
pub fn report_over(alloc: Global, opened: u32) -> Result<Answer, AllocError>
    ensures { IfOk result (λ a. answer_of a ≡ spec.over opened) }
{
    refuse(alloc, Why::Over(opened))
}

/// Appends a mark and a number to a text.
///
/// # Errors
/// Where memory was refused.
pub fn put_number(
    alloc: Global,
    text: &mut String,
    mark: &str,
    number: u64,
) -> Result<(), AllocError>
    ensures { OnOk result (string_bytes text.new ≡ string_bytes text.old ++ (mark.now ++ decimal number)) }
{
    let piece = format!(in alloc; "{mark}{number}")?;
    text.push_str(piece.as_str())
}

/// Appends numbers to a text, each after a space.
fn put_spaced(alloc: Global, text: &mut String, numbers: &[u64]) -> Result<(), AllocError>
    ensures { OnOk result (string_bytes text.new ≡ string_bytes text.old ++ spec.spaced numbers.now) }
{
    for number in numbers {
        put_number(alloc, text, " ", *number)?;
    }
    Ok(())
}

/// Appends the numbers of wants to a text, each after a plus.
fn put_joined(alloc: Global, text: &mut String, wants: &[Want]) -> Result<(), AllocError>
    ensures { OnOk result (string_bytes text.new ≡ string_bytes text.old ++ spec.joined wants.now) }
{
    for want in wants {
        put_number(alloc, text, "+", want.id)?;
    }
    Ok(())
}

/// Appends the numbers of a group's members to a text.
fn put_ids(alloc: Global, text: &mut String, members: &[Want]) -> Result<(), AllocError>
    ensures { OnOk result (string_bytes text.new ≡ string_bytes text.old ++ spec.ids members.now) }
{
    let Some((first, rest)) = members.split_first() else {
        return Ok(());
    };
    put_number(alloc, text, "", first.id)?;
    put_joined(alloc, text, rest)
}

/// Appends the line of a group to a text.
fn put_group(alloc: Global, text: &mut String, group: &Placed) -> Result<(), AllocError>
    ensures { OnOk result (string_bytes text.new ≡ string_bytes text.old ++ spec.group_line group.now) }
{
    text.push_str("group ")?;
    put_ids(alloc, text, group.members().members())?;
    put_spaced(alloc, text, group.starts().as_slice())?;
    text.push_str("\n")
}

/// Appends the lines of new groups to a text.
fn put_groups(alloc: Global, text: &mut String, groups: &[Placed]) -> Result<(), AllocError>
    ensures { OnOk result (string_bytes text.new ≡ string_bytes text.old ++ flat_map spec.group_line groups.now) }
{
    for group in groups {
        put_group(alloc, text, group)?;
    }
    Ok(())
}

/// Appends the line of a LUN with phases left of a running group to a text.
fn put_rest(alloc: Global, text: &mut String, lun: usize, starts: &[u64]) -> Result<(), AllocError>
    ensures { OnOk result (string_bytes text.new ≡ string_bytes text.old ++ spec.rest_line lun starts.now) }
{
    if starts.is_empty() {
        return Ok(());
    }
    put_number(alloc, text, "rest ", lun as u64)?;
    put_spaced(alloc, text, starts)?;
    text.push_str("\n")
}

/// Appends the lines of running groups to a text.
#[tactic(auto, unfolding(crate::specs::Text::rest_lines))]
fn put_rests(alloc: Global, text: &mut String, rest: &[Starts]) -> Result<(), AllocError>
    ensures { OnOk result (string_bytes text.new ≡ string_bytes text.old ++ spec.rest_lines 0 rest.now) }
{
    for (lun, starts) in rest.iter().enumerate() {
        put_rest(alloc, text, lun, starts.as_slice())?;
    }
    Ok(())
}

/// Appends a line of the time before which nothing ends, in ns, to a text, where that isn't the finish.
fn put_below(alloc: Global, text: &mut String, finish: u64, below: u64) -> Result<(), AllocError>
    ensures { OnOk result (string_bytes text.new ≡ string_bytes text.old ++ spec.below_line finish below) }
{
    if finish <= below {
        return Ok(());
    }
    put_number(alloc, text, "below ", below)?;
    text.push_str("\n")
}

/// The lines of a schedule that ends at `finish` where nothing ends before `below`, both in ns.
fn schedule_text(
    alloc: Global,
    schedule: &Schedule,
    finish: u64,
    below: u64,
) -> Result<String, AllocError>
    ensures { IfOk result (λ t. string_bytes t ≡ spec.schedule_text schedule.now finish below) }
{
    let mut text = String::new(alloc);
    text.push_str("ONFIPLAN 1\n")?;
    put_number(alloc, &mut text, "finish ", finish)?;
    text.push_str("\n")?;
    put_below(alloc, &mut text, finish, below)?;
    put_rests(alloc, &mut text, schedule.rest())?;
    put_groups(alloc, &mut text, schedule.groups())?;
    Ok(text)
}

/// .. with the text of its certificate after them.
pub fn plan_text(
    alloc: Global,
    schedule: &Schedule,
    finish: u64,
    below: u64,
    certificate: &[u8],
) -> Result<Vec<u8>, AllocError>
    ensures { IfOk result (λ text. text.items ≡ spec.schedule_text schedule.now finish below ++ certificate.now) }
{
    let mut text = schedule_text(alloc, schedule, finish, below)?.into_bytes();
    text.extend_from_slice(certificate)?;
    Ok(text)
}
