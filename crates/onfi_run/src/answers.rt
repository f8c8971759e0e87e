//! What a host got.
ghost use Rattle.std.specs.Prelude.{◌≡◌, ◌++◌, [], ◌∷◌, IfOk, MatchOption, None, OnOk, Some};
ghost use Rattle.std.specs.List.{cons_option};
ghost use Rattle.std.specs.Option.{option_map};
ghost use Rattle.std.specs.List.{AllByRecursion as Each};
ghost use Rattle.onfi_run.specs.Answers as spec;
ghost use Rattle.onfi_run.specs.Arriving.{expected, expected_on};
ghost use Rattle.onfi_run.specs.Report.{places};

use crate::completion::Completion;
use crate::operations::kind_in;
use onfi_request::{Answer, Reply};
use onfi_script::Row;
use onfi_timing::{Kind, Operation};
use std::alloc::{AllocError, Global};
use std::marker::Model;

/// What a host got from one channel: what is known of each of its operations there, by serial from 0. An answer stands
/// only where it suits the kind of its operation, and it came no sooner than the operation was submitted.
#[derive(Drop)]
pub struct Answers {
    by_serial: Vec<Completion>,
}

impl Model for Answers {
    ghost use Rattle.std.specs.List.{AllByRecursion as Each};
    ghost use Rattle.onfi_run.specs.Report.{AnswersView};
    ghost use Rattle.onfi_run.specs.Answers.{IsSuited};

    ghost Value = { AnswersView };

    ghost view = { λ a. a.by_serial.items };

    ghost invariant = { λ a. Each IsSuited a.by_serial.items };
}

/// Whether an answer suits an operation: a read gives a page, the others say whether they succeeded.
fn suits(kind: Kind, answer: &Answer) -> bool
    ensures { result ≡ spec.suits kind answer.now }
{
    match answer {
        Answer::Read(_) => matches!(kind.operation(), Operation::Read),
        Answer::Done | Answer::Failed => !matches!(kind.operation(), Operation::Read),
    }
}

impl Completion {
    /// Nothing yet, of an operation of that kind that arrives then.
    fn await_answer(kind: Kind, arrives: Option<u64>) -> Completion
        ensures { result ≡ spec.awaited (expected arrives kind) }
    {
        Completion {
            kind,
            arrives,
            answer: None,
            sent: 0,
            at: 0,
        }
    }

    /// The host submits it at that moment.
    fn submit(&mut self, now: u64)
        ensures { self.new ≡ spec.submitted now self.old }
    {
        self.sent = now;
        self.at = now;
    }

    /// The host collects its reply at that moment, or, where that is before it was submitted, as it was; the answer is kept
    /// where it suits the operation.
    fn come(&mut self, now: u64, answer: Answer)
        ensures { self.new ≡ spec.came now answer self.old }
    {
        if suits(self.kind, &answer) {
            self.answer = Some(answer);
            self.at = now.max(self.sent);
        }
    }
}

/// Appends to others a place for the answer to an operation of that kind, which arrives then, where there is one.
fn put_awaited(
    places: &mut Vec<Completion>,
    kind: Option<Kind>,
    arrives: Option<u64>,
) -> Result<(), AllocError>
    ensures { OnOk result (places.new.items ≡ places.old.items ++ cons_option (option_map (λ k. spec.awaited (expected arrives k)) kind) []) }
{
    if let Some(kind) = kind {
        places.push(Completion::await_answer(kind, arrives))?;
    }
    Ok(())
}

/// Places for the answers to a host's operations on a channel, in the order of their rows.
fn await_answers_on(
    alloc: Global,
    rows: &[Row],
    host: u8,
    channel: u8,
) -> Result<Vec<Completion>, AllocError>
    ensures { IfOk result (λ places. places.items ≡ spec.awaiting (expected_on rows.now host channel)) }
{
    let mut arrives = None;
    let mut places = Vec::new(alloc);
    for row in rows {
        put_awaited(&mut places, kind_in(row, host, channel), arrives)?;
        arrives = row.moment().or(arrives);
    }
    Ok(places)
}

/// The operation of that serial is submitted, where there is one.
fn submit_at(by_serial: &mut Vec<Completion>, at: usize, now: u64)
    ensures { by_serial.new.items ≡ spec.changed (spec.submitted now) by_serial.old.items at }
{
    if at < by_serial.len() {
        by_serial[at].submit(now);
    }
}

/// The reply of that serial is collected, where there is such an operation.
fn come_at(by_serial: &mut Vec<Completion>, at: usize, now: u64, answer: Answer)
    ensures { by_serial.new.items ≡ spec.changed (spec.came now answer) by_serial.old.items at }
{
    if at < by_serial.len() {
        by_serial[at].come(now, answer);
    }
}

impl Answers {
    /// Places for the answers to a host's operations on a channel, in the order of their rows.
    ///
    /// # Errors
    /// Where memory was refused.
    pub(crate) fn await_answers(
        alloc: Global,
        rows: &[Row],
        host: u8,
        channel: u8,
    ) -> Result<Answers, AllocError>
        ensures { IfOk result (λ answers. answers ≡ spec.awaiting (expected_on rows.now host channel)) }
    {
        let by_serial = await_answers_on(alloc, rows, host, channel)?;
        Ok(Answers { by_serial })
    }

    /// What is known of each operation, by serial.
    pub fn as_slice(&self) -> &[Completion]
        ensures all { result.now ≡ self.now }
        ensures suited { Each spec.IsSuited result.now }
    {
        self.by_serial.as_slice()
    }

    /// Whether each operation has its answer.
    pub(crate) fn is_complete(&self) -> bool
        ensures complete { result ≡ spec.is_complete self.now }
        ensures suited { Each spec.IsSuited self.now }
    {
        self.by_serial.iter().all(|c| c.answer.is_some())
    }

    /// The operation of that serial is submitted at that moment, in ns of the run's clock.
    pub(crate) fn send(&mut self, serial: u32, now: u64)
        ensures sent { self.new ≡ spec.changed (spec.submitted now) self.old serial }
        ensures same { places self.new ≡ places self.old }
    {
        submit_at(&mut self.by_serial, serial as usize, now);
    }

    /// Keeps the answer of a reply, which is collected at that moment, in ns of the run's clock, in the place of its serial,
    /// where it suits the operation there.
    pub(crate) fn keep(&mut self, reply: Reply, now: u64)
        ensures kept { self.new ≡ spec.with_reply now self.old reply }
        ensures same { places self.new ≡ places self.old }
    {
        come_at(
            &mut self.by_serial,
            reply.serial as usize,
            now,
            reply.answer,
        );
    }
}

/// What a host got, by channel.
#[derive(Drop)]
pub struct Got {
    by_channel: Vec<Answers>,
}

impl Model for Got {
    ghost use Rattle.onfi_run.specs.Report.{GotView};

    ghost Value = { GotView };

    ghost view = { λ g. g.by_channel.items };
}

impl Got {
    /// Nothing, from no channel.
    pub(crate) fn new(alloc: Global) -> Got
        ensures { result ≡ [] }
    {
        Got {
            by_channel: Vec::new(alloc),
        }
    }

    /// With what it got from one channel more, after the others.
    ///
    /// # Errors
    /// Where memory was refused; all is dropped then.
    pub(crate) fn with(self, answers: Answers) -> Result<Got, AllocError>
        ensures { IfOk result (λ got. got ≡ self ++ answers ∷ []) }
    {
        let mut got = self;
        got.by_channel.push(answers)?;
        Ok(got)
    }

    /// What the host got, by channel.
    pub fn as_slice(&self) -> &[Answers]
        ensures { result.now ≡ self.now }
    {
        self.by_channel.as_slice()
    }
}
