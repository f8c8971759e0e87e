//! Checks of schedules that plain structs say.
ghost use Rattle.std.specs.Prelude.{◌≡◌, IfOk, IfErr};
ghost use Rattle.onfi_schedule.specs.Schedule.{finish};
ghost use Rattle.onfi_calls.specs.Check as spec;

use crate::channel::{PlainChannel, PlainWant};
use crate::refusal::Refusal;
use crate::schedule::{PlainSchedule, PlainVerdict};
use crate::stand::{Stand, read_stand};
use crate::status::Status;
use onfi_cert::CertTextFault;
use onfi_check::{TextFault, check_text};
use onfi_known_check::{check_known_text, check_known_within};
use std::alloc::Global;

/// When the schedule ends, in ns, where a certificate that remembers states shows what is asked.
fn judge_known(alloc: Global, stand: &Stand, below: u64, certificate: &[u8]) -> Result<u64, Refusal>
    requires begun { stand.now.problem.all ≡ stand.now.problem.problem.wants }
    requires other { spec.IsOtherKind stand.now.problem.problem stand.now.schedule certificate.now }
    ensures shown { IfOk result (λ ends. spec.IsShown stand.now.problem.problem stand.now.schedule below certificate.now) }
    ensures finish { IfOk result (λ ends. finish stand.now.problem.problem stand.now.schedule ≡ ends) }
    ensures refused { IfErr result (spec.IsUnshown stand.now.problem.problem stand.now.schedule below certificate.now) }
{
    if below == 0 {
        return match check_known_text(alloc, &stand.problem, &stand.schedule, certificate) {
            Ok(finish) => Ok(finish),
            Err(fault) => Err(Refusal::of_known_text(fault)),
        };
    }
    match check_known_within(alloc, &stand.problem, &stand.schedule, below, certificate) {
        Ok(finish) => Ok(finish),
        Err(fault) => Err(Refusal::of_known_text(fault)),
    }
}

/// Whether a text is no plain certificate by its header line.
fn is_header(fault: TextFault) -> bool
    ensures { result ≡ spec.is_header fault }
{
    match fault {
        TextFault::Text(CertTextFault::Header) => true,
        TextFault::Text(CertTextFault::BadToken(_)) => false,
        TextFault::Text(CertTextFault::TooLong) => false,
        TextFault::Text(CertTextFault::Memory) => false,
        TextFault::Cert(_) => false,
        TextFault::Option => false,
    }
}

/// When the schedule ends, in ns, where its certificate, of either kind, shows what is asked.
fn judge(alloc: Global, stand: &Stand, below: u64, certificate: &[u8]) -> Result<u64, Refusal>
    requires begun { stand.now.problem.all ≡ stand.now.problem.problem.wants }
    ensures shown { IfOk result (λ ends. spec.IsShown stand.now.problem.problem stand.now.schedule below certificate.now) }
    ensures finish { IfOk result (λ ends. finish stand.now.problem.problem stand.now.schedule ≡ ends) }
    ensures refused { IfErr result (spec.IsUnshown stand.now.problem.problem stand.now.schedule below certificate.now) }
{
    match check_text(alloc, &stand.problem, &stand.schedule, certificate) {
        Ok(finish) => {
            if finish < below {
                return Err(Refusal::whole(Status::EndsBefore));
            }
            Ok(finish)
        }
        Err(fault) => {
            if is_header(fault) {
                return judge_known(alloc, stand, below, certificate);
            }
            Err(Refusal::of_text(fault))
        }
    }
}

/// Gives a verdict.
fn give_verdict(judged: Result<u64, Refusal>, verdict: &mut PlainVerdict) -> u32
    ensures accepted { IfOk judged (λ ends. (verdict.new.finish ≡ ends) × (verdict.new.place ≡ 0) × (result ≡ 0)) }
    ensures refused { IfErr judged (λ refusal. spec.IsRefusedBy refusal verdict.new result) }
{
    match judged {
        Ok(finish) => {
            *verdict = PlainVerdict { finish, place: 0 };
            0
        }
        Err(refusal) => {
            *verdict = PlainVerdict {
                finish: 0,
                place: refusal.place,
            };
            refusal.status.number()
        }
    }
}

/// Checks by the text of a certificate that no legal schedule of a channel's wants ends before `below`, in ns, and that this one is
/// legal and doesn't either; where `below` is 0, that none ends sooner than this one. Says when it ends, in ns. The header of the
/// certificate says which kind it is; a plain one shows that none ends sooner. Who made the schedule and the certificate need not be
/// trusted. Of a certificate that remembers states a record of each open node is kept, at most 1,048,576.
///
/// Answers 0 where it is so; else the number of a [`Status`], with the place of the token that it speaks of, counted from 0.
pub fn onfi_check(
    alloc: Global,
    channel: &PlainChannel,
    wants: &[PlainWant],
    schedule: &PlainSchedule,
    below: u64,
    certificate: &[u8],
    verdict: &mut PlainVerdict,
) -> u32
    ensures { spec.GivesVerdict channel.now wants.now schedule.now below certificate.now verdict.new result }
{
    match read_stand(alloc, channel, wants, schedule) {
        Ok(stand) => give_verdict(judge(alloc, &stand, below, certificate), verdict),
        Err(status) => give_verdict(Err(Refusal::whole(status)), verdict),
    }
}
