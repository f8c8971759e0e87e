//! From what a caller says to a problem.
ghost use Rattle.std.specs.Prelude.{◌≡◌, ◌⊎◌, ◌↔◌, ◌≤◌, ◌<◌, false, true, length, replicate, IfOk, IfErr, IsTrue};
ghost use Rattle.std.specs.List.{list_any};
ghost use Rattle.onfi_problem.specs.declared.lun_state.LunState.TheVariants.{Free};
ghost use Rattle.onfi_problem.specs.Kept.{problem_of as parts_of};
ghost use Rattle.onfi_problem.specs.Problem.{HasLengths};
ghost use Rattle.onfi_calls.specs.Problem as spec;
ghost use Rattle.onfi_calls.specs.Flights.{IsNoFlight};
ghost use Rattle.onfi_calls.specs.PlainSchedule.{filled};
ghost use Rattle.onfi_calls.specs.Refused.{AreBadSpans, AreGoodKinds, AreGoodSpans, AreSaid, IsBadProblem, IsBadSaid, IsBadTiming, IsFaultSaid, IsMeasured, IsRefused, IsUnsaid, is_long};
ghost use Rattle.onfi_calls.specs.declared.schedule.PlainSchedule.{PlainSchedule as Plan};
ghost use Rattle.onfi_calls.specs.declared.status.Status.TheVariants.{Memory};

use crate::channel::{PlainChannel, PlainLengths, PlainLun, PlainRules, PlainSpans, PlainWant};
use crate::status::Status;
use arrayvec::ArrayVec;
use onfi_addr::plane_at;
use onfi_group::{Group, Rules};
use onfi_problem::{LunState, Problem, find_fault};
use onfi_request::Want;
use onfi_timing::{Kind, Spans, Timing};
use std::alloc::{AllocError, Global};

/// The lengths of a kind.
fn spans(said: &PlainSpans) -> Result<Spans, Status>
    ensures ok { IfOk result (λ spans. spec.AreSpans said.now spans × AreGoodSpans said.now) }
    ensures err { IfErr result (λ status. AreBadSpans said.now status) }
{
    match Spans::new(said.cmd, said.gap, said.array, said.post) {
        Ok(spans) => Ok(spans),
        Err(fault) => Err(Status::of_spans(fault)),
    }
}

/// The lengths of each kind.
fn whole_timing(channel: &PlainChannel) -> Result<Timing, Status>
    ensures ok { IfOk result (λ timing. spec.AreKinds channel.now.timing timing × AreGoodKinds channel.now.timing) }
    ensures err { IfErr result (IsBadTiming channel.now) }
{
    let read = spans(&channel.timing.read)?;
    let program = spans(&channel.timing.program)?;
    let erase = spans(&channel.timing.erase)?;
    Ok(Timing::new(read, program, erase))
}

/// A read of that many sectors; of all of its page where there are none.
fn read_of(count: u8) -> Kind
    ensures { result ≡ spec.read_of count }
{
    if count == 0 {
        return Kind::Read;
    }
    Kind::ReadSectors { first: 0, count }
}

/// The kind of a number.
pub fn kind_of(kind: u8) -> Kind
    ensures { result ≡ spec.kind_of kind }
{
    if kind == 0 {
        return Kind::Read;
    }
    match kind % 32 {
        0 => read_of(kind / 32 % 8),
        1 => Kind::Program,
        _ => Kind::Erase,
    }
}

/// A request of that kind.
pub fn want_with(plane_bits: u8, said: &PlainWant, kind: Kind) -> Want
    requires { plane_bits ≤ 2 }
    ensures { result ≡ record (spec.want_of plane_bits said.now) { kind = kind } }
{
    Want {
        id: said.id,
        kind,
        lun: said.lun,
        plane: plane_at(plane_bits, said.block),
        block: said.block,
        page: said.page,
    }
}

/// A request.
pub fn want_of(plane_bits: u8, said: &PlainWant) -> Want
    requires { plane_bits ≤ 2 }
    ensures { result ≡ spec.want_of plane_bits said.now }
{
    want_with(plane_bits, said, kind_of(said.kind))
}

/// At most eight requests; this takes no memory.
pub fn few_wants_of(plane_bits: u8, said: &[PlainWant]) -> ArrayVec<Want, 8>
    requires bits { plane_bits ≤ 2 }
    requires few { length said.now ≤ 8 }
    ensures { result.items ≡ spec.wants_of plane_bits said.now }
{
    let mut wants = ArrayVec::new();
    for want in said {
        wants.push(want_of(plane_bits, want));
    }
    wants
}

/// Requests.
pub fn wants_of(alloc: Global, plane_bits: u8, said: &[PlainWant]) -> Result<Vec<Want>, AllocError>
    requires { plane_bits ≤ 2 }
    ensures { IfOk result (λ v. v.items ≡ spec.wants_of plane_bits said.now) }
{
    let mut wants = Vec::with_capacity(alloc, said.len())?;
    for want in said {
        wants.push(want_of(plane_bits, want))?;
    }
    Ok(wants)
}

/// What a LUN does; this takes no memory.
pub fn state_of(alloc: Global, plane_bits: u8, said: &PlainLun) -> LunState
    requires bits { plane_bits ≤ 2 }
    requires members { spec.has_bad_count said.now ≡ false }
    ensures { result ≡ spec.state_of plane_bits said.now }
{
    if said.members == 0 {
        return LunState::Free { since: said.since };
    }
    let members = few_wants_of(plane_bits, &said.member[..said.members as usize]);
    LunState::Running {
        group: Group::of(alloc, members.as_slice()),
        next: said.next,
        ready: said.since,
    }
}

/// What each LUN does.
pub fn states_of(
    alloc: Global,
    plane_bits: u8,
    said: &[PlainLun],
) -> Result<Vec<LunState>, AllocError>
    requires bits { plane_bits ≤ 2 }
    requires members { list_any spec.has_bad_count said.now ≡ false }
    ensures { IfOk result (λ v. v.items ≡ spec.states_of plane_bits said.now) }
{
    let mut states = Vec::with_capacity(alloc, said.len())?;
    for lun in said {
        states.push(state_of(alloc, plane_bits, lun))?;
    }
    Ok(states)
}

/// Eight LUNs that are free from 0 on.
fn free_luns() -> [LunState; 8]
    ensures { result ≡ replicate 8 (Free 0) }
{
    [
        LunState::Free { since: 0 },
        LunState::Free { since: 0 },
        LunState::Free { since: 0 },
        LunState::Free { since: 0 },
        LunState::Free { since: 0 },
        LunState::Free { since: 0 },
        LunState::Free { since: 0 },
        LunState::Free { since: 0 },
    ]
}

/// What each of at most eight LUNs does, and free ones after them; this takes no memory.
pub fn few_states_of(alloc: Global, plane_bits: u8, said: &[PlainLun]) -> [LunState; 8]
    requires bits { plane_bits ≤ 2 }
    requires few { length said.now ≤ 8 }
    requires members { list_any spec.has_bad_count said.now ≡ false }
    ensures { result ≡ filled 8 (Free 0) (spec.states_of plane_bits said.now) }
{
    let mut states = free_luns();
    for (at, lun) in said.iter().enumerate() {
        states[at] = state_of(alloc, plane_bits, lun);
    }
    states
}

/// Whether a running group has more members than there are places.
pub fn have_bad_count(said: &[PlainLun]) -> bool
    ensures { result ≡ list_any spec.has_bad_count said.now }
{
    said.iter().any(|lun| lun.members > 4)
}

/// The rules of a channel.
pub fn rules(said: &PlainRules) -> Rules
    requires { said.now.plane_bits ≤ 2 }
    ensures { spec.AreRules said.now result }
{
    Rules::new(said.read, said.write, said.strict, said.plane_bits)
}

/// The problem of these parts.
fn open(
    alloc: Global,
    timing: &Timing,
    rules: Rules,
    bus_free: u64,
    luns: &[LunState],
    wants: &[Want],
) -> Result<Problem, Status>
    ensures parts { IfOk result (λ p. p.problem ≡ parts_of timing.now rules bus_free luns.now wants.now) }
    ensures begun { IfOk result (λ p. p.all ≡ p.problem.wants) }
    ensures bad { HasLengths (parts_of timing.now rules bus_free luns.now wants.now)
        → IfErr result (λ status. (status ≡ Memory) ⊎ IsBadProblem false (parts_of timing.now rules bus_free luns.now wants.now) status) }
{
    match Problem::new(alloc, *timing, rules, bus_free, luns, wants) {
        Ok(problem) => Ok(problem),
        Err(fault) => Err(Status::of_problem(fault)),
    }
}

/// The same of what is given, whose numbers are in their ranges, with these lengths of all that is put out.
// A problem has some thousand bytes, and each call that isn't inlined hands it on by a copy.
#[inline(always)]
fn open_said(
    alloc: Global,
    timing: &Timing,
    channel: &PlainChannel,
    wants: &[PlainWant],
) -> Result<Problem, Status>
    requires { IsMeasured channel.now wants.now timing.now }
    ensures said { IfOk result (λ p. spec.IsSaid channel.now wants.now p.problem) }
    ensures begun { IfOk result (λ p. p.all ≡ p.problem.wants) }
    ensures bad { IfErr result (IsBadSaid channel.now wants.now) }
{
    let plane_bits = channel.rules.plane_bits;
    let luns = &channel.lun[..channel.lun_count as usize];
    let Ok(luns) = states_of(alloc, plane_bits, luns) else {
        return Err(Status::Memory);
    };
    let Ok(wants) = wants_of(alloc, plane_bits, wants) else {
        return Err(Status::Memory);
    };
    open(
        alloc,
        timing,
        rules(&channel.rules),
        channel.bus_free,
        luns.as_slice(),
        wants.as_slice(),
    )
}

/// Whether a post is too long.
fn have_long(posts: &[u64]) -> bool
    ensures { result ≡ list_any is_long posts.now }
{
    posts.iter().any(|post| *post >= 1 << 50)
}

/// Whether a request is of no kind.
fn has_bad_kind(said: &[PlainWant]) -> bool
    ensures { result ≡ list_any spec.has_bad_kind said.now }
{
    said.iter().any(|want| want.kind % 32 > 2)
}

/// Whether a member of a running group is of no kind.
fn has_bad_member(said: &PlainLun) -> bool
    ensures { result ≡ spec.has_bad_member said.now }
{
    said.member
        .iter()
        .take(said.members as usize)
        .any(|want| want.kind % 32 > 2)
}

/// The same of several LUNs.
fn have_bad_member(said: &[PlainLun]) -> bool
    ensures { result ≡ list_any spec.has_bad_member said.now }
{
    said.iter().any(|lun| has_bad_member(lun))
}

/// The lengths of a channel, where all numbers of what is given are in their ranges.
pub fn read_timing(channel: &PlainChannel, wants: &[PlainWant]) -> Result<Timing, Status>
    ensures timing { IfOk result (λ timing. spec.IsTiming channel.now timing) }
    ensures said { IfOk result (λ _. AreSaid channel.now wants.now) }
    ensures unsaid { IfErr result (IsUnsaid channel.now wants.now) }
{
    if channel.lun_count > 8 {
        return Err(Status::TooMany);
    }
    let timing = match whole_timing(channel) {
        Ok(timing) => timing,
        Err(status) => return Err(status),
    };
    if have_long(&channel.lengths.sectors) {
        return Err(Status::LongSpan);
    }
    if channel.rules.plane_bits > 2 {
        return Err(Status::BadPlaneBits);
    }
    let luns = &channel.lun[..channel.lun_count as usize];
    if have_bad_count(luns) {
        return Err(Status::BadMembers);
    }
    if have_bad_member(luns) || has_bad_kind(wants) {
        return Err(Status::BadKind);
    }
    Ok(timing.with_posts(&channel.lengths.sectors))
}

/// Whether a request puts out sectors that have no length.
pub fn lacks_length(lengths: &PlainLengths, want: &PlainWant) -> bool
    ensures { result ≡ spec.lacks_length lengths.now want.now }
{
    let count = want.kind / 32 % 8;
    if count == 0 {
        return false;
    }
    want.kind % 32 != 0 || lengths.sectors[usize::from(count) - 1] == 0
}

/// Whether a member of a running group does.
fn has_lacking(lengths: &PlainLengths, said: &PlainLun) -> bool
    ensures { result ≡ spec.has_lacking lengths.now said.now }
{
    said.member
        .iter()
        .take(said.members as usize)
        .any(|want| lacks_length(lengths, want))
}

/// Whether one of several LUNs does.
fn luns_lack(lengths: &PlainLengths, luns: &[PlainLun]) -> bool
    ensures { result ≡ list_any (spec.has_lacking lengths.now) luns.now }
{
    luns.iter().any(|lun| has_lacking(lengths, lun))
}

/// Whether one of several requests does.
fn wants_lack(lengths: &PlainLengths, wants: &[PlainWant]) -> bool
    ensures { result ≡ list_any (spec.lacks_length lengths.now) wants.now }
{
    wants.iter().any(|want| lacks_length(lengths, want))
}

/// Whether any of what is given does.
fn have_lacking(channel: &PlainChannel, wants: &[PlainWant]) -> bool
    requires { channel.now.lun_count ≤ 8 }
    ensures { result ≡ spec.have_lacking channel.now wants.now }
{
    luns_lack(&channel.lengths, &channel.lun[..channel.lun_count as usize])
        || wants_lack(&channel.lengths, wants)
}

/// Whether more requests are said than a problem may have.
fn are_many(wants: &[PlainWant]) -> bool
    ensures { IsTrue result ↔ (8 < length wants.now) }
{
    wants.len() > 8
}

/// Why there is no problem of what is given, where it has sectors without lengths.
fn refuse_lacking(
    alloc: Global,
    timing: &Timing,
    channel: &PlainChannel,
    wants: &[PlainWant],
) -> Status
    requires said { AreSaid channel.now wants.now }
    requires timing { spec.IsTiming channel.now timing.now }
    requires lacking { spec.have_lacking channel.now wants.now ≡ true }
    ensures { IsFaultSaid channel.now wants.now result }
{
    if are_many(wants) {
        return Status::TooMany;
    }
    let plane_bits = channel.rules.plane_bits;
    let luns = &channel.lun[..channel.lun_count as usize];
    let states = few_states_of(alloc, plane_bits, luns);
    let states = &states[..luns.len()];
    let wants = few_wants_of(plane_bits, wants);
    let rules = rules(&channel.rules);
    Status::of_lacking(find_fault(timing, &rules, channel.bus_free, states, wants.as_slice()))
}

/// The lengths of a channel, where all numbers of what is given are in their ranges and all that is put out has a length.
fn measure(alloc: Global, channel: &PlainChannel, wants: &[PlainWant]) -> Result<Timing, Status>
    ensures measured { IfOk result (IsMeasured channel.now wants.now) }
    ensures refused { IfErr result (IsRefused channel.now wants.now) }
    ensures none { (schedule : Plan) → IfErr result (IsNoFlight channel.now wants.now schedule) }
{
    let timing = read_timing(channel, wants)?;
    if have_lacking(channel, wants) {
        return Err(refuse_lacking(alloc, &timing, channel, wants));
    }
    Ok(timing)
}

/// The problem that a caller says.
pub fn read_problem(
    alloc: Global,
    channel: &PlainChannel,
    wants: &[PlainWant],
) -> Result<Problem, Status>
    ensures said { IfOk result (λ p. spec.IsSaid channel.now wants.now p.problem) }
    ensures lengths { IfOk result (λ _. spec.have_lacking channel.now wants.now ≡ false) }
    ensures begun { IfOk result (λ p. p.all ≡ p.problem.wants) }
    ensures refused { IfErr result (IsRefused channel.now wants.now) }
{
    match measure(alloc, channel, wants) {
        Ok(timing) => open_said(alloc, &timing, channel, wants),
        Err(status) => Err(status),
    }
}

/// The lengths of a channel, where it is no more than a problem may have, too.
pub fn measure_few(
    alloc: Global,
    channel: &PlainChannel,
    wants: &[PlainWant],
) -> Result<Timing, Status>
    ensures measured { IfOk result (IsMeasured channel.now wants.now) }
    ensures few { IfOk result (λ _. length wants.now ≤ 8) }
    ensures none { (schedule : Plan) → IfErr result (IsNoFlight channel.now wants.now schedule) }
{
    let timing = measure(alloc, channel, wants)?;
    if are_many(wants) {
        return Err(Status::TooMany);
    }
    Ok(timing)
}
