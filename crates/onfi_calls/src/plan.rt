//! Plans of batches that plain structs say.
ghost use Rattle.std.specs.Prelude.{◌≡◌, IfOk, IfErr};
ghost use Rattle.onfi_calls.specs.Plan as spec;

use crate::channel::{PlainChannel, PlainWant};
use crate::plain_schedule::legal_schedule;
use crate::problem::read_problem;
use crate::room::give;
use crate::schedule::PlainPlanned;
use crate::status::Status;
use onfi_plan::{Limit, Plan, Planner, certificate_text};
use onfi_planners::{By, Nodes, Weights, make_better};
use onfi_problem::Problem;
use std::alloc::Global;

/// How much each request counts: the wants by their places, and for each LUN the members of its running group.
#[repr(C)]
#[derive(Clone, Copy)]
pub struct PlainWeights {
    pub want: [u16; 8],
    pub running: [[u16; 4]; 8],
}

/// How a batch is planned: by how many nodes at most, 1 to 1,048,576; by the plain search (0), within the limit (1) or by the rule
/// (2); and whether the plan is made better, so that requests end early by their weights.
#[repr(C)]
#[derive(Clone, Copy)]
pub struct PlainOptions {
    pub limit: u32,
    pub by: u8,
    pub early: bool,
    pub weights: PlainWeights,
}

/// A plan, and the text of its certificate.
#[derive(Drop)]
pub struct Found {
    pub plan: PlainPlanned,
    pub text: Vec<u8>,
}

/// The way to plan that has this number.
fn by_of(by: u8) -> Option<By>
    ensures { result ≡ spec.by_of by }
{
    match by {
        0 => Some(By::Plain),
        1 => Some(By::Within),
        2 => Some(By::Rule),
        _ => None,
    }
}

/// The weights, as planners have them.
fn weights_of(weights: &PlainWeights) -> Weights
    ensures { result ≡ spec.weights_of weights.now }
{
    Weights {
        wants: weights.want,
        running: weights.running,
    }
}

/// The plan that the options ask for.
fn make_plan(
    alloc: Global,
    problem: &Problem,
    by: By,
    limit: Limit,
    options: &PlainOptions,
) -> Result<Plan, Status>
    requires { limit ≡ options.now.limit }
    ensures plan { IfOk result (spec.IsPlanned by options.now problem.now) }
    ensures none { IfErr result (spec.IsUnplanned by problem.now.problem options.now.limit) }
{
    let plan = match by.plan(alloc, problem, limit) {
        Ok(plan) => plan,
        Err(fault) => return Err(Status::of_plan(fault)),
    };
    if !options.early {
        return Ok(plan);
    }
    let weights = weights_of(&options.weights);
    match make_better(alloc, problem, plan, &weights, Nodes::usual()) {
        Ok(better) => Ok(better),
        Err(_) => Err(Status::Memory),
    }
}

/// .. as plain structs and a text.
fn write_plan(
    alloc: Global,
    problem: &Problem,
    by: By,
    limit: Limit,
    options: &PlainOptions,
) -> Result<Found, Status>
    requires { limit ≡ options.now.limit }
    ensures plan { IfOk result (λ f. spec.IsPlan by options.now problem.now f.plan f.text.items) }
    ensures none { IfErr result (spec.IsUnplanned by problem.now.problem options.now.limit) }
{
    let own = match make_plan(alloc, problem, by, limit, options) {
        Ok(own) => own,
        Err(status) => return Err(status),
    };
    let plan = PlainPlanned {
        schedule: legal_schedule(problem, &own.schedule),
        finish: own.finish,
        below: own.below,
        opened: own.opened,
    };
    match certificate_text(alloc, problem.rules().strict, own.certificate) {
        Ok(text) => Ok(Found { plan, text }),
        Err(_) => Err(Status::Memory),
    }
}

/// The same of a batch that is said.
fn find_plan(
    alloc: Global,
    channel: &PlainChannel,
    wants: &[PlainWant],
    options: &PlainOptions,
) -> Result<Found, Status>
    ensures found { IfOk result (λ f. spec.IsFound channel.now wants.now options.now f.plan f.text.items) }
    ensures none { IfErr result (spec.IsNoPlan channel.now wants.now options.now) }
{
    let Some(by) = by_of(options.by) else {
        return Err(Status::BadBy);
    };
    let Some(limit) = Limit::of(options.limit) else {
        return Err(Status::BadLimit);
    };
    match read_problem(alloc, channel, wants) {
        Ok(problem) => write_plan(alloc, &problem, by, limit, options),
        Err(status) => Err(status),
    }
}

/// Gives a text where there is room for any, and says how many bytes it has.
fn give_asked(text: &[u8], room: &mut [u8], bytes: &mut usize) -> u32
    ensures { spec.GivesAsked text.now room.old room.new bytes.new result }
{
    if room.is_empty() {
        *bytes = text.len();
        return 0;
    }
    give(text, 0, room, bytes)
}

/// Plans the wants of a channel as the options say: the schedule, when it ends, before which time nothing ends, how many nodes the
/// search opened, and where `certificate` has room for any byte, the text of the certificate that shows it. `bytes`
/// says how many bytes that text has.
///
/// By the plain search nothing ends before the plan, and the certificate is one of tokens. Within the limit, and by the rule of
/// [`plan_by_rule`](onfi_steady::plan_by_rule), which searches nothing, it is one that remembers states.
///
/// Answers 0, or 3 where the certificate has more bytes than there is room for, which is then as it was; or the number of a
/// [`Status`], and nothing is given.
pub fn onfi_plan(
    alloc: Global,
    channel: &PlainChannel,
    wants: &[PlainWant],
    options: &PlainOptions,
    plan: &mut PlainPlanned,
    certificate: &mut [u8],
    bytes: &mut usize,
) -> u32
    ensures { spec.GivesPlan channel.now wants.now options.now plan.old plan.new certificate.old certificate.new bytes.new result }
{
    match find_plan(alloc, channel, wants, options) {
        Ok(found) => {
            *plan = found.plan;
            give_asked(found.text.as_slice(), certificate, bytes)
        }
        Err(status) => {
            *bytes = 0;
            status.number()
        }
    }
}
