ghost use Rattle.std.specs.Prelude.{◌≡◌, IfSome, IfNone};
ghost use Rattle.onfi_problem.specs.Problem.{Problem as AProblem};
ghost use Rattle.onfi_plan.specs.Certificate.{IsPlain};
ghost use Rattle.onfi_core.specs.View.{below_in, certificate_in, finish_in, planning_by, planning_with, schedule_in};

use onfi_plan::{Certificate, Plan};
use onfi_planner::Planned;
use onfi_problem::Problem;
use onfi_schedule::Schedule;

/// The plan of an accepting planning, by the kind of its certificate.
#[derive(Drop)]
pub enum LastPlan {
    /// One with tokens; nothing ends before `below`, in ns.
    Tokens {
        planned: Planned,
        below: u64,
    },
    /// One with the text of tokens that remember states.
    Text {
        schedule: Schedule,
        finish: u64,
        below: u64,
        text: Vec<u8>,
    },
}

impl LastPlan {
    /// The same plan, without how many nodes were opened.
    pub(crate) fn of(plan: Plan) -> LastPlan
        ensures { (p : AProblem) → planning_by p result ≡ planning_with p plan }
    {
        let Plan {
            schedule,
            finish,
            below,
            certificate,
            ..
        } = plan;
        match certificate {
            Certificate::Tokens(cert) => LastPlan::Tokens {
                planned: Planned {
                    schedule,
                    finish,
                    cert,
                },
                below,
            },
            Certificate::Text(text) => LastPlan::Text {
                schedule,
                finish,
                below,
                text,
            },
        }
    }

    /// Its schedule.
    pub fn schedule(&self) -> &Schedule
        ensures { result.now ≡ schedule_in self.now }
    {
        match self {
            LastPlan::Tokens { planned, .. } => &planned.schedule,
            LastPlan::Text { schedule, .. } => schedule,
        }
    }

    /// When it ends, in ns.
    pub fn finish(&self) -> u64
        ensures { result ≡ finish_in self.now }
    {
        match self {
            LastPlan::Tokens { planned, .. } => planned.finish,
            LastPlan::Text { finish, .. } => *finish,
        }
    }

    /// Before what nothing ends, in ns.
    pub fn below(&self) -> u64
        ensures { result ≡ below_in self.now }
    {
        match self {
            LastPlan::Tokens { below, .. } => *below,
            LastPlan::Text { below, .. } => *below,
        }
    }

    /// The plan as the plain search gives it: where it has tokens, and nothing ends sooner.
    pub(crate) fn plain(&self) -> Option<&Planned>
        ensures found { IfSome result (λ planned. self.now ≡ LastPlan.Tokens planned.now planned.now.finish) }
        ensures none { IfNone result (IsPlain (certificate_in self.now) → below_in self.now ≡ finish_in self.now → ⊥) }
    {
        match self {
            LastPlan::Tokens { planned, below } if *below == planned.finish => Some(planned),
            _ => None,
        }
    }
}

/// An accepting planning.
#[derive(Drop)]
pub struct Batch {
    /// What was planned.
    pub problem: Problem,
    /// Its plan.
    pub plan: LastPlan,
}
