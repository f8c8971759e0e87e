//! The state machine of channels over events, in one thread: submissions, acceptances, plannings, bus phases, posts and
//! collections.
#![tactic(auto)]

mod batch;
mod channel;
mod drive;
mod event;
mod finding;
mod half;
mod history;
mod host_queue;
mod known;
mod laws;
mod lent;
mod machine;
mod oldest;
mod outcome;
mod planning;
mod setup;
mod slot;
mod wants;
mod way;

pub use batch::LastPlan;
pub use drive::{PhaseStop, cause_of, run_due};
pub use event::Event;
pub use half::passing::{ReadyRefusal, WaitRefusal};
pub use half::{AcceptFault, DueRefusal, Half, PlanRefusal};
pub use laws::{
    accepting_reached, batch_reached, events_reach, finish_is_best, headline, idle_is, next_behind,
    nothing_held, opened_is_reached, plain_is_plain, planned_step, posted_in_order,
    posting_reached, reached_keeps, run_keeps, step_keeps, step_reaches,
};
pub use machine::{Core, CoreFault};
pub use onfi_lun::{DriveFault, PhaseResult};
pub use outcome::{Cause, Outcome};
pub use setup::{Choice, Setup, SetupFault};
