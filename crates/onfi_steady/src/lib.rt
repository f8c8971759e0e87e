//! Plans by a rule, without a search: of each LUN the group that it would begin, of all LUNs the phase that starts soonest,
//! one phase after another. Alone, it makes a legal schedule of a problem in one pass, and says how far that is from the best
//! at most.
#![tactic(auto)]

mod begin;
mod below;
mod bus;
mod dispatch;
mod dispatcher;
mod due_phase;
mod fault;
mod finding;
mod first;
mod group_phase;
mod group_spans;
mod kind_spans;
mod laws;
mod line;
mod line_left;
mod lun_books;
mod newest;
mod next;
mod offer;
mod own;
mod planning;
mod ready;
mod run;
mod slot;
mod turn;
mod waiter;

pub use dispatch::run_by_rule;
pub use dispatcher::Dispatcher;
pub use fault::{AcceptFault, RanFault, ReadyFault};
pub use group_phase::GroupPhase;
pub use laws::{
    accepting_is_fair, beginning_is_fair, cancelling_is_fair, channel_follows_dispatcher,
    channel_follows_phase, channel_follows_request, none_starves, one_phase_is_next,
    ready_by_states, rising_requests_are_accepted, running_is_fair,
};
pub use next::NextPhase;
pub use planning::plan_by_rule;
pub use waiter::Waiter;
