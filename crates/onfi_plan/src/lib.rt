//! What is asked of a planner: the trait [`Planner`], plans with their certificates, what these show, and the plain planner,
//! which is exact. Alone, it says what a planner of one's own has to prove; whoever takes a planner needs no other crate.
#![tactic(auto)]

mod laws;
mod plain;
mod plan;
mod planner;
mod spelling;

pub use laws::none_ends_before;
pub use onfi_planner::{Limit, PlanFault};
pub use plain::PlainPlanner;
pub use plan::{Certificate, Plan};
pub use planner::Planner;
pub use spelling::certificate_text;
