//! Plans batches: the schedule that no legal schedule beats, with the certificate that shows it.
#![tactic(auto)]

mod branches;
mod certificate;
mod closing;
mod dealing;
mod fault;
mod first;
mod gate;
mod limit;
mod parts;
mod placing;
mod planned;
mod planning;
mod root;
mod search;
mod split;
mod yields;

pub use fault::PlanFault;
pub use gate::{NoGate, PartGate};
pub use limit::Limit;
pub use placing::schedule_of;
pub use planned::{Counted, Planned};
pub use planning::{plan, plan_counted};
pub use root::{Root, root_of};
pub use search::{Begun, Best, Stop};
pub use split::plan_split;
