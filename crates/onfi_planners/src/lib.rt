//! Planners for the channels of a core, beside the plain one of `onfi_plan`: plans within a limit, which always come, plans by the
//! rule, which searches nothing, and plans made better, so that requests end early. Alone, it plans a problem as was chosen when
//! the program runs, says what a schedule costs, and makes a plan better without losing what is proved of it.
#![tactic(auto)]

mod aim;
mod by;
mod chosen;
mod cost;
mod floor;
mod improving;
mod line;
mod nodes;
mod seen;
mod walk;
mod weighing;
mod weights;

pub use by::By;
pub use chosen::{ChosenPlanner, Early};
pub use cost::cost_of;
pub use improving::{Better, make_better, make_better_counted};
pub use nodes::Nodes;
pub use onfi_plan::PlainPlanner;
pub use weighing::Weighing;
pub use weights::Weights;
