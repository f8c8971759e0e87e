//! The planner, the checker and the audit over numbers, plain structs and bytes, as callers from C give them.
//!
//! Each public function makes one call of the crates below, and says the same of plain values; `onfi_c` exports it.
#![tactic(auto)]

mod audit;
mod audit_begin;
mod audit_phase;
mod broken;
mod channel;
mod check;
mod delay;
mod device;
mod device_of_page;
mod dispatcher;
mod dispatching;
mod due;
mod flight;
mod geometry;
mod in_order;
mod laws;
mod least;
mod least_due;
mod log_broken;
mod output;
mod phase;
mod plain_dispatcher;
mod plain_schedule;
mod plan;
mod problem;
mod ran;
mod read_schedule;
mod refusal;
mod room;
mod row;
mod schedule;
mod stand;
mod status;
mod status_text;
mod taking;
mod text;
mod version;
mod words;

pub use audit::PlainAudit;
pub use audit_begin::onfi_audit_begin;
pub use audit_phase::{onfi_audit_phase, onfi_audit_ready};
pub use broken::{PlainBroken, onfi_breach};
pub use channel::{PlainChannel, PlainWant};
pub use check::onfi_check;
pub use device::{PlainDevice, PlainGeometry};
pub use device_of_page::onfi_device_of_page;
pub use dispatcher::onfi_dispatcher_begin;
pub use dispatching::{onfi_dispatcher_next, onfi_dispatcher_ran, onfi_dispatcher_ready};
pub use due::onfi_due;
pub use laws::{beginning_is_served, next_is_served, running_is_served, taking_is_served};
pub use log_broken::PlainLogBroken;
pub use output::{PlainOutput, onfi_output_of};
pub use phase::PlainPhase;
pub use plain_dispatcher::PlainDispatcher;
pub use plan::{PlainOptions, PlainWeights, onfi_plan};
pub use ran::onfi_ran;
pub use row::onfi_row;
pub use schedule::{PlainPlanned, PlainSchedule, PlainVerdict};
pub use status_text::onfi_status_text;
pub use taking::{onfi_dispatcher_accept, onfi_dispatcher_accept_again, onfi_dispatcher_cancel};
pub use text::onfi_text;
pub use version::onfi_version;
