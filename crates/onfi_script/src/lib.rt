//! From the bytes of an input to the bytes of its answer: what a script sets up is planned, or a plan of it is checked.
//!
//! [`engine`] carries out a [`Command`] on an input, [`engine_split`] plans by several workers, [`engine_split_by`] does so
//! by other options.
#![tactic(auto)]

mod alone;
mod answering;
mod arrays_told;
mod auditing;
mod checking;
mod command;
mod count;
mod device;
mod device_row;
mod fault;
mod field;
mod forms;
mod laws;
mod layout;
mod members;
mod operation;
mod plan_line;
mod plan_text;
mod plan_within;
mod planning;
mod problem_row;
mod purpose;
mod reading;
mod row;
mod row_name;
mod rows;
mod run_row;
mod script;
mod sector_row;
mod sectors;
mod seen;
mod setup;
mod text;
mod transfer;
mod weights;
mod why;

pub use answering::{answer_by, engine, engine_split, engine_split_by};
pub use auditing::{AuditOptions, GapOptions, audit, audit_by, audit_gaps};
pub use command::{Command, Output, PlanOptions};
pub use count::Count;
pub use device::{Device, PageDevice};
pub use fault::{Refusal, RowStop, ScriptFault, Stop};
pub use field::number;
pub use forms::{device_of, has_page, page_bytes, page_device, row_on};
pub use laws::{strangers_are_illegal, text_is_read_back};
pub use members::group_named;
pub use operation::{Aim, Content, Operation};
pub use plan_text::{Plan, read_plan};
pub use plan_within::{PlanWithin, read_plan_within};
pub use planning::plan_by;
pub use purpose::Purpose;
pub use reading::read_rows;
pub use row::{Row, Subject};
pub use script::{after_end, script_len};
pub use setup::{Setup, is_strict, set_up};
pub use text::{Answer, answer_refusal, put_number, refuse};
pub use transfer::{EngineFault, InputFault, read_all, write_text, write_with_status};
pub use why::Why;
