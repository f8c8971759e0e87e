//! Texts of logs: what each line says, and whether the log is legal, or which line breaks which condition. Alone, it judges a log
//! of any length that begins with a channel as an [`Audit`](onfi_audit::Audit) has it.
#![tactic(auto)]

mod answer;
mod breach;
mod bringing;
mod bytes;
mod entry;
mod judged;
mod judging;
pub mod laws;
mod line;
mod manner;
mod parts;
mod readies;
mod requests;

pub use answer::LogAnswer;
pub use breach::LineBreach;
pub use bringing::bring;
pub use bytes::Bytes;
pub use entry::{LogEntry, Sign, read_entry};
pub use judging::{judge_log, judge_log_by};
pub use line::{LogLine, is_comment, read_line};
pub use manner::{Manner, Statuses};
pub use parts::cut;
pub use readies::Readies;
pub use requests::Requests;
