//! What the program and a person say to each other: the command line, and a message in words beside an answer.
//!
//! [`words`] reads a command line, and [`read_words`] says what is wrong with it too; [`message`] says why an answer refuses a
//! script, a plan or a certificate, and where. [`describe`] shows what a parameter page says of its device.
#![tactic(auto)]

mod absent;
mod cautions;
mod command_line;
mod commands;
mod device;
mod escaping;
mod fault;
mod fields;
mod guess;
mod help;
mod input;
mod judged;
mod lines;
mod logged;
mod parsed;
mod place;
mod ran;
mod rows;
mod saying;
mod script;

pub use command_line::{is_quiet, read_words, words};
pub use device::describe;
pub use escaping::{escape_bytes, escape_text};
pub use fault::{Untaken, WordsFault};
pub use input::Input;
pub use onfi_planners::By;
pub use onfi_script::{
    Command, EngineFault, GapOptions, Output, PlanOptions, audit, audit_gaps, engine, engine_split,
};
pub use parsed::{CommandName, Named, Parsed, RunBy, RunOptions};
pub use saying::message;
