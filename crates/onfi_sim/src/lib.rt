//! What the program does, as calls: a script's problem is planned or a plan of it checked ([`engine`], by several workers
//! [`engine_split`]), its operations are run ([`run_script`]), and a command line is read ([`words`]) and carried out
//! ([`carry_out`]). Alone, it gives all that a program over readers and writers of its own needs.
#![tactic(auto)]

mod carrying_out;

pub use carrying_out::{carry_out, run_traced};
pub use onfi_console::{
    By, Command, CommandName, EngineFault, GapOptions, Named, Output, Parsed, PlanOptions, RunBy,
    RunOptions, WordsFault, audit, audit_gaps, describe, engine, engine_split, words,
};
pub use onfi_planners::ChosenPlanner;
pub use onfi_run::{Gate, Limit, NoGate, Traced, Way, run_script};
