//! Phase lengths of NAND operations: how long each phase of a read, a program or an erase holds the bus, and the
//! waits between them. Alone, it turns a parameter page and a timing sheet, with strobes or without, into these lengths.
#![tactic(auto)]

mod decimal;
mod fault;
mod kind;
mod lengths;
mod operation;
mod parameter;
mod records;
mod sector_posts;
mod sheet;
mod spans;
mod strobe;
mod strobe_fault;
mod strobe_values;
mod strobed;
mod strobes;
mod timing;
mod values;

pub use decimal::{read_number, read_written};
pub use fault::SheetFault;
pub use kind::Kind;
pub use operation::Operation;
pub use parameter::Parameter;
pub use records::read_records;
pub use sheet::Sheet;
pub use spans::{SpanFault, Spans};
pub use strobe::Strobe;
pub use strobe_fault::StrobeFault;
pub use strobe_values::StrobeValues;
pub use strobes::Strobes;
pub use timing::Timing;
pub use values::Values;
