//! The parameter page of an ONFI device: from the bytes that a device hands over, the first good copy and its fields.
//!
//! [`read_page`] takes the bytes of one or more copies as the command Read Parameter Page (ECh) gives them and answers a
//! [`ParamPage`], which has a reader for each field that the addressing and the timing of the device rest on.
//! [`crc16`] is the check value of the page. No call takes memory.
#![tactic(auto)]

mod crc;
mod fault;
mod page;
mod reading;

pub use crc::crc16;
pub use fault::PageFault;
pub use page::ParamPage;
pub use reading::read_page;
