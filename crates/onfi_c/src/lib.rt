//! The calls of `onfi_calls`, exported for C and for what calls C.
//!
//! Each export makes one call and has its contract. `include/onfi.h` says the same for callers that see no contract.
#![tactic(auto)]

mod auditing;
mod checking;
mod devices;
mod dispatching;
mod driving;
mod planning;
mod texts;
