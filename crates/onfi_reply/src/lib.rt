//! The completion queue of a host on a channel: one poster puts replies in, and one inbox, mostly on another thread,
//! takes them out. Alone, it gives a bounded queue whose replies are each rightful, with those before it, in what it
//! rests on.
//!
//! A [`Poster`] and an [`Inbox`] can't be cloned: each holds its pass of the queue, and `&mut self` keeps its calls in
//! one thread at a time. A post that succeeds is one push; [`Inbox::collect`] and [`Inbox::take_in`] each take at most
//! one pop, and nothing else changes what the queue holds. No lock stands round it. No contract says that a call of these
//! three returns, nor that what waits is ever collected.
#![tactic(auto)]

mod inbox;
mod inbox_seat;
mod opened_for;
mod opening;
mod poster;
mod poster_seat;
mod rule;
mod view;

pub use inbox::Inbox;
pub use opened_for::OpenedFor;
pub use opening::open;
pub use poster::Poster;
