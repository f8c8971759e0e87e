//! What the threads of a run show each other.
use crate::channels::Channels;
use std::array;
use std::sync::atomic::{AtomicU64, Ordering};

/// What the threads of a run show each other: which hosts have ended, and which channels. It carries no fact that a contract
/// rests on.
#[derive(Drop)]
pub(crate) struct Board {
    hosts: [AtomicU64; 4],
    channels: [AtomicU64; 4],
}

/// Marks one of these as ended, if it is there.
fn end(flags: &[AtomicU64; 4], number: usize) {
    if let Some(flag) = flags.get(number) {
        flag.store(1, Ordering::SeqCst);
    }
}

/// Whether it ended.
fn has_ended(flag: &AtomicU64) -> bool {
    flag.load(Ordering::SeqCst) != 0
}

impl Board {
    /// Nobody has ended.
    pub(crate) fn new() -> Board {
        Board {
            hosts: array::from_fn(|_| AtomicU64::new(0)),
            channels: array::from_fn(|_| AtomicU64::new(0)),
        }
    }

    /// A host has made its last operation, or is not used.
    pub(crate) fn end_host(&self, host: u8) {
        end(&self.hosts, usize::from(host));
    }

    /// Whether all hosts have made their last operation.
    pub(crate) fn have_hosts_ended(&self) -> bool {
        self.hosts.iter().all(has_ended)
    }

    /// A channel makes no more turns in its thread.
    pub(crate) fn end_channel(&self, channel: usize) {
        end(&self.channels, channel);
    }

    /// A thread can't be made: all that others wait for has ended.
    pub(crate) fn give_up(&self) {
        for number in 0..4u8 {
            self.end_host(number);
            self.end_channel(usize::from(number));
        }
    }
}

impl Channels for &Board {
    ghost use Rattle.std.specs.Prelude.{[]};

    ghost queues = { λ board. [] };

    ghost ended = { λ board channel ended. Unit {0} };

    ghost woken = { λ board channel board'. Unit {0} };

    fn has_ended(&self, channel: usize) -> bool {
        self.channels.get(channel).is_none_or(has_ended)
    }

    /// Its channel looks for requests by itself.
    fn wake(&mut self, _: usize) {}
}
