/// What went through a channel.
#[derive(Clone, Copy, Debug, PartialEq, Eq)]
pub struct Closed {
    /// How many items each host sent.
    pub sent: [u64; 4],
    /// How many items were accepted.
    pub accepted: u64,
    /// How many replies were posted.
    pub posted: u64,
}
