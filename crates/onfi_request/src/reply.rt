use crate::answer::Answer;
use crate::basis::Basis;

/// The answer to one accepted item.
#[derive(Debug, Drop)]
pub struct Reply {
    /// The host that sent the item.
    pub host: u8,
    /// The item's number among those that the host sent to the channel.
    pub serial: u32,
    /// The item's position in the channel's accepted list.
    pub place: u64,
    pub answer: Answer,
    /// What the answer rests on, for contracts alone.
    pub basis: Basis,
}
