/// What came of the replies that are held for a host, or for several.
#[derive(Clone, Copy)]
pub(crate) enum Offer {
    /// The oldest of them was posted.
    Posted,
    /// Some are held, and the queue of each of their hosts was full.
    Full,
    /// None is held.
    Nothing,
}
