use crate::opened_for::OpenedFor;
use onfi_request::Reply;
use std::collections::LinkedList;

/// What the holder of a pass of a completion queue knows. No value of it is made: contracts alone name it.
pub enum View {
    /// The one pass of a queue that isn't opened yet.
    Unopened,
    /// The poster, with all replies that it posted, whether the inbox was made, and, once that was taken back, all
    /// replies that it had popped.
    AtPoster {
        opened: OpenedFor,
        posted: LinkedList<Reply>,
        made: bool,
        back: Option<LinkedList<Reply>>,
    },
    /// The inbox, with all replies that it popped.
    AtInbox {
        opened: OpenedFor,
        popped: LinkedList<Reply>,
    },
    /// A pass that was given back.
    Spent,
}
