use crate::opened::Opened;
use onfi_request::Item;
use std::collections::LinkedList;

/// What the holder of a pass of a submission queue knows. No value of it is made: contracts alone name it.
pub enum View {
    /// The one pass of a queue that isn't opened yet.
    Unopened,
    /// A host, with its number and all items that it sent.
    AtHost {
        opened: Opened,
        number: u8,
        sent: LinkedList<Item>,
    },
    /// The intake, with all items that it accepted, how many hosts were made, and what each host that was taken back
    /// had sent.
    AtIntake {
        opened: Opened,
        accepted: LinkedList<Item>,
        made: u64,
        back: LinkedList<LinkedList<Item>>,
    },
    /// A pass that was given back.
    Spent,
}
