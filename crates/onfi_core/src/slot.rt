use onfi_request::Item;

/// An accepted item to which no reply was posted.
#[derive(Drop)]
pub struct Slot {
    /// Its position in the accepted list.
    pub place: u64,
    pub item: Item,
}
