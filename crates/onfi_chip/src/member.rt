use onfi_addr::Place;
use onfi_die::Prepared;

/// A member of a group that didn't happen yet.
#[derive(Debug, Drop)]
pub struct Member {
    pub place: Place,
    pub operation: Prepared,
}
