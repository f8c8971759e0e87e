use onfi_addr::Place;
use onfi_request::Answer;
use onfi_timing::Kind;

/// A member of a group that happened, and whose answer wasn't fetched yet.
#[derive(Debug, Drop)]
pub struct Post {
    pub kind: Kind,
    pub place: Place,
    pub answer: Answer,
}
