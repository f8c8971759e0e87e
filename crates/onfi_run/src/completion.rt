use onfi_request::Answer;
use onfi_timing::Kind;

/// What is known of an operation of a host. Moments are ns of the run's clock, and 0 in a run without one.
#[derive(Drop)]
pub struct Completion {
    pub kind: Kind,
    /// When it arrived at its host, where a row says so; else it arrives as it is submitted.
    pub arrives: Option<u64>,
    /// The answer, where it came; it suits the kind.
    pub answer: Option<Answer>,
    /// When the host put it into the submission queue.
    pub sent: u64,
    /// When the host collected its reply; where none came, as `sent`.
    pub at: u64,
}
