use onfi_request::RequestFault;
use thiserror::Error;

/// Why a request wasn't sent. Of those that hold, it is `Refused` that is reported, else `SerialsSpent`, else `Full`.
#[derive(Clone, Copy, Debug, PartialEq, Eq, Error)]
pub enum SubmitFault {
    /// The queue was full at one moment of the call.
    #[error("the queue was full")]
    Full,
    /// The device doesn't take the request.
    #[error("refused: {0}")]
    Refused(RequestFault),
    /// The host sent 4,294,967,296 items to this channel, and no serial is left.
    #[error("no serial is left")]
    SerialsSpent,
}
