use thiserror::Error;

/// Why what was given is not a problem of the program. The first that holds is reported; `NoLengths` stands last, and comes
/// before `Clock`.
#[derive(Clone, Copy, Debug, PartialEq, Eq, Error)]
pub enum ProblemFault {
    /// More than eight wants, no LUN, or more than eight.
    #[error("more than 8 wants, or not 1 to 8 LUNs")]
    TooMany,
    /// A want's LUN is not there, its plane is above 3, or it is an erase with a page; numbers of the list do not
    /// rise; or what runs on a LUN is not a group of it, or has no phase done, or none left.
    #[error("a want, or a running group, that the LUNs cannot have")]
    BadLun,
    /// By the sum of all times the problem may end at 2^62 ns or later.
    #[error("times that reach 2^62 ns")]
    Clock,
    /// Memory for the table of groups was refused.
    #[error("memory was refused")]
    Memory,
    /// The timing states no lengths for a want or a member of what runs: no post for its sectors (from
    /// [`Timing::with_sectors`](onfi_timing::Timing::with_sectors)). It is reported before `Clock`, whose sum needs the lengths.
    #[error("sectors without lengths")]
    NoLengths,
}
