/// Which requests a log is of.
#[derive(Clone, Copy, Debug, PartialEq, Eq)]
pub enum Requests {
    /// Those that were accepted before it.
    Accepted,
    /// Each command that begins one mentions its own, which is accepted then: a read of a whole page, a program or an erase.
    Mentioned,
}
