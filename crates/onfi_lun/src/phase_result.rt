use onfi_request::Answer;

/// What the chip gave at a phase.
#[derive(Debug, Drop)]
pub enum PhaseResult {
    /// It took a command, or the last command of a group.
    Command,
    /// It gave this answer to a member, at its post.
    Post(Answer),
}
