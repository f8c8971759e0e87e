use onfi_script::Answer;

/// What is answered to the script of a run, and what the bus of each channel carried.
#[derive(Drop)]
pub struct Traced {
    pub answer: Answer,
    /// By channel a line for each phase in rising start, as `plan --requests` prints a trace; requests are numbered in the order
    /// in which they begin. None where no trace was asked for, or memory for a line was refused; of a refused script there are
    /// none at all.
    pub traces: Vec<Option<Vec<u8>>>,
}
