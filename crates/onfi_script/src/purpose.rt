/// What the rows of a script are read for.
#[derive(Clone, Copy)]
pub enum Purpose {
    /// A problem, which is planned or whose plan is checked.
    Problem,
    /// Operations of hosts, which are run on channels.
    Run,
    /// Operations of hosts, which are run on channels by a clock, from their moments of arrival on.
    Clocked,
}
