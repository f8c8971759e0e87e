/// From when on a LUN that runs a group is ready for its next phase.
#[derive(Clone, Copy, Debug, PartialEq, Eq)]
pub enum Readies {
    /// When its stated times are over.
    Stated,
    /// Then, or from a moment on at which a line `START LUN ready` of the log says that its status reported it ready.
    Reported,
}
