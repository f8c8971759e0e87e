use crate::lun::Lun;

/// A move that failed: why, and the LUN in the state that it had.
#[derive(Debug, Drop)]
pub struct Refused<F, S> {
    pub fault: F,
    pub lun: Lun<S>,
}
