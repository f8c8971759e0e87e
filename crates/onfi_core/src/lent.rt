/// Where the reply that is on its way out stood among those held, and its place.
#[derive(Clone, Copy, Debug)]
pub struct Lent {
    pub at: usize,
    pub place: u64,
}
