/// How much each request counts: a request of weight 2 counts as two of weight 1, and one of weight 0 doesn't.
#[derive(Clone, Copy)]
pub struct Weights {
    /// For each want, by its place among the wants that the problem began with.
    pub wants: [u16; 8],
    /// For each LUN the members of the group that runs on it as the problem stands, in their order. Those of members
    /// whose post is over mean nothing, nor do those of LUNs that run none.
    pub running: [[u16; 4]; 8],
}
