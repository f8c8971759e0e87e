ghost use Rattle.std.specs.Prelude.{◌≤◌, Bool, true, false};

/// Nothing runs.
#[derive(Clone, Copy, Debug, PartialEq, Eq)]
pub struct Idle;

/// Some commands of a group were given, and more follow.
#[derive(Clone, Copy, Debug, PartialEq, Eq)]
pub struct Queuing {
    /// How many, 1 to 4.
    pub commands: u8,
    /// From then on the next may start, in ns.
    pub ready: u64,
    pub ghost some: { 1 ≤ commands },
    pub ghost few: { commands ≤ 4 },
}

/// All commands of a group were given: the array works.
#[derive(Clone, Copy, Debug, PartialEq, Eq)]
pub struct Working {
    /// How many members the group has, 1 to 4.
    pub members: u8,
    /// The array time is over then, in ns.
    pub ready: u64,
    pub ghost some: { 1 ≤ members },
    pub ghost few: { members ≤ 4 },
}

/// The array time of a group is over, and some of its posts are left.
#[derive(Clone, Copy, Debug, PartialEq, Eq)]
pub struct Posting {
    /// How many, 1 to 4.
    pub left: u8,
    /// From then on the next may start, in ns.
    pub ready: u64,
    pub ghost some: { 1 ≤ left },
    pub ghost few: { left ≤ 4 },
}

/// What a LUN does, of which contracts know whether it may post.
pub trait Phase {
    ghost posts: { Bool };
}

impl Phase for Idle {
    ghost posts = { false };
}

impl Phase for Queuing {
    ghost posts = { false };
}

impl Phase for Working {
    ghost posts = { false };
}

impl Phase for Posting {
    ghost posts = { true };
}
