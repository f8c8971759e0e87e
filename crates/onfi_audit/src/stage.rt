ghost use Rattle.std.specs.Prelude.{◌≡◌};

use onfi_group::Group;

/// What a LUN does by a log. Times are ns of the channel's clock.
#[derive(Drop)]
pub enum LunStage {
    /// Nothing; a command may come from `since`.
    Free { since: u64 },
    /// A group all members of which are known: phase `next` may start from `ready`.
    Running { group: Group, next: u8, ready: u64 },
    /// Commands alone, so far of these members: a further one may join from `more`, or the first post start from `ready`.
    Open { group: Group, more: u64, ready: u64 },
}

impl LunStage {
    /// The same stage once more; this takes no memory.
    pub fn copy(&self) -> LunStage
        ensures { result ≡ self.now }
    {
        match self {
            LunStage::Free { since } => LunStage::Free { since: *since },
            LunStage::Running { group, next, ready } => LunStage::Running {
                group: group.copy(),
                next: *next,
                ready: *ready,
            },
            LunStage::Open { group, more, ready } => LunStage::Open {
                group: group.copy(),
                more: *more,
                ready: *ready,
            },
        }
    }
}
