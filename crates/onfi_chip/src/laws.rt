ghost use Rattle.onfi_chip.specs.Alone.{PostsAreAlone};

use onfi_die::blocks_are_apart;

/// A law: where the members of a group are on different blocks, each has the answer that it has alone.
pub fn posts_are_alone()
    ensures { PostsAreAlone }
{
    blocks_are_apart();
}
