ghost use Rattle.std.specs.Prelude.{◌≡◌, [], false, None};
ghost use Rattle.crossbeam_queue.specs.Passes.{view, IsPassOf, IsSamePass};
ghost use Rattle.onfi_reply.specs.declared.view.View.TheVariants.{Unopened, AtPoster};

use crate::opened_for::OpenedFor;
use crate::view::View;
use crossbeam_queue::protocol::{Join, Lesson, Outcome, Protocol, Split};
use crossbeam_queue::{Pass, RuledArrayQueue};
use onfi_request::Reply;
use std::marker::{Brand, PhantomData};

/// The rule of a completion queue, which every push and every pop keeps.
pub struct Completion;

impl Protocol<Reply, View> for Completion {
    ghost use Rattle.onfi_reply.specs.declared.view.View.TheVariants.{Unopened};
    ghost use Rattle.onfi_reply.specs.Rule.{IsRuled};

    ghost holds = { IsRuled };

    ghost first = { Unopened };
}

/// The queue that a poster and an inbox share.
pub type Line = RuledArrayQueue<Reply, View, Completion>;

/// What the poster knows as its queue opens. Each opening picks it.
pub trait Opening {
    ghost use Rattle.onfi_reply.specs.declared.view.View.{View};

    ghost first: { View };
}

impl Opening for Brand {
    ghost use Rattle.onfi_reply.specs.declared.view.View.TheVariants.{Unopened};

    ghost first = { Unopened };
}

/// The one pass of a queue becomes that of its poster.
pub struct Opens<K> {
    of: PhantomData<K>,
}

impl<K: Opening> Split<View> for Opens<K> {
    ghost use Rattle.onfi_reply.specs.declared.view.View.TheVariants.{Spent};

    ghost left = { λ v. K.first };

    ghost right = { λ v. Spent };
}

/// The poster makes the inbox's pass.
pub struct MakesInbox;

impl Split<View> for MakesInbox {
    ghost use Rattle.onfi_reply.specs.Rule.{with_inbox_made, new_inbox};

    ghost left = { with_inbox_made };

    ghost right = { new_inbox };
}

/// The poster takes the inbox's pass back.
pub struct TakesBack;

impl Join<View> for TakesBack {
    ghost use Rattle.onfi_reply.specs.declared.view.View.TheVariants.{Spent};
    ghost use Rattle.onfi_reply.specs.Rule.{with_back};

    ghost both = { with_back };

    ghost spent = { Spent };
}

/// The poster pushes a reply.
pub struct Posts;

impl Outcome<Reply, View> for Posts {
    ghost use Rattle.std.specs.Prelude.{◌≡◌};
    ghost use Rattle.onfi_reply.specs.Rule.{after_posted};

    ghost then = { λ v x w. w ≡ after_posted v x };
}

impl Lesson<Reply, View> for Posts {
    ghost use Rattle.onfi_reply.specs.Rule.{PosterSees};

    ghost fact = { PosterSees };
}

/// The inbox pops a reply.
pub struct Pops;

impl Outcome<Reply, View> for Pops {
    ghost use Rattle.std.specs.Prelude.{◌≡◌};
    ghost use Rattle.onfi_reply.specs.Rule.{after_popped, ComesNext};

    ghost then = { λ v x w. (w ≡ after_popped v x) × ComesNext v x };
}

impl Lesson<Reply, View> for Pops {
    ghost use Rattle.onfi_reply.specs.Rule.{InboxSees};

    ghost fact = { InboxSees };
}

fn pick<K: Opening>(line: &Line, opened: OpenedFor, pass: &mut Pass<Reply, View>)
    requires seat { IsPassOf line.now pass.old }
    requires unopened { view pass.old ≡ Unopened }
    requires picked { AtPoster opened [] false None ≡ K.first }
    ensures seat { IsSamePass pass.old pass.new }
    ensures opened { view pass.new ≡ AtPoster opened [] false None }
{
    let _ = opened;
    let _ = line.another::<Opens<K>>(pass);
}

/// Makes the one pass of a queue that of its poster.
pub fn open_line(line: &Line, opened: OpenedFor, pass: &mut Pass<Reply, View>)
    requires seat { IsPassOf line.now pass.old }
    requires unopened { view pass.old ≡ Unopened }
    ensures seat { IsSamePass pass.old pass.new }
    ensures opened { view pass.new ≡ AtPoster opened [] false None }
{
    pick::<Brand>(line, opened, pass);
}
