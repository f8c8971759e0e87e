ghost use Rattle.std.specs.Prelude.{◌≡◌, []};
ghost use Rattle.crossbeam_queue.specs.Passes.{view, IsPassOf, IsSamePass};
ghost use Rattle.onfi_queue.specs.declared.view.View.TheVariants.{Unopened, AtIntake};

use crate::opened::Opened;
use crate::view::View;
use crossbeam_queue::protocol::{Join, Lesson, Outcome, Protocol, Split};
use crossbeam_queue::{Pass, RuledArrayQueue};
use onfi_request::Item;
use std::marker::{Brand, PhantomData};

/// The rule of a submission queue, which every push and every pop keeps.
pub struct Submission;

impl Protocol<Item, View> for Submission {
    ghost use Rattle.onfi_queue.specs.declared.view.View.TheVariants.{Unopened};
    ghost use Rattle.onfi_queue.specs.Rule.{IsRuled};

    ghost holds = { IsRuled };

    ghost first = { Unopened };
}

/// The queue that the ends of a channel share.
pub type Line = RuledArrayQueue<Item, View, Submission>;

/// What the intake knows as its queue opens. Each opening picks it.
pub trait Opening {
    ghost use Rattle.onfi_queue.specs.declared.view.View.{View};

    ghost first: { View };
}

impl Opening for Brand {
    ghost use Rattle.onfi_queue.specs.declared.view.View.TheVariants.{Unopened};

    ghost first = { Unopened };
}

/// The one pass of a queue becomes that of its intake.
pub struct Opens<K> {
    of: PhantomData<K>,
}

impl<K: Opening> Split<View> for Opens<K> {
    ghost use Rattle.onfi_queue.specs.declared.view.View.TheVariants.{Spent};

    ghost left = { λ v. K.first };

    ghost right = { λ v. Spent };
}

/// The intake makes the pass of the next host.
pub struct MakesHost;

impl Split<View> for MakesHost {
    ghost use Rattle.onfi_queue.specs.Rule.{with_host_made, next_host};

    ghost left = { with_host_made };

    ghost right = { next_host };
}

/// The intake takes a host's pass back.
pub struct TakesBack;

impl Join<View> for TakesBack {
    ghost use Rattle.onfi_queue.specs.declared.view.View.TheVariants.{Spent};
    ghost use Rattle.onfi_queue.specs.Rule.{with_back};

    ghost both = { with_back };

    ghost spent = { Spent };
}

/// A host pushes an item.
pub struct Sends;

impl Outcome<Item, View> for Sends {
    ghost use Rattle.std.specs.Prelude.{◌≡◌};
    ghost use Rattle.onfi_queue.specs.Rule.{after_sent};

    ghost then = { λ v x w. w ≡ after_sent v x };
}

impl Lesson<Item, View> for Sends {
    ghost use Rattle.onfi_queue.specs.Rule.{HostSees};

    ghost fact = { HostSees };
}

/// The intake pops an item.
pub struct Accepts;

impl Outcome<Item, View> for Accepts {
    ghost use Rattle.std.specs.Prelude.{◌≡◌};
    ghost use Rattle.onfi_queue.specs.Rule.{after_accepted, ComesNext};

    ghost then = { λ v x w. (w ≡ after_accepted v x) × ComesNext v x };
}

impl Lesson<Item, View> for Accepts {
    ghost use Rattle.onfi_queue.specs.Rule.{IntakeSees};

    ghost fact = { IntakeSees };
}

fn pick<K: Opening>(line: &Line, opened: Opened, pass: &mut Pass<Item, View>)
    requires seat { IsPassOf line.now pass.old }
    requires unopened { view pass.old ≡ Unopened }
    requires picked { AtIntake opened [] 0 [] ≡ K.first }
    ensures seat { IsSamePass pass.old pass.new }
    ensures opened { view pass.new ≡ AtIntake opened [] 0 [] }
{
    let _ = opened;
    let _ = line.another::<Opens<K>>(pass);
}

/// Makes the one pass of a queue that of its intake.
pub fn open_line(line: &Line, opened: Opened, pass: &mut Pass<Item, View>)
    requires seat { IsPassOf line.now pass.old }
    requires unopened { view pass.old ≡ Unopened }
    ensures seat { IsSamePass pass.old pass.new }
    ensures opened { view pass.new ≡ AtIntake opened [] 0 [] }
{
    pick::<Brand>(line, opened, pass);
}
