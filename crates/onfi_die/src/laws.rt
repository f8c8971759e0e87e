ghost use Rattle.onfi_die.specs.Apart.{AreApart};
ghost use Rattle.onfi_die.specs.Order.{OrderKeepsRule};
ghost use Rattle.onfi_die.specs.Rightful.{StaysRightful};

/// A law: replies that are rightful in an accepted list are rightful in every longer list that begins with it.
pub fn rightful_stays()
    ensures { StaysRightful }
{}

/// A law: requests on different blocks change places without changing contents or answers, and each block sees its own
/// requests alone.
pub fn blocks_are_apart()
    ensures { AreApart }
{}

/// A law: replies that rest on ever longer lists, each rightful in its own, keep the rule of a completion queue: each
/// beginning is rightful in what its last reply rests on.
pub fn order_keeps_the_rule()
    ensures { OrderKeepsRule }
{}
