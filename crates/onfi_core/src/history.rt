ghost use Rattle.std.specs.Prelude.{◌≡◌, List, [], ◌∷◌, ◌++◌, Option, None, Some, option_to_list};
ghost use Rattle.std.specs.Borrow.{ftrue};
ghost use Rattle.onfi_request.specs.declared.request.Item.{Item as AnItem};
ghost use Rattle.onfi_request.specs.declared.reply.Reply.{Reply as AReply};

use onfi_request::{Item, Reply};
use std::marker::Model;

/// The lists of a half, or of a channel, that no field keeps, for contracts alone: they take no memory. A channel's are
/// those of its hosts, and hold nothing.
#[derive(Drop)]
pub struct History {
    /// What came in: a half accepted it, or hosts sent it.
    pub ghost accepted: { List AnItem },
    /// The replies that are made and not posted, the oldest first.
    pub ghost held: { List AReply },
    /// What went out: a half posted it, or hosts collected it.
    pub ghost posted: { List AReply },
    /// The held reply that is on its way out.
    pub ghost lent: { Option AReply },
}

impl Model for History {
    ghost also_owns = { λ _. ftrue };
}

// It owns nothing.
unsafe impl Send for History {}

impl History {
    /// The lists that the caller's proof picks, from the two values that it shows.
    pub fn of<T, U>(_list: &T, _more: &U) -> History
        ghost all: { List AnItem × List AReply × List AReply × Option AReply }
        ensures { (result.accepted ≡ all.0) × (result.held ≡ all.1) × (result.posted ≡ all.2) × (result.lent ≡ all.3) }
    {
        History {}
    }

    /// Nothing yet.
    pub fn new() -> History
        ensures { (result.accepted ≡ []) × (result.held ≡ []) × (result.posted ≡ []) × (result.lent ≡ None) }
    {
        History::of(&(), &())
    }

    /// With one item more.
    pub fn with_accepted(&self, item: &Item) -> History
        ensures { (result.accepted ≡ self.now.accepted ++ item.now ∷ []) × (result.held ≡ self.now.held) × (result.posted ≡ self.now.posted) × (result.lent ≡ self.now.lent) }
    {
        History::of(self, item)
    }

    /// With one reply more that is held, if there is one.
    pub fn with_held(&self, reply: &Option<Reply>) -> History
        ensures { (result.accepted ≡ self.now.accepted) × (result.held ≡ self.now.held ++ option_to_list reply.now) × (result.posted ≡ self.now.posted) × (result.lent ≡ self.now.lent) }
    {
        History::of(self, reply)
    }

    /// A held reply is on its way out.
    pub fn with_lent(&self, reply: &Reply) -> History
        ensures { (result.accepted ≡ self.now.accepted) × (result.held ≡ self.now.held) × (result.posted ≡ self.now.posted) × (result.lent ≡ Some reply.now) }
    {
        History::of(self, reply)
    }

    /// The reply that was on its way out is held as before.
    pub fn without_lent(&self) -> History
        ensures { (result.accepted ≡ self.now.accepted) × (result.held ≡ self.now.held) × (result.posted ≡ self.now.posted) × (result.lent ≡ None) }
    {
        History::of(self, &())
    }

    /// The reply that was on its way out is posted; these are held.
    pub fn with_posted(&self, held: &Vec<Reply>) -> History
        ensures { (result.accepted ≡ self.now.accepted) × (result.held ≡ held.now.items) × (result.posted ≡ self.now.posted ++ option_to_list self.now.lent) × (result.lent ≡ None) }
    {
        History::of(self, held)
    }

    /// With one reply more that went out.
    pub fn with_collected(&self, reply: &Reply) -> History
        ensures { (result.accepted ≡ self.now.accepted) × (result.held ≡ self.now.held) × (result.posted ≡ self.now.posted ++ reply.now ∷ []) × (result.lent ≡ self.now.lent) }
    {
        History::of(self, reply)
    }
}
