ghost use Rattle.std.specs.Prelude.{◌≡◌, ◌<◌, ◌^◌, true, false};
ghost use Rattle.onfi_chip.specs.Numbers.{fails_at, failed, one_more};

/// Calls of one sort, numbered from 0, of which those with certain numbers fail.
#[derive(Debug, Drop)]
pub struct Numbered {
    failing: Vec<u32>,
    /// Calls so far; it stays at the greatest `u64`, which no number of a failing call reaches.
    made: u64,
}

impl Numbered {
    /// No call yet.
    pub(crate) fn new(failing: Vec<u32>) -> Numbered
        ensures none { failed result.failing.items result.made ≡ 0 }
        ensures failing { result.failing.items ≡ failing.items }
        ensures made { result.made ≡ 0 }
    {
        Numbered { failing, made: 0 }
    }

    /// Whether the next call fails.
    pub(crate) fn fails(&self) -> bool
        ensures value { result ≡ fails_at self.now.failing.items self.now.made }
        ensures early { result ≡ true → self.now.made < 2 ^ 32 }
    {
        let made = self.made;
        for n in self.failing.as_slice() {
            if u64::from(*n) == made {
                return true;
            }
        }
        false
    }

    /// Counts a call.
    pub(crate) fn step(&mut self)
        requires { fails_at self.old.failing.items self.old.made ≡ true → self.old.made < 2 ^ 32 }
        ensures failed { fails_at self.old.failing.items self.old.made ≡ true
            → failed self.old.failing.items self.old.made < failed self.new.failing.items self.new.made }
        ensures fine { fails_at self.old.failing.items self.old.made ≡ false
            → failed self.new.failing.items self.new.made ≡ failed self.old.failing.items self.old.made }
        ensures failing { self.new.failing.items ≡ self.old.failing.items }
        ensures made { self.new.made ≡ one_more self.old.made }
    {
        self.made = self.made.saturating_add(1);
    }

    /// Counts a call, and answers whether it fails.
    pub(crate) fn count(&mut self) -> bool
        ensures value { result ≡ fails_at self.old.failing.items self.old.made }
        ensures failed { result ≡ true → failed self.old.failing.items self.old.made < failed self.new.failing.items self.new.made }
        ensures fine { result ≡ false → failed self.new.failing.items self.new.made ≡ failed self.old.failing.items self.old.made }
        ensures failing { self.new.failing.items ≡ self.old.failing.items }
        ensures made { self.new.made ≡ one_more self.old.made }
    {
        let fails = self.fails();
        self.step();
        fails
    }
}
