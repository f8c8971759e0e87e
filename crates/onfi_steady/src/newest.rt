ghost use Rattle.std.specs.Prelude.{◌≡◌};
ghost use Rattle.onfi_steady.specs.Waiting.{newest_with};
ghost use Rattle.onfi_steady.specs.Dispatcher.{newest_in};

use onfi_request::Want;
use onfi_timing::Kind;

/// The number of the newest accepted program, where there is one.
#[repr(C)]
#[derive(Clone, Copy)]
pub struct Newest {
    pub number: u64,
    pub is_there: bool,
}

impl Newest {
    /// The number.
    pub fn number(&self) -> Option<u64>
        ensures { result ≡ newest_in self.now }
    {
        if self.is_there {
            Some(self.number)
        } else {
            None
        }
    }

    /// Once this request was accepted.
    pub fn with(&self, want: &Want) -> Newest
        ensures { newest_in result ≡ newest_with (newest_in self.now) want.now.kind want.now.id }
    {
        match want.kind {
            Kind::Program => Newest {
                number: want.id,
                is_there: true,
            },
            Kind::Read | Kind::ReadSectors { .. } | Kind::Erase => *self,
        }
    }
}
