ghost use Rattle.std.specs.Prelude.{◌≡◌};

use onfi_cert::Token;
use onfi_planner::Planned;
use onfi_schedule::Schedule;

/// What shows that no legal schedule ends before a time.
#[derive(Drop)]
pub enum Certificate {
    /// Tokens, as `onfi_check` checks them.
    Tokens(Vec<Token>),
    /// The text of tokens that remember states, as `onfi_known_check` checks it.
    Text(Vec<u8>),
}

/// A schedule of a problem, how far it is from the best at most, and the certificate that shows it.
#[derive(Drop)]
pub struct Plan {
    /// For each LUN the starts of the phases that are left of its running group, and the new groups by rising first
    /// start; in ns of the channel's clock.
    pub schedule: Schedule,
    /// When the last phase ends, in ns; where no phase is left, from when on the bus is free.
    pub finish: u64,
    /// No legal schedule ends before this, in ns. Where it is the finish, none ends before this one.
    pub below: u64,
    /// What shows that.
    pub certificate: Certificate,
    /// How many nodes the search opened, or its last walk where it walks several times; 0 by the rule, which searches nothing.
    pub opened: u32,
}

impl Plan {
    /// The plan of a search that opened so many nodes, before whose finish nothing ends.
    pub fn of(planned: Planned, opened: u32) -> Plan
        ensures schedule { result.schedule ≡ planned.schedule }
        ensures finish { result.finish ≡ planned.finish }
        ensures below { result.below ≡ planned.finish }
        ensures certificate { result.certificate ≡ Certificate.Tokens planned.cert }
        ensures opened { result.opened ≡ opened }
    {
        let Planned {
            schedule,
            finish,
            cert,
        } = planned;
        Plan {
            schedule,
            finish,
            below: finish,
            certificate: Certificate::Tokens(cert),
            opened,
        }
    }
}
