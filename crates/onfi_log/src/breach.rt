use onfi_audit::LogBreach;
use onfi_timing::Operation;

/// Why a line of a log isn't legal. LUNs count from 0, times are ns of the channel's clock.
#[derive(Clone, Copy, Debug, PartialEq, Eq)]
pub enum LineBreach {
    /// Its phase breaks this condition.
    Condition(LogBreach),
    /// A post, while the closer of the LUN's last command says that another plane's command comes.
    NotClosed {
        lun: u8,
    },
    /// Its END isn't when its phase ends.
    OtherEnd {
        end: u64,
        ends: u64,
    },
    /// Its opener and closer aren't those of such a phase, of a command that is the last of its group or isn't.
    OtherBytes {
        operation: Operation,
        is_post: bool,
        is_last: bool,
    },
}
