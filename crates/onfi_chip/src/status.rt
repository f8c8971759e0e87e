ghost use Rattle.std.specs.Prelude.{MatchOption, IsBitSet};
ghost use Rattle.onfi_chip.specs.Calls.{TellsAnswer, IsStatus};

use onfi_request::Answer;

/// The answer that a status byte gives (ONFI 4.2, status field definition): bit 6 is RDY, bit 0 FAIL; `None` where RDY is
/// 0, the LUN isn't ready. No other bit is looked at.
pub fn decode_status(byte: u8) -> Option<Answer>
    ensures { MatchOption result (¬ IsBitSet byte 6) (λ answer. IsBitSet byte 6 × TellsAnswer byte answer) }
{
    if byte & 0x40 == 0 {
        return None;
    }
    Some(if byte & 1 == 0 {
        Answer::Done
    } else {
        Answer::Failed
    })
}

/// The status byte of a ready LUN: RDY, ARDY and WP_n are set, and FAIL as the answer says.
pub(crate) fn encode_status(answer: &Answer) -> u8
    ensures ready { IsBitSet result 6 }
    ensures array_ready { IsBitSet result 5 }
    ensures not_protected { IsBitSet result 7 }
    ensures told { IsStatus answer.now → TellsAnswer result answer.now }
{
    match answer {
        Answer::Failed => 0xe1,
        Answer::Read(_) | Answer::Done => 0xe0,
    }
}
