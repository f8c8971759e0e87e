//! The request that a command is of.

ghost use Rattle.std.specs.Prelude.{◌≡◌, ◌↔◌, None, Some, IsTrue, IfSome, IfNone, MatchOption, false, slice_get};
ghost use Rattle.std.specs.List.{AllByRecursion as Each};
ghost use Rattle.onfi_group.specs.Words.{Has};
ghost use Rattle.onfi_audit.specs.Audit.{Names, first_at};

use crate::line::Line;
use onfi_request::Want;

/// The request that waits first on that block.
pub(crate) fn first_at(wants: &[Want], lun: u8, block: u16) -> Option<Want>
    ensures { result ≡ first_at wants.now lun block }
{
    for want in wants {
        if want.lun == lun && want.block == block {
            return Some(*want);
        }
    }
    None
}

/// The first request that waits and that the line names.
pub(crate) fn first_named(wants: &[Want], line: &Line) -> Option<Want>
    ensures some { IfSome result (λ w. Has wants.now w × Names line.now w) }
    ensures none { IfNone result (Each (λ w. Names line.now w → ⊥) wants.now) }
{
    for want in wants {
        if line.names(want) {
            return Some(*want);
        }
    }
    None
}

/// The first of these requests that the line names, and where it stands.
pub(crate) fn find_named(wants: &[Want], line: &Line) -> Option<(usize, Want)>
    ensures there { IfSome result (λ p. slice_get wants.now p.0 ≡ Some p.1) }
    ensures named { IfSome result (λ p. Names line.now p.1) }
    ensures none { IfNone result (Each (λ w. Names line.now w → ⊥) wants.now) }
{
    for (at, want) in wants.iter().enumerate() {
        if line.names(want) {
            return Some((at, *want));
        }
    }
    None
}
