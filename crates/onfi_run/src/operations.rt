//! The operations of a host on a channel.
ghost use Rattle.std.specs.Prelude.{◌≡◌, IfSome, IfNone, Some, None};
ghost use Rattle.onfi_run.specs.Operations as spec;

use onfi_script::{Operation, Row};
use onfi_timing::Kind;

/// The operation that a row gives, where it is one of that host.
pub(crate) fn operation_of(row: &Row, host: u8) -> Option<&Operation>
    ensures some { IfSome result (λ operation. spec.operation_of host row.now ≡ Some operation.now) }
    ensures none { IfNone result (spec.operation_of host row.now ≡ None) }
{
    match row {
        Row::Op(operation) if operation.aim.host == host => Some(operation),
        _ => None,
    }
}

/// The kind of that operation, where it is one on that channel too.
pub(crate) fn kind_in(row: &Row, host: u8, channel: u8) -> Option<Kind>
    ensures { result ≡ spec.kind_in host channel row.now }
{
    let operation = operation_of(row, host)?;
    if operation.aim.channel == channel {
        Some(operation.aim.kind)
    } else {
        None
    }
}
