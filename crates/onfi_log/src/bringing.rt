//! Requests that the lines of a log bring.
ghost use Rattle.std.specs.Prelude.{◌≡◌, IfOk};
ghost use Rattle.onfi_log.specs.Judging as spec;

use crate::requests::Requests;
use onfi_audit::{Audit, Line, LunStage};
use onfi_timing::{Kind, Operation};
use std::alloc::AllocError;

/// What a request asks for whose command does this.
fn kind_of(operation: Operation) -> Kind
    ensures { result ≡ spec.kind_of operation }
{
    match operation {
        Operation::Read => Kind::Read,
        Operation::Program => Kind::Program,
        Operation::Erase => Kind::Erase,
    }
}

/// Whether a request of that operation may name the page.
fn takes_page(operation: Operation, page: u16) -> bool
    ensures { result ≡ spec.takes_page operation page }
{
    match operation {
        Operation::Read | Operation::Program => true,
        Operation::Erase => page == 0,
    }
}

/// Whether the line is a command that begins a request.
pub(crate) fn begins_request(audit: &Audit, line: &Line) -> bool
    ensures { result ≡ spec.begins audit.now line.now }
{
    if line.is_post {
        return false;
    }
    match audit.luns().get(usize::from(line.lun)) {
        Some(LunStage::Free { .. } | LunStage::Open { .. }) => true,
        Some(LunStage::Running { .. }) | None => false,
    }
}

/// Whether the line, which begins a request where `begins` says so, brings it.
fn brings(requests: Requests, begins: bool, line: &Line) -> bool
    ensures { result ≡ spec.brings_where requests begins line.now }
{
    match requests {
        Requests::Accepted => false,
        Requests::Mentioned => begins && takes_page(line.operation, line.page),
    }
}

/// Accepts the request that the line brings, which begins one where `begins` says so; whether it brings one.
///
/// # Errors
/// Where memory was refused.
pub(crate) fn bring_where(
    audit: &mut Audit,
    requests: Requests,
    begins: bool,
    line: &Line,
) -> Result<bool, AllocError>
    requires { begins ≡ spec.begins audit.old line.now }
    ensures brings { IfOk result (λ b. b ≡ spec.brings_by requests audit.old line.now) }
    ensures brought { IfOk result (λ b. audit.new ≡ spec.brought_by requests audit.old line.now) }
{
    if !brings(requests, begins, line) {
        return Ok(false);
    }
    let kind = kind_of(line.operation);
    match audit.accept(kind, line.lun, line.block, line.page) {
        Ok(_) => Ok(true),
        Err(_) => Err(AllocError),
    }
}

/// Accepts the request that the line brings: where the log mentions its requests, that of a command on a LUN that is free or whose
/// group may get members more, if its operation may name the page. Whether it brings one.
///
/// # Errors
/// Where memory was refused.
pub fn bring(audit: &mut Audit, requests: Requests, line: &Line) -> Result<bool, AllocError>
    ensures brings { IfOk result (λ b. b ≡ spec.brings_by requests audit.old line.now) }
    ensures brought { IfOk result (λ b. audit.new ≡ spec.brought_by requests audit.old line.now) }
{
    let begins = begins_request(audit, line);
    bring_where(audit, requests, begins, line)
}
