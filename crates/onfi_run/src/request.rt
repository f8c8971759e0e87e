//! The request of an operation, and why a device doesn't take it.
ghost use Rattle.std.specs.Prelude.{◌≡◌, IfOk};
ghost use Rattle.onfi_core.specs.Steps.{fault_of as spec_fault_of};
ghost use Rattle.onfi_run.specs.Requests as spec;

use onfi_addr::Geometry;
use onfi_request::{Bytes, Request, RequestFault, check};
use onfi_script::{Content, Operation};
use std::alloc::{AllocError, Global};

/// The bytes of a row, which a program writes.
fn bytes_of(alloc: Global, geometry: &Geometry, content: &Content) -> Result<Bytes, AllocError>
    ensures { IfOk result (λ b. b ≡ spec.bytes_of geometry.now content.now) }
{
    match content {
        Content::Given(bytes) => {
            let mut copy = Vec::new(alloc);
            copy.extend_from_slice(bytes.as_slice())?;
            Ok(Bytes::of(copy))
        }
        Content::Filled(byte) => Ok(Bytes::of(Vec::from_elem(
            alloc,
            *byte,
            usize::from(geometry.page_bytes()),
        )?)),
    }
}

/// The request of an operation to a device of this geometry.
///
/// # Errors
/// Where memory was refused.
pub fn request_of(
    alloc: Global,
    geometry: &Geometry,
    operation: &Operation,
) -> Result<Request, AllocError>
    ensures { IfOk result (λ r. r ≡ spec.request_of geometry.now operation.now) }
{
    let bytes = bytes_of(alloc, geometry, &operation.content)?;
    Ok(Request {
        kind: operation.aim.kind,
        place: operation.aim.place,
        bytes,
    })
}

/// Why the device doesn't take an operation, where it doesn't.
pub fn request_fault(
    alloc: Global,
    geometry: &Geometry,
    operation: &Operation,
) -> Result<Option<RequestFault>, AllocError>
    ensures { IfOk result (λ f. f ≡ spec_fault_of geometry.now (spec.request_of geometry.now operation.now)) }
{
    let request = request_of(alloc, geometry, operation)?;
    Ok(fault_of(geometry, &request))
}

/// The first fault of a request, if it has one.
fn fault_of(geometry: &Geometry, request: &Request) -> Option<RequestFault>
    ensures { result ≡ spec_fault_of geometry.now request.now }
{
    check(geometry, request).err()
}
