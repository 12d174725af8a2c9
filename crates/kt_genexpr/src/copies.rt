//! Copies of requests, which instructions carry.
ghost use Rattle.std.specs.Prelude.{◌≡◌, IfOk};

use kt_tree::{Part, Request};
use sqlite_items::Items;
use std::alloc::{AllocError, Global};

// A copy of a part of a format.
fn copy_part(alloc: Global, part: &Part) -> Result<Part, AllocError>
    ensures { IfOk result (λ p. p ≡ part.now) }
{
    match part {
        Part::Bytes(bytes) => Ok(Part::Bytes(Items::from_slice(alloc, bytes.as_slice())?)),
        Part::Number => Ok(Part::Number),
        Part::Byte => Ok(Part::Byte),
        Part::Text => Ok(Part::Text),
    }
}

fn copy_parts(alloc: Global, parts: &[Part]) -> Result<Items<Part>, AllocError>
    ensures { IfOk result (λ ps. ps ≡ parts.now) }
{
    let mut copies = Items::new(alloc);
    for part in parts {
        copies.push(copy_part(alloc, part)?)?;
    }
    Ok(copies)
}

/// A copy of a request.
pub fn copy_request(alloc: Global, request: &Request) -> Result<Request, AllocError>
    ensures { IfOk result (λ r. r ≡ request.now) }
{
    match request {
        Request::Load => Ok(Request::Load),
        Request::Store => Ok(Request::Store),
        Request::Allocate(element, zeros) => Ok(Request::Allocate(*element, *zeros)),
        Request::Release => Ok(Request::Release),
        Request::Lock => Ok(Request::Lock),
        Request::Unlock => Ok(Request::Unlock),
        Request::InitMutex => Ok(Request::InitMutex),
        Request::GetChar => Ok(Request::GetChar),
        Request::PutChar => Ok(Request::PutChar),
        Request::Puts => Ok(Request::Puts),
        Request::Print(parts) => Ok(Request::Print(copy_parts(alloc, parts.as_slice())?)),
        Request::Create(function) => Ok(Request::Create(*function)),
        Request::Join => Ok(Request::Join),
        Request::Point(point) => Ok(Request::Point(*point)),
        Request::IsUpdating => Ok(Request::IsUpdating),
        Request::IsUpdatingFrom(point) => Ok(Request::IsUpdatingFrom(*point)),
        Request::Automigrate => Ok(Request::Automigrate),
        Request::MigrateLocal(local) => Ok(Request::MigrateLocal(*local)),
    }
}
