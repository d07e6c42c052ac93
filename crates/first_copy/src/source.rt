//! The source of the transactions of a copy.

ghost use Rattle.std.specs.Prelude.{◌≡◌, ◌/◌, IfOk, slice_index};
ghost use Rattle.first_copy.specs.CopySources.{source_of};

use crate::head::FIRST;
use std::alloc::{AllocError, Global};
use uuid::Uuid;

/// The source of the transactions of a copy: a UUID of version 5, in the namespace of object identifiers, made of its first
/// line, of the text of its executed set, of the SHA-1 of the lines after its head, and of that of the description of its tables.
/// RFC 9562, 5.5 "UUID Version 5" and 6.6.
pub fn copy_source(
    alloc: Global,
    executed: &str,
    digest: &[u8; 20],
    described: &[u8; 20],
) -> Result<[u8; 16], AllocError>
    ensures value { IfOk result (λ source. source ≡ source_of executed.now digest.now
        described.now) }
    ensures version { IfOk result (λ source. slice_index source 6 / 16 ≡ 5) }
{
    let mut name = Vec::new(alloc);
    name.extend_from_slice(FIRST)?;
    name.extend_from_slice(executed.as_bytes())?;
    name.extend_from_slice(digest)?;
    name.extend_from_slice(described)?;
    Ok(Uuid::new_v5(&Uuid::NAMESPACE_OID, &name).into_bytes())
}
