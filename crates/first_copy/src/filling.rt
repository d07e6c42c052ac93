//! The next line of a reader.

ghost use Rattle.std.specs.Prelude.{◌≡◌, ◌<◌, ◌++◌, ◌∷◌, [], ℕ, List, length, IfSome, IfNone, IfErr, OnOk};
ghost use Rattle.first_copy.specs.CopyFaults.{IsFillFault, IsReaderFault, OnTooMany};
ghost use Rattle.std.specs.Io.KnownBytes.{prepend_known, Keeps};

use crate::copy_fault::CopyFault;
use std::io;
use std::io::{BufRead, ErrorKind};

/// Reads the line of this number, unless one is held: up to its newline, which has to stand there.
pub(crate) fn fill<R: BufRead>(
    reader: &mut R,
    line: &mut Vec<u8>,
    number: u64,
) -> Result<(), CopyFault>
    ensures some { OnOk result (0 < length line.new.items) }
    ensures kept { OnOk result (Keeps (prepend_known line.old.items (R.Read.remaining reader.old))
        (prepend_known line.new.items (R.Read.remaining reader.new))) }
    ensures fault { IfErr result (λ fault. IfSome
        (prepend_known line.old.items (R.Read.remaining reader.old))
        (λ text. IsFillFault number text fault)) }
    ensures other { IfErr result (λ fault. OnTooMany fault ⊥) }
{
    if line.len() > 0 {
        return Ok(());
    }
    match reader.read_until(b'\n', line) {
        Ok(_) => {}
        Err(error) => return Err(read_fault(number, error)),
    }
    let Some(_) = without_newline(line) else {
        return Err(CopyFault::Cut { line: number });
    };
    Ok(())
}

/// The line without the newline at its end, if one stands there.
pub(crate) fn without_newline(line: &[u8]) -> Option<&[u8]>
    ensures some { IfSome result (λ front. line.now ≡ front.now ++ 10 ∷ []) }
    ensures none { IfNone result ((front : List ℕ) → line.now ≡ front ++ 10 ∷ [] → ⊥) }
{
    if line.len() == 0 {
        return None;
    }
    let (front, end) = line.split_at(line.len() - 1);
    if end != b"\n".as_slice() {
        return None;
    }
    Some(front)
}

/// The fault of a failed read: memory that was refused is said as that.
pub(crate) fn read_fault(line: u64, error: io::Error) -> CopyFault
    ensures { IsReaderFault result }
{
    if error.kind() == ErrorKind::OutOfMemory {
        return CopyFault::Memory;
    }
    CopyFault::Reader { line, error }
}
