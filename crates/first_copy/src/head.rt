//! The first two lines of a copy.

ghost use Rattle.std.specs.Prelude.{IfOk};
ghost use Rattle.first_copy.specs.CopySteps.{TakesHead};

use crate::copy_fault::CopyFault;
use crate::filling::{fill, without_newline};
use gtid::{GtidFault, GtidSet};
use std::alloc::Global;
use std::io::BufRead;

/// The first line, which says what the text is.
pub(crate) const FIRST: &[u8] = b"mrep copy 1\n";

/// Reads the first two lines: what the text is, and the set of the transactions whose changes are in the rows.
///
/// Clauses:
/// - the text loses exactly its first two lines
pub fn read_head<R: BufRead>(alloc: Global, reader: &mut R) -> Result<GtidSet, CopyFault>
    ensures { IfOk result (λ ids. TakesHead ids (R.Read.remaining reader.old)
        (R.Read.remaining reader.new)) }
{
    let mut first = Vec::new(alloc);
    fill(reader, &mut first, 1)?;
    if first.as_slice() != FIRST {
        return Err(CopyFault::Version);
    }
    let mut second = Vec::new(alloc);
    fill(reader, &mut second, 2)?;
    let Some(text) = without_newline(&second) else {
        return Err(CopyFault::Cut { line: 2 });
    };
    let Ok(text) = str::from_utf8(text) else {
        return Err(CopyFault::Encoding);
    };
    match GtidSet::parse(alloc, text) {
        Ok(set) => Ok(set),
        Err(GtidFault::Memory) => Err(CopyFault::Memory),
        Err(fault) => Err(CopyFault::Executed(fault)),
    }
}
