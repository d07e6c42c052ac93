//! GTID sets as they are printed.

ghost use Rattle.std.specs.Prelude.{[], string_bytes, IfOk};
ghost use Rattle.gtid.specs.Text.{AppendsText};

use gtid::GtidSet;
use std::alloc::{AllocError, Global};

/// The text of a set.
///
/// Clauses:
/// - the text is that of the set (`AppendsText` of `gtid`); it fails only if memory runs out
pub fn text_of(alloc: Global, ids: &GtidSet) -> Result<String, AllocError>
    ensures { IfOk result (λ text. AppendsText ids.now [] (string_bytes text)) }
{
    let mut text = String::new(alloc);
    match ids.print(&mut text) {
        Ok(()) => Ok(text),
        Err(_) => Err(AllocError),
    }
}
