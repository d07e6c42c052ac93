//! Laws about the definitions, for callers.
//!
//! A law is a function with an empty body: its clauses are proved of the definitions themselves.

ghost use Rattle.std.specs.Prelude.{◌≡◌, Ok};
ghost use Rattle.binlog.specs.Filter.{Names};
ghost use Rattle.store.specs.State.{Content};
ghost use Rattle.store.specs.Listing.{IsListed};
ghost use Rattle.rows.specs.TextLines.{WritesLine, AsksForRows, HasLines};

use crate::text_rows::TextRows;
use std::io;
use std::io::Write;
use store::ListError;

/// A database that was read into [`TextRows`] to its end is written line by line: of each row of the tables that are asked for
/// there is one line, in order, after what the output had.
pub fn written<W: Write>(
    _before: &TextRows<'_, W>,
    _after: &TextRows<'_, W>,
    _listed: &Result<(), ListError<io::Error>>,
)
    ensures { (names : Names) (content : Content) → IsListed AsksForRows (WritesLine W.contents)
        names content _before.now _after.now _listed.now → _listed.now ≡ Ok tt
        → HasLines W.contents content.rows _before.now _after.now }
{}
