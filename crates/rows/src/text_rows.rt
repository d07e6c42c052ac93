//! The rows of a database as lines of text.

ghost use Rattle.std.specs.Prelude.{◌≡◌};

use crate::cells::write_row;
use crate::notes::Chosen;
use binlog::Follow;
use gtid::GtidSet;
use std::io;
use std::io::Write;
use store::{Listed, Lister, Visitor};

/// Writes a line of text for each row of the tables that are asked for.
#[derive(Drop)]
pub struct TextRows<'o, W> {
    chosen: Chosen,
    out: &'o mut W,
}

impl<'o, W: Write> TextRows<'o, W> {
    /// No row was written.
    pub fn new(chosen: Chosen, out: &'o mut W) -> TextRows<'o, W>
        ensures { result.chosen ≡ chosen }
    {
        TextRows { chosen, out }
    }

    /// The tables that are asked for, and of which of them there was a row.
    pub fn chosen(self) -> Chosen
        ensures { result ≡ self.entry.chosen }
    {
        let TextRows { chosen, .. } = self;
        chosen
    }
}

impl<W: Write> Visitor for TextRows<'_, W> {
    type Error = io::Error;

    ghost use Rattle.rows.specs.TextLines.{WritesLine};

    ghost row_gives = { WritesLine W.contents };

    fn row(&mut self, row: &Listed<'_>) -> io::Result<()> {
        if !self.chosen.takes(row.schema, row.table) {
            return Ok(());
        }
        write_row(row.schema, row.table, row.count, &row.image, self.out)
    }
}

impl<W: Write> Lister for TextRows<'_, W> {
    ghost use Rattle.rows.specs.TextLines.{AsksForRows};

    ghost begun = { AsksForRows };

    fn begin(&mut self, _executed: &GtidSet, _following: &Follow) -> io::Result<bool> {
        Ok(true)
    }
}
