//! A reader of the lines of rows.

ghost use Rattle.std.specs.Prelude.{◌≡◌, ℕ, List, IfOk, IfErr, MatchResult};
ghost use Rattle.binlog.specs.Cell.{CellValue};
ghost use Rattle.gather.specs.Image.{HasImage};
ghost use Rattle.first_copy.specs.RowLines.{IsRowAt, IsRowFault, IsRefusal};

use crate::fault::RowFault;
use crate::line_cells::read_fields;
use crate::places::{Place, cells_at};
use crate::table_front::find_table;
use columns::Description;
use gather::Image;
use std::alloc::Global;

/// A reader of the lines of rows, which keeps the memory for the cells of a line from one line to the next.
#[derive(Debug, Drop)]
pub struct RowReader {
    /// Where the cells of the last line stand.
    places: Vec<Place>,
    /// The bytes of these cells, one after another.
    bytes: Vec<u8>,
    /// The place of the table of the last line, which is mostly that of the next one.
    last: usize,
}

impl RowReader {
    /// A reader. It takes no memory.
    pub fn new(alloc: Global) -> RowReader {
        RowReader {
            places: Vec::new(alloc),
            bytes: Vec::new(alloc),
            last: 0,
        }
    }

    /// Reads the line of a row of one of the described tables: the place of the table in the description, and the image
    /// of the row. The names of the schema and the table stand in front, with the client's escapes and a tab after
    /// each, as in the lines of the description; then the fields of the row, one for each column, with tabs between and
    /// a newline at the end. A field is `NULL` or the text that [`columns::ColumnType::write_field`] takes.
    ///
    /// Clauses:
    /// - `found`, `image`, `only`, `fault`: the line is that of a row of the described table that is answered, and the
    ///   image has the cells that a server sends for its fields; each fault is what it says, by the number of the field
    pub fn read(
        &mut self,
        alloc: Global,
        description: &Description,
        line: &[u8],
    ) -> Result<(usize, Image), RowFault>
        ensures found { IfOk result (λ read. IsRowAt description.now.tables.items read.0
            line.now read.1) }
        ensures image { IfOk result (λ read. HasImage read.1) }
        ensures only { (place : ℕ) (cells : List CellValue)
            → IsRowAt description.now.tables.items place line.now cells
            → MatchResult result (λ read. read.0 ≡ place) IsRefusal }
        ensures fault { IfErr result (IsRowFault description.now.tables.items line.now) }
    {
        let Some((place, fields)) = find_table(&description.tables, self.last, line) else {
            return Err(RowFault::Table);
        };
        self.last = place;
        self.places.clear();
        self.bytes.clear();
        let columns = &description.tables[place].columns;
        read_fields(alloc, columns, fields, &mut self.places, &mut self.bytes)?;
        let cells = cells_at(alloc, &self.places, &self.bytes)?;
        match Image::new(alloc, &cells) {
            Ok(Some(image)) => Ok((place, image)),
            Ok(None) => Err(RowFault::Image),
            Err(_) => Err(RowFault::Memory),
        }
    }
}
