//! Rows as JSON objects by the names of their columns.

use crate::json::write_member;
use crate::misfit::{TextError, check_count};
use crate::shown::show;
use columns::{DescribedTable, Key};
use formats::Encoding;
use gather::ImageRef;
use std::alloc::Global;
use std::io::Write;

/// Whether a table has columns that are its key.
pub fn has_key(table: &DescribedTable) -> bool {
    table.columns.iter().any(|column| column.key == Key::Pri)
}

/// Writes the cells of a row, or those of its key alone, as an object.
pub fn write_cells<'d>(
    alloc: Global,
    encoding: Encoding,
    table: &'d DescribedTable,
    image: &ImageRef<'_>,
    is_key: bool,
    line: &mut Vec<u8>,
) -> Result<(), TextError<'d>> {
    check_count(table, image)?;
    line.write_all(b"{")?;
    let mut is_first = true;
    for (cell, column) in image.cells().zip(table.columns.iter()) {
        if is_key && column.key != Key::Pri {
            continue;
        }
        if !is_first {
            line.write_all(b",")?;
        }
        match show(alloc, column, cell) {
            Ok(shown) => write_member(alloc, column.name.as_str(), &shown, encoding, line)?,
            Err(error) => return Err(TextError::at(column, error)),
        }
        is_first = false;
    }
    line.write_all(b"}")?;
    Ok(())
}
