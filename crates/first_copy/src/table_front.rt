//! The table whose names stand at the front of a line.

ghost use Rattle.std.specs.Prelude.{◌≡◌, ℕ, Some, IfSome, IfNone, slice_get};
ghost use Rattle.columns.specs.Descriptions.{described_table, table_front, BeginsNot};
ghost use Rattle.columns.specs.declared.table.DescribedTable.{DescribedTable};
ghost use Rattle.first_copy.specs.FoundTables.{IsFoundAt};

use columns::DescribedTable;

/// The place of the table whose names the line begins with, and what follows the names. The table at this place is tried
/// first.
pub(crate) fn find_table<'a>(
    tables: &[DescribedTable],
    likely: usize,
    line: &'a [u8],
) -> Option<(usize, &'a [u8])>
    ensures found { IfSome result (λ found. IsFoundAt tables.now found.0 line.now found.1.now) }
    ensures none { IfNone result ((place : ℕ) (table : DescribedTable)
        → slice_get tables.now place ≡ Some table
        → BeginsNot (table_front (described_table table)) line.now) }
{
    if let Some(rest) = front_at(tables, likely, line) {
        return Some((likely, rest));
    }
    find_among(tables, line)
}

/// What follows the names of the table at this place, if there is one and the line begins with them.
fn front_at<'a>(tables: &[DescribedTable], place: usize, line: &'a [u8]) -> Option<&'a [u8]>
    ensures { IfSome result (λ rest. IsFoundAt tables.now place line.now rest.now) }
{
    if place >= tables.len() {
        return None;
    }
    let rest = tables[place].after_names(line)?;
    Some(rest)
}

/// The place of the first table whose names the line begins with, and what follows the names.
fn find_among<'a>(tables: &[DescribedTable], line: &'a [u8]) -> Option<(usize, &'a [u8])>
    ensures found { IfSome result (λ found. IsFoundAt tables.now found.0 line.now found.1.now) }
    ensures none { IfNone result ((place : ℕ) (table : DescribedTable)
        → slice_get tables.now place ≡ Some table
        → BeginsNot (table_front (described_table table)) line.now) }
{
    for (i, table) in tables.iter().enumerate() {
        if let Some(rest) = table.after_names(line) {
            return Some((i, rest));
        }
    }
    None
}
