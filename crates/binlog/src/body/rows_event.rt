//! Rows events. MySQL Source Documentation, "Binlog Event", the page `binary_log::Rows_event`.
//!
//! What reads and writes one is in `rows.rt` beside this file: the structs here have facts that definitions are stated
//! over, and the prover takes no file that both has such a struct and names these definitions.

ghost use Rattle.std.specs.Prelude.{◌+◌, ◌<◌, ◌≤◌, ◌^◌, length};
ghost use Rattle.binlog.specs.Table.{most_columns};

/// What a rows event does with the rows of its table.
#[derive(Clone, Copy, Debug, PartialEq, Eq)]
pub enum RowsKind {
    Write,
    Update,
    Delete,
}

/// A rows event. It borrows the bytes of its rows and takes no memory.
#[derive(Clone, Copy, Debug)]
pub struct RowsEvent<'a> {
    /// The number that a table map gave to the table.
    pub id: u64,
    pub kind: RowsKind,
    /// The number of columns, from 1 to 4,096.
    pub columns: usize,
    /// The bytes of its rows.
    pub bytes: &'a [u8],
    /// The offset in the event of the number of columns.
    pub columns_at: usize,
    /// The offset in the event of the rows.
    pub bytes_at: usize,
    ghost some_columns: { 1 ≤ columns },
    ghost few_columns: { columns ≤ most_columns },
    ghost in_event: { bytes_at + length bytes.now < 2 ^ 32 },
}
