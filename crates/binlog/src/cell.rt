//! Cells of rows.

/// A cell of a row. It borrows from the bytes of the row.
#[derive(Clone, Copy, Debug, PartialEq, Eq)]
pub enum Cell<'a> {
    Null,
    /// An integer, ENUM or SET as an unsigned number, and how many bytes it takes in the row.
    Number { value: u64, width: u8 },
    /// The value's bytes in the row, of any other type; without the length in front.
    Bytes(&'a [u8]),
}

/// A cell that owns its bytes.
#[derive(Debug, Drop)]
pub enum OwnedCell {
    Null,
    /// An integer, ENUM or SET as an unsigned number, and how many bytes it takes in the row.
    Number { value: u64, width: u8 },
    Bytes(Vec<u8>),
}

impl OwnedCell {
    ghost use Rattle.std.specs.Prelude.{◌≡◌};
    ghost use Rattle.binlog.specs.Cell.{cell_value, owned_value};

    /// The cell with its bytes borrowed.
    pub fn as_cell(&self) -> Cell<'_>
        ensures { cell_value result ≡ owned_value self.now }
    {
        match self {
            OwnedCell::Null => Cell::Null,
            OwnedCell::Number { value, width } => Cell::Number {
                value: *value,
                width: *width,
            },
            OwnedCell::Bytes(bytes) => Cell::Bytes(bytes),
        }
    }
}
