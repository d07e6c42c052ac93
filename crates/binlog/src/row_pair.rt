//! One change of a row. MySQL Source Documentation, "Binlog Event", the page `binary_log::Rows_event`.

ghost use Rattle.std.specs.Prelude.{◌+◌, ◌<◌, ◌≤◌, ◌^◌, length, ◌≡◌, IsTrue, vec_len, vec_capacity};
ghost use Rattle.binlog.specs.Row.{kinds};
ghost use Rattle.binlog.specs.RowsView.{owned_pair};
ghost use Rattle.binlog.specs.RowsWritten.{pair_bytes, row_fits, pair_fits};
ghost use Rattle.gtid.specs.Appending.{AppendsBytes, IsCapped};

use crate::body::rows_event::RowsKind;
use crate::cell::OwnedCell;
use crate::column::kind::ColumnType;
use crate::row::{Row, row_fits, row_length, write_row};

/// One row change: the row before it, the row after it, or both.
#[derive(Debug, Drop)]
pub enum RowPair<'a> {
    Insert { after: Row<'a> },
    Delete { before: Row<'a> },
    Update { before: Row<'a>, after: Row<'a> },
}

impl<'a> RowPair<'a> {
    ghost use Rattle.std.specs.Prelude.{◌≡◌, ◌<◌, ◌≤◌, ◌^◌, length, IfOk, IfErr, Ok, Err};
    ghost use Rattle.binlog.specs.Row.{kinds};
    ghost use Rattle.binlog.specs.Rows.{pair_of, pair_end};
    ghost use Rattle.binlog.specs.RowsView.{pair_value};

    /// Reads the pair at the front of the bytes: the pair, and how many bytes it takes. If a part of it does not fit,
    /// the error is the offset of that part.
    #[inline(always)]
    pub(crate) fn read(
        kind: RowsKind,
        types: &'a [ColumnType],
        bytes: &'a [u8],
    ) -> Result<(RowPair<'a>, usize), usize>
        requires { length bytes.now < 2 ^ 32 }
        ensures pair { IfOk result (λ read. pair_value read.0
            ≡ pair_of kind (kinds types.now) bytes.now) }
        ensures end { IfOk result (λ read. pair_end kind (kinds types.now) bytes.now ≡ Ok read.1) }
        ensures within { IfOk result (λ read. read.1 ≤ length bytes.now) }
        ensures fault { IfErr result (λ place. pair_end kind (kinds types.now) bytes.now
            ≡ Err place) }
        ensures fault_within { IfErr result (λ place. place ≤ length bytes.now) }
    {
        let (row, size) = Row::read(types, bytes)?;
        match kind {
            RowsKind::Write => Ok((RowPair::Insert { after: row }, size)),
            RowsKind::Delete => Ok((RowPair::Delete { before: row }, size)),
            RowsKind::Update => match Row::read(types, &bytes[size..]) {
                Ok((after, rest)) => Ok((RowPair::Update { before: row, after }, size + rest)),
                Err(place) => Err(size + place),
            },
        }
    }
}

/// One row change that owns its cells: the row before it, the row after it, or both.
#[derive(Debug, Drop)]
pub enum OwnedPair {
    Insert {
        after: Vec<OwnedCell>,
    },
    Delete {
        before: Vec<OwnedCell>,
    },
    Update {
        before: Vec<OwnedCell>,
        after: Vec<OwnedCell>,
    },
}

/// Whether the pair can be written.
pub(crate) fn pair_fits(kind: RowsKind, types: &[ColumnType], pair: &OwnedPair) -> bool
    ensures { result ≡ pair_fits kind (kinds types.now) (owned_pair pair.now) }
{
    match kind {
        RowsKind::Write => match pair {
            OwnedPair::Insert { after } => row_fits(types, after),
            _ => false,
        },
        RowsKind::Delete => match pair {
            OwnedPair::Delete { before } => row_fits(types, before),
            _ => false,
        },
        RowsKind::Update => match pair {
            OwnedPair::Update { before, after } => row_fits(types, before)
                && row_fits(types, after),
            _ => false,
        },
    }
}

/// How many bytes the rows of a pair take, or `usize::MAX` if that is less.
pub(crate) fn pair_length(kind: RowsKind, types: &[ColumnType], pair: &OwnedPair) -> usize
    requires { IsTrue (pair_fits kind (kinds types.now) (owned_pair pair.now)) }
    ensures { IsCapped result (length (pair_bytes (kinds types.now) (owned_pair pair.now))) }
{
    match pair {
        OwnedPair::Insert { after } => row_length(types, after),
        OwnedPair::Delete { before } => row_length(types, before),
        OwnedPair::Update { before, after } => {
            let first = row_length(types, before);
            first.saturating_add(row_length(types, after))
        }
    }
}

/// Appends the rows of a pair.
pub(crate) fn write_pair(kind: RowsKind, types: &[ColumnType], pair: &OwnedPair, out: &mut Vec<u8>)
    requires fit { IsTrue (pair_fits kind (kinds types.now) (owned_pair pair.now)) }
    requires room { vec_len out.old + length (pair_bytes (kinds types.now) (owned_pair pair.now))
        ≤ vec_capacity out.old }
    ensures { AppendsBytes out.old out.new (pair_bytes (kinds types.now) (owned_pair pair.now)) }
{
    match pair {
        OwnedPair::Insert { after } => write_row(types, after, out),
        OwnedPair::Delete { before } => write_row(types, before, out),
        OwnedPair::Update { before, after } => {
            write_row(types, before, out);
            write_row(types, after, out);
        }
    }
}
