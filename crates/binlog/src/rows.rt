//! The rows of a rows event. MySQL Source Documentation, "Binlog Event", the page `binary_log::Rows_event`.

ghost use Rattle.std.specs.Prelude.{◌+◌, ◌<◌, ◌≤◌, ◌^◌, length, ◌≡◌, ◌++◌, ◌↔◌, IsTrue, OnOk, OnErr, Err, vec_len, vec_capacity};
ghost use Rattle.binlog.specs.Row.{kinds};
ghost use Rattle.binlog.specs.RowsView.{owned_pairs};
ghost use Rattle.binlog.specs.RowsWritten.{HaveRows, rows_bytes, pair_fits, pairs_fit};
ghost use Rattle.gtid.specs.Appending.{AppendsBytes, IsCapped};
ghost use Rattle.binlog.specs.declared.fault.EventFaultKind.TheVariants.{Memory};

use crate::body::rows_event::{RowsEvent, RowsKind};
use crate::body::table_map::TableDef;
use crate::column::kind::ColumnType;
use crate::fault::{EventFault, EventFaultKind};
use crate::row_pair::{OwnedPair, RowPair, pair_fits, pair_length, write_pair};
use std::marker::Model;

/// An iterator over the rows of an event. The last item may be a fault. It takes no memory. In contracts it is the list
/// of the items that are still to come.
#[derive(Debug, Drop)]
pub struct Rows<'a> {
    kind: RowsKind,
    types: &'a [ColumnType],
    /// The bytes of the remaining rows.
    bytes: &'a [u8],
    /// Their offset in the event.
    at: usize,
    ghost some_columns: { 1 ≤ length types.now },
    ghost in_event: { at + length bytes.now < 2 ^ 32 },
}

impl<'a> Model for Rows<'a> {
    ghost use Rattle.std.specs.Prelude.{List, Result, length};
    ghost use Rattle.binlog.specs.Rows.{PairValue, items_of};
    ghost use Rattle.binlog.specs.Row.{kinds};
    ghost use Rattle.binlog.specs.declared.fault.EventFault.{EventFault};

    ghost Value = { List (Result PairValue EventFault) };

    ghost view = { λ r. items_of (length r.bytes.now) r.kind (kinds r.types.now) r.bytes.now r.at };
}

impl<'a> RowsEvent<'a> {
    ghost use Rattle.std.specs.Prelude.{◌≡◌, ◌≢◌, ◌↔◌, length, IfOk, IfErr, Err};
    ghost use Rattle.binlog.specs.Row.{kinds};
    ghost use Rattle.binlog.specs.Rows.{AreItems};
    ghost use Rattle.binlog.specs.RowsView.{rows_value};

    /// The row changes of the event, whose columns are those of the table. It takes no memory.
    ///
    /// `Columns` if the table has another number of columns than the event; its offset is that of the event's number of
    /// columns. The fault of a row that does not fit is `Truncated`, at the row's bitmap, or at the length or the bytes
    /// of a value.
    ///
    /// Clauses:
    /// - `columns`, `only`, `items`: the pairs of the event's rows in order, or those before the first that does not
    ///   fit and then that fault
    pub fn rows(&self, table: &'a TableDef) -> Result<Rows<'a>, EventFault>
        ensures columns { (result ≡ Err (record {
          kind = EventFaultKind.Columns;
          at =
              self.now.columns_at;
        })) ↔ (length table.now.types.items ≢ self.now.columns) }
        ensures only { IfErr result (λ fault. fault
            ≡ record { kind = EventFaultKind.Columns; at = self.now.columns_at }) }
        ensures items { IfOk result (AreItems (rows_value self.now) (kinds table.now.types.items)) }
    {
        self.rows_of(&table.types)
    }

    /// The row changes of the event, whose columns have these types.
    ///
    /// `Columns` if there is another number of types than the event has columns; its offset is that of the event's
    /// number of columns. A row that does not fit ends the iteration: the last item is then `Truncated` at the row's
    /// bitmap, or at the length or the bytes of a value.
    fn rows_of(&self, types: &'a [ColumnType]) -> Result<Rows<'a>, EventFault>
        ensures columns { (result ≡ Err (record {
          kind = EventFaultKind.Columns;
          at =
              self.now.columns_at;
        })) ↔ (length types.now ≢ self.now.columns) }
        ensures only { IfErr result (λ fault. fault
            ≡ record { kind = EventFaultKind.Columns; at = self.now.columns_at }) }
        ensures items { IfOk result (AreItems (rows_value self.now) (kinds types.now)) }
    {
        if types.len() != self.columns {
            return Err(EventFault::new(EventFaultKind::Columns, self.columns_at));
        }
        Ok(Rows::new(self.kind, types, self.bytes, self.bytes_at))
    }
}

impl<'a> Rows<'a> {
    ghost use Rattle.std.specs.Prelude.{◌+◌, ◌<◌, ◌≤◌, ◌^◌, length};
    ghost use Rattle.binlog.specs.Row.{kinds};
    ghost use Rattle.binlog.specs.Rows.{AreItemsAt};

    /// The rows in these bytes, which are at an offset of an event.
    fn new(kind: RowsKind, types: &'a [ColumnType], bytes: &'a [u8], at: usize) -> Rows<'a>
        requires some_columns { 1 ≤ length types.now }
        requires in_event { at + length bytes.now < 2 ^ 32 }
        ensures { AreItemsAt kind (kinds types.now) bytes.now at result }
    {
        Rows {
            kind,
            types,
            bytes,
            at,
        }
    }
}

impl<'a> Iterator for Rows<'a> {
    ghost use Rattle.std.specs.Iterator.{YieldsFirstBy, item_count};
    ghost use Rattle.binlog.specs.RowsView.{item_value};

    type Item = Result<RowPair<'a>, EventFault>;

    ghost next_gives = { YieldsFirstBy item_value (λ r. r) };

    ghost remaining = { item_count (λ r. r) };

    #[inline(always)]
    fn next(&mut self) -> Option<Result<RowPair<'a>, EventFault>> {
        if self.bytes.is_empty() {
            return None;
        }
        match RowPair::read(self.kind, self.types, self.bytes) {
            Ok((pair, size)) => {
                self.bytes = &self.bytes[size..];
                self.at += size;
                Some(Ok(pair))
            }
            Err(place) => {
                self.bytes = &self.bytes[..0];
                Some(Err(EventFault::truncated(self.at + place)))
            }
        }
    }
}

/// Whether the pairs can be written: each pair is of the event's kind, each row has a cell for each column, and each
/// cell is null or has the size of its column. It takes no memory.
pub fn rows_fit(kind: RowsKind, types: &[ColumnType], pairs: &[OwnedPair]) -> bool
    ensures { IsTrue result ↔ HaveRows kind (kinds types.now) (owned_pairs pairs.now) }
{
    for i in 0..pairs.len() {
        if !pair_fits(kind, types, &pairs[i]) {
            return false;
        }
    }
    true
}

/// Appends the rows of the pairs, one after the other: for each row the bitmap of its null cells, the lowest bit first,
/// and the values of the others. The unused bits of a bitmap are 0.
///
/// Clauses: as [`Event::write`]
pub fn write_rows(
    kind: RowsKind,
    types: &[ColumnType],
    pairs: &[OwnedPair],
    out: &mut Vec<u8>,
) -> Result<(), EventFault>
    requires { HaveRows kind (kinds types.now) (owned_pairs pairs.now) }
    ensures ok { OnOk result (out.new.items ≡ out.old.items ++ rows_bytes (kinds types.now)
        (owned_pairs pairs.now)) }
    ensures err { OnErr result ((result ≡ Err (record { kind = Memory; at = 0 }))
        × (out.new.items ≡ out.old.items)) }
    ensures full { OnErr result (vec_capacity out.old
        < vec_len out.old + length (rows_bytes (kinds types.now) (owned_pairs pairs.now))) }
{
    out.reserve(rows_length(kind, types, pairs))?;
    write_pairs(kind, types, pairs, out);
    Ok(())
}

/// How many bytes the rows of the pairs take, or `usize::MAX` if that is less.
fn rows_length(kind: RowsKind, types: &[ColumnType], pairs: &[OwnedPair]) -> usize
    requires { IsTrue (pairs_fit kind (kinds types.now) (owned_pairs pairs.now)) }
    ensures { IsCapped result (length (rows_bytes (kinds types.now) (owned_pairs pairs.now))) }
{
    let mut sum: usize = 0;
    for pair in pairs {
        sum = sum.saturating_add(pair_length(kind, types, pair));
    }
    sum
}

/// Appends the rows of the pairs.
fn write_pairs(kind: RowsKind, types: &[ColumnType], pairs: &[OwnedPair], out: &mut Vec<u8>)
    requires fit { IsTrue (pairs_fit kind (kinds types.now) (owned_pairs pairs.now)) }
    requires room { vec_len out.old + length (rows_bytes (kinds types.now) (owned_pairs pairs.now))
        ≤ vec_capacity out.old }
    ensures { AppendsBytes out.old out.new (rows_bytes (kinds types.now) (owned_pairs pairs.now)) }
{
    for pair in pairs {
        write_pair(kind, types, pair, out);
    }
}
