//! WRITE_ROWS, UPDATE_ROWS and DELETE_ROWS, up to their rows. MySQL Source Documentation, "Binlog Event", the page
//! `binary_log::Rows_event`.

ghost use Rattle.std.specs.Prelude.{◌≡◌, ◌+◌, ◌<◌, ◌≤◌, ◌^◌, length, drop, IfOk, IfErr, MatchResult, Some, None, ◌-◌, ◌++◌, ◌∷◌, ◌↔◌, IfSome, IsSome, IsTrue, vec_len, vec_capacity};
ghost use Rattle.binlog.specs.Rows.{RowsValue, IsRows, presents_size, present_fault, presents_fault, rows_fault, rows_code};
ghost use Rattle.binlog.specs.Row.{bitmap_size};
ghost use Rattle.binlog.specs.RowsView.{rows_value};
ghost use Rattle.byteorder.specs.Endian.{little_bytes};
ghost use Rattle.binlog.specs.Table.{most_columns};
ghost use Rattle.binlog.specs.Header.{header_length};
ghost use Rattle.binlog.specs.Event.{rows};
ghost use Rattle.binlog.specs.Writing.{stmt_end, IsWritable, HasRowsBody, plain_rows, rows_head, presents_bytes, rows_body};
ghost use Rattle.gtid.specs.Appending.{AppendsBytes};

use crate::bitmap::{is_set, write_full_bitmap};
use crate::body::rows_event::{RowsEvent, RowsKind};
use crate::column::list::MOST_COLUMNS;
use crate::count::{count_width, read_count, write_padded_count};
use crate::event_type;
use crate::fault::{EventFault, EventFaultKind};
use crate::header::HEADER_LENGTH;
use byteorder::{ByteOrder, LittleEndian};
use wire::lenenc::MOST_IN_ONE_BYTE;

/// STMT_END_F: the event ends its statement.
const STMT_END: u8 = 1;

/// How many bytes of extra data an event has at most: with the two bytes of their length they fit 16 bits.
const MOST_EXTRA: usize = 65_533;

/// Reads a rows event of a kind, from a whole event whose header was read. The body begins at offset 19, and the
/// offsets of faults count from the event's first byte.
///
/// The first of these is reported: a length of extra data below 2 as `Size`; a number of columns that is malformed or
/// not from 1 to 4,096 as `Columns`; a bitmap that leaves a column out as `Partial`. Each field that does not fit is
/// `Truncated` at its first byte.
#[tactic(auto, unfolding(crate::specs::Rows::rows_fault))]
pub(crate) fn read_rows(kind: RowsKind, bytes: &[u8]) -> Result<RowsEvent<'_>, EventFault>
    requires { length bytes.now < 2 ^ 32 }
    ensures found { IfOk result (λ event. IsRows (rows_value event)
        (drop header_length bytes.now)) }
    ensures kind { IfOk result (λ event. event.kind ≡ kind) }
    ensures only { (r : RowsValue) → r.kind ≡ kind → IsRows r (drop header_length bytes.now)
        → MatchResult result (λ event. rows_value event ≡ r) (λ _. ⊥) }
    ensures fault { IfErr result (λ fault. rows_fault kind bytes.now ≡ Some fault) }
{
    match bytes.len() {
        0..25 => return Err(EventFault::truncated(19)),
        25..27 => return Err(EventFault::truncated(25)),
        27..29 => return Err(EventFault::truncated(27)),
        _ => {}
    }
    let extra = usize::from(LittleEndian::read_u16(&bytes[27..]));
    if extra < 2 {
        return Err(EventFault::new(EventFaultKind::Size, 27));
    }
    let columns_at = 27 + extra;
    if bytes.len() < columns_at {
        return Err(EventFault::truncated(29));
    }
    let (columns, width) = read_count(bytes, columns_at, EventFaultKind::Columns)?;
    if columns < 1 {
        return Err(EventFault::new(EventFaultKind::Columns, columns_at));
    }
    if columns > MOST_COLUMNS as u64 {
        return Err(EventFault::new(EventFaultKind::Columns, columns_at));
    }
    let columns = columns as usize;
    let bytes_at = read_presents(kind, bytes, columns_at + width, columns)?;
    Ok(RowsEvent {
        id: LittleEndian::read_u48(&bytes[19..]),
        kind,
        columns,
        bytes: &bytes[bytes_at..],
        columns_at,
        bytes_at,
    })
}

/// Reads the bitmaps of present columns at an offset, and returns where they end.
fn read_presents(
    kind: RowsKind,
    bytes: &[u8],
    at: usize,
    columns: usize,
) -> Result<usize, EventFault>
    requires place { at ≤ length bytes.now }
    requires within { length bytes.now < 2 ^ 32 }
    requires columns { columns ≤ most_columns }
    ensures end { IfOk result (λ end. end ≡ at + presents_size kind columns) }
    ensures whole { IfOk result (λ _. presents_fault kind bytes.now at columns ≡ None) }
    ensures within { IfOk result (λ end. end ≤ length bytes.now) }
    ensures fault { IfErr result (λ fault. presents_fault kind bytes.now at columns ≡ Some fault) }
{
    let end = read_present(bytes, at, columns)?;
    match kind {
        RowsKind::Update => read_present(bytes, end, columns),
        RowsKind::Write => Ok(end),
        RowsKind::Delete => Ok(end),
    }
}

/// Reads a bitmap of present columns at an offset, and returns where it ends.
fn read_present(bytes: &[u8], at: usize, columns: usize) -> Result<usize, EventFault>
    requires place { at ≤ length bytes.now }
    requires within { length bytes.now < 2 ^ 32 }
    requires columns { columns ≤ most_columns }
    ensures end { IfOk result (λ end. end ≡ at + bitmap_size columns) }
    ensures whole { IfOk result (λ _. present_fault bytes.now at columns ≡ None) }
    ensures within { IfOk result (λ end. end ≤ length bytes.now) }
    ensures fault { IfErr result (λ fault. present_fault bytes.now at columns ≡ Some fault) }
{
    let end = at + columns.div_ceil(8);
    if bytes.len() < end {
        return Err(EventFault::truncated(at));
    }
    let bitmap = &bytes[at..end];
    for i in 0..columns {
        if !is_set(bitmap, i) {
            return Err(EventFault::new(EventFaultKind::Partial, at));
        }
    }
    Ok(end)
}

impl<'a> RowsEvent<'a> {
    /// The rows event of these rows, without extra data and with the shortest encoding of the number of columns. `None`
    /// if no event can hold them: the table's number is 2^48 or more, the columns are not 1 to 4,096, or the event is
    /// too large.
    pub fn new(id: u64, kind: RowsKind, columns: usize, bytes: &'a [u8]) -> Option<RowsEvent<'a>>
        ensures in_range { IsSome result ↔ IsWritable
            (rows (plain_rows id kind columns bytes.now)) }
        ensures values { IfSome result (λ event. rows_value event
            ≡ plain_rows id kind columns bytes.now) }
    {
        if id >= 1 << 48 {
            return None;
        }
        if columns < 1 {
            return None;
        }
        if columns > MOST_COLUMNS {
            return None;
        }
        let bytes_at = 29 + count_width(columns) + presents_size(kind, columns);
        if bytes.len() >= (1 << 32) - bytes_at {
            return None;
        }
        Some(RowsEvent {
            id,
            kind,
            columns,
            bytes,
            columns_at: 29,
            bytes_at,
        })
    }
}

/// Whether a rows event can be written: its number is below 2^48, it has 1 to 4,096 columns, and its offsets of the
/// number of columns and of the rows are possible, with some extra data and some encoding of the number of columns.
pub(crate) fn rows_event_fits(rows: &RowsEvent<'_>) -> bool
    ensures { IsTrue result ↔ HasRowsBody (rows_value rows.now) }
{
    if rows.id >= 1 << 48 {
        return false;
    }
    if rows.columns > MOST_COLUMNS {
        return false;
    }
    if rows.columns_at < 29 {
        return false;
    }
    if rows.columns_at > 29 + MOST_EXTRA {
        return false;
    }
    let presents_at = rows.columns_at + presents_size(rows.kind, rows.columns);
    if rows.bytes_at < presents_at {
        return false;
    }
    match rows.bytes_at - presents_at {
        1 => rows.columns <= MOST_IN_ONE_BYTE as usize,
        3 => true,
        4 => true,
        9 => true,
        _ => false,
    }
}

impl RowsKind {
    ghost use Rattle.std.specs.Prelude.{◌≡◌};
    ghost use Rattle.binlog.specs.Rows.{rows_code};

    /// The type of an event of this kind.
    pub fn code(self) -> u8
        ensures { result ≡ rows_code self }
    {
        match self {
            RowsKind::Write => event_type::WRITE_ROWS,
            RowsKind::Update => event_type::UPDATE_ROWS,
            RowsKind::Delete => event_type::DELETE_ROWS,
        }
    }
}

/// How many bytes the body of a rows event takes.
pub(crate) fn rows_event_length(rows: &RowsEvent<'_>) -> usize
    requires { HasRowsBody (rows_value rows.now) }
    ensures { result ≡ length (rows_body (rows_value rows.now)) }
{
    rows.bytes_at - HEADER_LENGTH + rows.bytes.len()
}

/// Appends the body of a rows event that ends its statement.
pub(crate) fn write_rows_event(rows: &RowsEvent<'_>, out: &mut Vec<u8>)
    requires has_body { HasRowsBody (rows_value rows.now) }
    requires room { vec_len out.old + length (rows_body (rows_value rows.now)) ≤ vec_capacity out.old }
    ensures { AppendsBytes out.old out.new (rows_body (rows_value rows.now)) }
{
    write_head(rows, out);
    let width = rows.bytes_at - rows.columns_at - presents_size(rows.kind, rows.columns);
    write_padded_count(width, rows.columns, out);
    write_presents(rows.kind, rows.columns, out);
    out.extend_from_slice(rows.bytes).unwrap();
}

/// Appends what comes before the number of columns. The extra data is zeros.
fn write_head(rows: &RowsEvent<'_>, out: &mut Vec<u8>)
    requires has_body { HasRowsBody (rows_value rows.now) }
    requires room { vec_len out.old + length (rows_head (rows_value rows.now)) ≤ vec_capacity out.old }
    ensures { AppendsBytes out.old out.new (rows_head (rows_value rows.now)) }
{
    let extra = rows.columns_at - 29;
    write_front(rows.id, extra, out);
    out.resize(out.len() + extra, 0).unwrap();
}

/// Appends a table's number, the flag that the event ends its statement, and the length of the extra data.
fn write_front(id: u64, extra: usize, out: &mut Vec<u8>)
    requires fits { extra ≤ MOST_EXTRA }
    requires room { vec_len out.old + 10 ≤ vec_capacity out.old }
    ensures { AppendsBytes out.old out.new
        (little_bytes 6 id ++ stmt_end ∷ 0 ∷ little_bytes 2 (2 + extra)) }
{
    let [a, b, c, d, e, f, ..] = id.to_le_bytes();
    let [low, high] = ((2 + extra) as u16).to_le_bytes();
    out.extend_from_slice(&[a, b, c, d, e, f, STMT_END, 0, low, high])
        .unwrap();
}

/// Appends the bitmaps of present columns: two for an update, otherwise one, with all columns present.
fn write_presents(kind: RowsKind, columns: usize, out: &mut Vec<u8>)
    requires few { columns ≤ most_columns }
    requires room { vec_len out.old + length (presents_bytes kind columns) ≤ vec_capacity out.old }
    ensures { AppendsBytes out.old out.new (presents_bytes kind columns) }
{
    write_full_bitmap(columns, out);
    match kind {
        RowsKind::Update => write_full_bitmap(columns, out),
        RowsKind::Write => {}
        RowsKind::Delete => {}
    }
}

/// How many bytes the bitmaps of present columns take.
fn presents_size(kind: RowsKind, columns: usize) -> usize
    requires { columns ≤ most_columns }
    ensures size { result ≡ presents_size kind columns }
    ensures bound { result ≤ 1024 }
{
    let size = columns.div_ceil(8);
    match kind {
        RowsKind::Update => size + size,
        RowsKind::Write => size,
        RowsKind::Delete => size,
    }
}
