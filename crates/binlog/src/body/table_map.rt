//! TABLE_MAP: which table the following rows events mean by a number. MySQL Source Documentation, "Binlog Event", the
//! page `binary_log::Table_map_event`.

ghost use Rattle.std.specs.Prelude.{◌≡◌, IfOk, OnErr, Err, ℕ, ◌+◌, ◌≤◌, List, length, drop, IfErr, MatchResult, Some, None, ◌↔◌, map, IsTrue, ◌<◌, vec_len, vec_capacity, IfSome, IfNone};
ghost use Rattle.binlog.specs.Header.{header_length};
ghost use Rattle.binlog.specs.Row.{kinds};
ghost use Rattle.binlog.specs.declared.fault.EventFaultKind.TheVariants.{Memory};
ghost use Rattle.binlog.specs.Fault.{number_at};
ghost use Rattle.binlog.specs.Table.{IsNamed, terminator_place, named_schema, named_table, names_fault, IsCodeOf, HasNoColumns};
ghost use Rattle.binlog.specs.TableView.{table_value};
ghost use Rattle.gtid.specs.Appending.{AppendsBytes};
ghost use Rattle.binlog.specs.Writing.{HasMap, names_bytes, table_map_body};

use crate::bitmap::write_full_bitmap;
use crate::column::kind::ColumnType;
use crate::column::list::{MOST_COLUMNS, metadata_length, write_all_metadata, write_codes};
use crate::column::types::ColumnTypes;
use crate::count::{count_width, read_count, write_count};
use crate::fault::{EventFault, EventFaultKind};
use byteorder::{ByteOrder, LittleEndian};
use std::alloc::Global;

/// A table map: which table the following rows events mean by a number. It borrows from the event's bytes.
#[derive(Debug, Drop)]
pub struct TableMap<'a> {
    /// The number that rows events use for the table.
    pub id: u64,
    pub schema: &'a [u8],
    pub table: &'a [u8],
    /// The types of the columns.
    pub types: ColumnTypes<'a>,
}

/// A table's names and the types of its columns.
#[derive(Debug, Drop)]
pub struct TableDef {
    pub schema: Vec<u8>,
    pub table: Vec<u8>,
    pub types: Vec<ColumnType>,
}

impl TableDef {
    /// A table with these names and columns.
    ///
    /// Clauses: the above.
    pub fn new(schema: Vec<u8>, table: Vec<u8>, types: Vec<ColumnType>) -> TableDef
        ensures { result ≡ record { schema = schema; table = table; types = types } }
    {
        TableDef {
            schema,
            table,
            types,
        }
    }

    /// The table map that gives the table this number.
    ///
    /// Clauses:
    /// - `id`, `schema`, `table`, `columns`: with the same names and columns
    pub fn map(&self, id: u64) -> TableMap<'_>
        ensures id { result.id ≡ id }
        ensures schema { result.schema.now ≡ self.now.schema.items }
        ensures table { result.table.now ≡ self.now.table.items }
        ensures columns { result.types ≡ kinds self.now.types.items }
    {
        TableMap {
            id,
            schema: &self.schema,
            table: &self.table,
            types: ColumnTypes::of(&self.types),
        }
    }
}

impl TableMap<'_> {
    /// Copies the names and the column types. `Memory` comes only if a name has a byte or there is a column.
    ///
    /// Clauses:
    /// - `ok`, `err`, `some`: the same names and columns, which outlive the payload; the only error is `Memory`
    pub fn copy(&self, alloc: Global) -> Result<TableDef, EventFault>
        ensures ok { IfOk result (λ copied. (copied.schema.items ≡ self.now.schema.now)
            × (copied.table.items ≡ self.now.table.now)
            × (kinds copied.types.items ≡ self.now.types)) }
        ensures err { OnErr result (result ≡ Err (record { kind = Memory; at = 0 })) }
        ensures some { OnErr result (0 < length self.now.schema.now + length self.now.table.now
            + length self.now.types) }
    {
        Ok(TableDef {
            schema: copy_bytes(alloc, self.schema)?,
            table: copy_bytes(alloc, self.table)?,
            types: self.types.to_vec(alloc)?,
        })
    }
}

/// A copy of the bytes. The only error is `Memory`, which comes only if there are any.
fn copy_bytes(alloc: Global, bytes: &[u8]) -> Result<Vec<u8>, EventFault>
    ensures ok { IfOk result (λ copied. copied.items ≡ bytes.now) }
    ensures err { OnErr result (result ≡ Err (record { kind = Memory; at = 0 })) }
    ensures some { OnErr result (0 < length bytes.now) }
{
    if bytes.is_empty() {
        return Ok(Vec::new(alloc)); // no byte is to be kept
    }
    Ok(Vec::from_slice(alloc, bytes)?)
}

/// The part of a table map before the columns.
#[derive(Clone, Copy, Debug)]
pub(crate) struct Names<'a> {
    pub(crate) id: u64,
    pub(crate) schema: &'a [u8],
    pub(crate) table: &'a [u8],
    /// The offset in the event at which the columns begin.
    pub(crate) end: usize,
}

/// Reads a table map's number and names, from an event whose header was read.
///
/// A field that does not fit is `Truncated` at its first byte. Nothing after the names is read.
#[tactic(auto, unfolding(crate::specs::Table::names_fault))]
pub(crate) fn read_names(bytes: &[u8]) -> Result<Names<'_>, EventFault>
    ensures found { IfOk result (λ names. IsNamed names.id names.schema.now names.table.now
        (drop names.end bytes.now) (drop header_length bytes.now)) }
    ensures within { IfOk result (λ names. names.end ≤ length bytes.now) }
    ensures place { IfOk result (λ names. names.end ≡ terminator_place bytes.now + 1) }
    ensures values { IfOk result (λ names. (names.id ≡ number_at 6 bytes.now 19)
        × (names.schema.now ≡ named_schema bytes.now) × (names.table.now ≡ named_table bytes.now)) }
    ensures only { (id : ℕ) (schema table rest : List ℕ)
        → IsNamed id schema table rest (drop header_length bytes.now)
        → MatchResult result (λ names. (names.id ≡ id) × (names.schema.now ≡ schema)
        × (names.table.now ≡ table) × (drop names.end bytes.now ≡ rest)) (λ _. ⊥) }
    ensures fault { IfErr result (λ fault. names_fault bytes.now ≡ Some fault) }
    ensures none { IfOk result (λ _. names_fault bytes.now ≡ None) }
{
    match bytes.len() {
        0..25 => return Err(EventFault::truncated(19)),
        25..27 => return Err(EventFault::truncated(25)),
        27 => return Err(EventFault::truncated(27)),
        _ => {}
    }
    let terminator = 28 + usize::from(bytes[27]);
    if bytes.len() < terminator {
        return Err(EventFault::truncated(28));
    }
    if bytes.len() == terminator {
        return Err(EventFault::truncated(terminator));
    }
    if bytes.len() == terminator + 1 {
        return Err(EventFault::truncated(terminator + 1));
    }
    let table = terminator + 2;
    let end = table + usize::from(bytes[terminator + 1]);
    if bytes.len() < end {
        return Err(EventFault::truncated(table));
    }
    if bytes.len() == end {
        return Err(EventFault::truncated(end));
    }
    Ok(Names {
        id: LittleEndian::read_u48(&bytes[19..]),
        schema: &bytes[28..terminator],
        table: &bytes[table..end],
        end: end + 1,
    })
}

/// Where in a table map an offset lies, as that of a fault.
#[derive(Clone, Copy, Debug, PartialEq, Eq)]
pub struct ColumnPlace<'a> {
    pub schema: &'a [u8],
    pub table: &'a [u8],
    /// The column whose type code is at the offset, counted from 0. If none is there, `None`.
    pub column: Option<usize>,
}

impl<'a> ColumnPlace<'a> {
    /// Reads the names in a table map and the number of its columns, and nothing after that.
    ///
    /// Clauses:
    /// - `names`, `column`, `other`, `none`: the table that they name, and the column whose type code is at the offset
    ///   `at` in the event, if one is; none if they cannot be read
    pub fn find(event: &'a [u8], at: usize) -> Option<ColumnPlace<'a>>
        ensures names { IfSome result (λ place. (place.schema.now ≡ named_schema event.now)
            × (place.table.now ≡ named_table event.now)) }
        ensures column { IfSome result (λ place. IfSome place.column (IsCodeOf event.now at)) }
        ensures other { IfSome result (λ place. IfNone place.column ((column : ℕ)
            → IsCodeOf event.now at column → ⊥)) }
        ensures none { IfNone result (HasNoColumns event.now) }
    {
        let Ok(names) = read_names(event) else {
            return None;
        };
        let Ok((columns, width)) = read_count(event, names.end, EventFaultKind::Columns) else {
            return None;
        };
        let column = place_among(names.end + width, columns, at);
        Some(ColumnPlace {
            schema: names.schema,
            table: names.table,
            column,
        })
    }
}

/// The place of `at` among this many places from the first on, if it is one of them.
fn place_among(first: usize, count: u64, at: usize) -> Option<usize>
    ensures some { IfSome result (λ place. (at ≡ first + place) × (place < count)) }
    ensures none { IfNone result ((place : ℕ) → at ≡ first + place → place < count → ⊥) }
{
    let place = at.checked_sub(first)?;
    if place as u64 >= count {
        return None;
    }
    Some(place)
}

/// Whether a table map can be written: its number is below 2^48, its names have at most 255 bytes, and it has 1 to
/// 4,096 columns.
pub(crate) fn map_fits(map: &TableMap<'_>) -> bool
    ensures { IsTrue result ↔ HasMap (table_value map.now) }
{
    if map.id >= 1 << 48 {
        return false;
    }
    if map.schema.len() > 255 {
        return false;
    }
    if map.table.len() > 255 {
        return false;
    }
    matches!(map.types.len(), 1..=MOST_COLUMNS)
}

/// How many bytes the body of a table map takes.
pub(crate) fn map_length(map: &TableMap<'_>) -> usize
    requires { HasMap (table_value map.now) }
    ensures { result ≡ length (table_map_body (table_value map.now)) }
{
    let columns = map.types.len();
    let metadata = metadata_length(&map.types);
    12 + map.schema.len()
        + map.table.len()
        + count_width(columns)
        + columns
        + count_width(metadata)
        + metadata
        + columns.div_ceil(8)
}

/// Appends the body of a table map. All columns may be null, and no flags are set.
pub(crate) fn write_table_map(map: &TableMap<'_>, out: &mut Vec<u8>)
    requires has_map { HasMap (table_value map.now) }
    requires room { vec_len out.old + length (table_map_body (table_value map.now))
        ≤ vec_capacity out.old }
    ensures { AppendsBytes out.old out.new (table_map_body (table_value map.now)) }
{
    write_names(map, out);
    write_count(map.types.len(), out);
    write_codes(&map.types, out);
    write_count(metadata_length(&map.types), out);
    write_all_metadata(&map.types, out);
    write_full_bitmap(map.types.len(), out);
}

/// Appends a table's number, its flags and its names.
fn write_names(map: &TableMap<'_>, out: &mut Vec<u8>)
    requires has_map { HasMap (table_value map.now) }
    requires room { vec_len out.old + length (names_bytes (table_value map.now))
        ≤ vec_capacity out.old }
    ensures { AppendsBytes out.old out.new (names_bytes (table_value map.now)) }
{
    let [a, b, c, d, e, f, ..] = map.id.to_le_bytes();
    out.extend_from_slice(&[a, b, c, d, e, f, 0, 0, map.schema.len() as u8])
        .unwrap();
    out.extend_from_slice(map.schema).unwrap();
    out.extend_from_slice(&[0, map.table.len() as u8]).unwrap();
    out.extend_from_slice(map.table).unwrap();
    out.push(0).unwrap();
}
