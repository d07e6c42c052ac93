//! The columns of a table map. MySQL Source Documentation, "Binlog Event", the page `binary_log::Table_map_event`.

ghost use Rattle.std.specs.Prelude.{◌≡◌, ◌+◌, ◌<◌, ◌≤◌, ◌^◌, List, length, drop, IfOk, IfErr, OnOk, MatchResult, Some, None, sum_by, map, flat_map, vec_len, vec_capacity};
ghost use Rattle.binlog.specs.Count.{count_at, count_width, no_count};
ghost use Rattle.binlog.specs.Table.{most_columns, AreColumns, columns_fault, codes_at, metadata_place, metadata_length, types_fault, all_metadata_fault};
ghost use Rattle.binlog.specs.declared.column.kind.ColumnKind.{ColumnKind};
ghost use Rattle.binlog.specs.declared.fault.EventFaultKind.TheVariants.{Columns};
ghost use Rattle.gtid.specs.Appending.{AppendsBytes};
ghost use Rattle.binlog.specs.Column.{type_code, metadata};

use crate::column::kind::ColumnType;
use crate::column::metadata::metadata_size;
use crate::column::types::ColumnTypes;
use crate::count::read_count;
use crate::fault::{EventFault, EventFaultKind};

/// How many columns a table has at most. MySQL Reference Manual, "Limits on Table Column Count and Row Size".
pub(crate) const MOST_COLUMNS: usize = 4096;

/// Reads the columns of a table map from an offset on: their number, a type code each, the length of all metadata, the
/// metadata, and a bitmap of the columns that may be null, whose bits are not read.
///
/// A field that does not fit is `Truncated`. Besides, in this order: a number that is malformed or not from 1 to 4,096
/// is reported as `Columns`; a type that is not supported as `ColumnType`; a length of all metadata that is not the sum
/// of the columns' as `Metadata`; and a column whose metadata is out of range as `Metadata` or `ColumnType`, at the
/// first byte of that metadata.
pub(crate) fn read_columns(bytes: &[u8], at: usize) -> Result<ColumnTypes<'_>, EventFault>
    requires { at ≤ length bytes.now }
    ensures found { IfOk result (λ columns. AreColumns columns (drop at bytes.now)) }
    ensures only { (kinds : List ColumnKind) → AreColumns kinds (drop at bytes.now)
        → MatchResult result (λ columns. columns ≡ kinds) (λ _. ⊥) }
    ensures fault { IfErr result (λ fault. columns_fault bytes.now at ≡ Some fault) }
    ensures none { IfOk result (λ _. columns_fault bytes.now at ≡ None) }
{
    let (codes, metadata) = find_columns(bytes, at)?;
    Ok(ColumnTypes::encoded(codes, metadata))
}

/// Checks the columns from an offset on, and finds their type codes, and the bytes from their metadata on.
fn find_columns(bytes: &[u8], at: usize) -> Result<(&[u8], &[u8]), EventFault>
    requires { at ≤ length bytes.now }
    ensures codes { IfOk result (λ found. found.0.now ≡ codes_at bytes.now at) }
    ensures metadata { IfOk result (λ found. found.1.now
        ≡ drop (metadata_place bytes.now at) bytes.now) }
    ensures none { IfOk result (λ _. columns_fault bytes.now at ≡ None) }
    ensures fault { IfErr result (λ fault. columns_fault bytes.now at ≡ Some fault) }
{
    let (columns, width) = read_number(bytes, at)?;
    let types = at + width;
    if bytes.len() - types < columns {
        return Err(EventFault::truncated(types));
    }
    let measure = types + columns;
    let codes = &bytes[types..measure];
    let size = sum_of_metadata(codes, types)?;
    let (stated, width) = read_count(bytes, measure, EventFaultKind::Metadata)?;
    if stated != size as u64 {
        return Err(EventFault::new(EventFaultKind::Metadata, measure));
    }
    let start = measure + width;
    if bytes.len() - start < size {
        return Err(EventFault::truncated(start));
    }
    check_metadata(codes, bytes, start)?;
    let bitmap = start + size;
    if bytes.len() - bitmap < columns.div_ceil(8) {
        return Err(EventFault::truncated(bitmap));
    }
    Ok((codes, &bytes[start..]))
}

/// Reads the number of columns at an offset, and how many bytes it takes.
fn read_number(bytes: &[u8], at: usize) -> Result<(usize, usize), EventFault>
    requires { at ≤ length bytes.now }
    ensures value { IfOk result (λ read. (read.0 ≡ count_at bytes.now at)
        × (read.1 ≡ count_width bytes.now at)) }
    ensures range { IfOk result (λ read. (1 ≤ read.0) × (read.0 ≤ most_columns)) }
    ensures within { IfOk result (λ read. at + read.1 ≤ length bytes.now) }
    ensures whole { IfOk result (λ _. no_count bytes.now at Columns ≡ None) }
    ensures fault { IfErr result (λ fault. columns_fault bytes.now at ≡ Some fault) }
{
    let (columns, width) = read_count(bytes, at, EventFaultKind::Columns)?;
    if columns < 1 {
        return Err(EventFault::new(EventFaultKind::Columns, at));
    }
    if columns > MOST_COLUMNS as u64 {
        return Err(EventFault::new(EventFaultKind::Columns, at));
    }
    Ok((columns as usize, width))
}

/// How many bytes of metadata the columns with these type codes have. The codes are at `place`; the first that is not
/// supported is reported as `ColumnType`.
fn sum_of_metadata(codes: &[u8], place: usize) -> Result<usize, EventFault>
    requires { place + length codes.now < 2 ^ 63 }
    ensures sum { IfOk result (λ sum. sum ≡ sum_by metadata_length codes.now) }
    ensures none { IfOk result (λ _. types_fault place codes.now ≡ None) }
    ensures fault { IfErr result (λ fault. types_fault place codes.now ≡ Some fault) }
{
    let mut sum = 0;
    for i in 0..codes.len() {
        let Some(size) = metadata_size(codes[i]) else {
            return Err(EventFault::new(EventFaultKind::ColumnType(codes[i]), place + i));
        };
        sum += size;
    }
    Ok(sum)
}

/// Checks the metadata, at `start`, of the columns with these type codes.
fn check_metadata(codes: &[u8], bytes: &[u8], start: usize) -> Result<(), EventFault>
    requires read { types_fault 0 codes.now ≡ None }
    requires long { start + sum_by metadata_length codes.now ≤ length bytes.now }
    ensures none { OnOk result (all_metadata_fault bytes.now start codes.now ≡ None) }
    ensures fault { IfErr result (λ fault. all_metadata_fault bytes.now start codes.now
        ≡ Some fault) }
{
    let mut place = start;
    for i in 0..codes.len() {
        match ColumnType::read(codes[i], &bytes[place..]) {
            Ok((_, rest)) => place = bytes.len() - rest.len(),
            Err(kind) => return Err(EventFault::new(kind, place)),
        }
    }
    Ok(())
}

/// Appends the type codes of columns.
pub(crate) fn write_codes(columns: &ColumnTypes<'_>, out: &mut Vec<u8>)
    requires { vec_len out.old + length (map type_code columns.now) ≤ vec_capacity out.old }
    ensures { AppendsBytes out.old out.new (map type_code columns.now) }
{
    for column in columns.iter() {
        out.push(column.code()).unwrap();
    }
}

/// How many bytes the metadata of columns takes.
pub(crate) fn metadata_length(columns: &ColumnTypes<'_>) -> usize
    requires { length columns.now ≤ most_columns }
    ensures { result ≡ length (flat_map metadata columns.now) }
{
    let mut sum = 0;
    for column in columns.iter() {
        sum += metadata_size(column.code()).unwrap_or(0);
    }
    sum
}

/// Appends the metadata of columns.
pub(crate) fn write_all_metadata(columns: &ColumnTypes<'_>, out: &mut Vec<u8>)
    requires { vec_len out.old + length (flat_map metadata columns.now) ≤ vec_capacity out.old }
    ensures { AppendsBytes out.old out.new (flat_map metadata columns.now) }
{
    for column in columns.iter() {
        column.write_metadata(out);
    }
}
