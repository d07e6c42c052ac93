//! The lines of a table.

ghost use Rattle.std.specs.Prelude.{◌≡◌, ◌++◌, ◌<◌, List, ℕ, IfSome, IfNone, IfOk, IfErr, MatchResult, Some, string_bytes};
ghost use Rattle.columns.specs.Descriptions.{DescribedTableValue, column_values, described_table, table_front, lines_text, table_text, AreDescribedColumns, IsTable, BeginsNot, IsFront, IsStopped};
ghost use Rattle.columns.specs.Lines.{ColumnValue, field, IsName};
ghost use Rattle.columns.specs.LineFaults.{IsFaultAmong, front_fields};
ghost use Rattle.columns.specs.declared.fields.LineFault.TheVariants.{Memory};

use crate::column::Column;
use crate::fields::{LineFault, read_column, read_name, split_field};
use crate::seen::see;
use crate::table::DescribedTable;
use std::alloc::Global;
use std::collections::BTreeSet;

/// What is wrong with a line, and how many bytes stand from its start on.
#[derive(Clone, Copy, Debug)]
pub(crate) struct Stop {
    pub(crate) fault: LineFault,
    pub(crate) left: usize,
}

/// Reads the table that the text begins with, whose names are these and stand so at the front of its lines, and what
/// follows its lines.
pub(crate) fn read_table<'a>(
    alloc: Global,
    schema: String,
    name: String,
    front: &[u8],
    text: &'a [u8],
) -> Result<(DescribedTable, &'a [u8]), Stop>
    requires names { IsName (string_bytes schema) × IsName (string_bytes name) }
    requires front { front.now ≡ field (string_bytes schema) 9 ++ field (string_bytes name) 9 }
    requires begins { (rest : List ℕ) × (text.now ≡ front.now ++ rest) }
    ensures found { IfOk result (λ read. text.now
        ≡ table_text (described_table read.0) ++ read.1.now) }
    ensures lawful { IfOk result (λ read. IsTable (described_table read.0)) }
    ensures front { IfOk result (λ read. front.now ≡ table_front (described_table read.0)) }
    ensures fault { IfErr result (λ stop. IsStopped front.now text.now stop.left stop.fault) }
    ensures only { (table : DescribedTableValue) (rest : List ℕ) → IsTable table →
        string_bytes schema ≡ table.schema → string_bytes name ≡ table.name →
        BeginsNot (table_front table) rest → text.now ≡ table_text table ++ rest →
        MatchResult result (λ read. (described_table read.0 ≡ table) × (read.1.now ≡ rest))
        (λ stop. stop.fault ≡ LineFault.Memory) }
{
    match read_columns(alloc, front, text) {
        Ok((columns, rest)) => Ok((
            DescribedTable {
                schema,
                name,
                columns,
            },
            rest,
        )),
        Err(stop) => Err(stop),
    }
}

/// Reads the names in the first two fields of a line: the schema's, the table's, and the two fields as they stand there.
#[tactic(auto, using(crate::proofs::LineFaults::first_name, crate::proofs::LineFaults::second_name))]
pub(crate) fn read_front(alloc: Global, text: &[u8]) -> Result<(String, String, &[u8]), LineFault>
    ensures found { IfOk result (λ read. (rest : List ℕ) × (text.now ≡ read.2.now ++ rest)) }
    ensures fault { IfErr result (IsFaultAmong front_fields text.now) }
    ensures front { IfOk result (λ read. read.2.now
        ≡ field (string_bytes read.0) 9 ++ field (string_bytes read.1) 9) }
    ensures names { IfOk result (λ read. IsName (string_bytes read.0)
        × IsName (string_bytes read.1)) }
    ensures only { (schema name rest : List ℕ) → IsName schema → IsName name
        → text.now ≡ (field schema 9 ++ field name 9) ++ rest
        → MatchResult result (λ read. (string_bytes read.0 ≡ schema)
        × (string_bytes read.1 ≡ name)) (λ fault. fault ≡ LineFault.Memory) }
{
    let (schema, rest) = read_name(alloc, text)?;
    let (name, rest) = read_name(alloc, rest)?;
    Ok((schema, name, &text[..text.len() - rest.len()]))
}

/// Reads the columns whose lines begin with these two fields, as far as there are any, and what follows them.
fn read_columns<'a>(
    alloc: Global,
    front: &[u8],
    text: &'a [u8],
) -> Result<(Vec<Column>, &'a [u8]), Stop>
    requires { IsFront front.now }
    ensures found { IfOk result (λ read. text.now
        ≡ lines_text front.now (column_values read.0.items) ++ read.1.now) }
    ensures lawful { IfOk result (λ read. AreDescribedColumns (column_values read.0.items)) }
    ensures end { IfOk result (λ read. BeginsNot front.now read.1.now) }
    ensures fault { IfErr result (λ stop. IsStopped front.now text.now stop.left stop.fault) }
    ensures only { (columns : List ColumnValue) (rest : List ℕ) → AreDescribedColumns columns
        → BeginsNot front.now rest → text.now ≡ lines_text front.now columns ++ rest
        → MatchResult result (λ read. (column_values read.0.items ≡ columns)
        × (read.1.now ≡ rest)) (λ stop. stop.fault ≡ LineFault.Memory) }
{
    let mut columns = Vec::new(alloc);
    let mut seen = BTreeSet::new(alloc);
    let mut left = text;
    while let Some(line) = after_front(front, left) {
        let (column, rest) = match read_column(alloc, line) {
            Ok(read) => read,
            Err(fault) => return Err(Stop {
                fault,
                left: left.len(),
            }),
        };
        let (name, _) = split_field(line);
        match see(&mut seen, name) {
            Ok(true) => {}
            Ok(false) => return Err(Stop {
                fault: LineFault::ColumnTwice,
                left: left.len(),
            }),
            Err(_) => return Err(Stop {
                fault: LineFault::Memory,
                left: left.len(),
            }),
        }
        match columns.push(column) {
            Ok(()) => {}
            Err(_) => return Err(Stop {
                fault: LineFault::Memory,
                left: left.len(),
            }),
        }
        left = rest;
    }
    Ok((columns, left))
}

/// What follows these bytes, if the text begins with them.
pub(crate) fn after_front<'a>(front: &[u8], text: &'a [u8]) -> Option<&'a [u8]>
    ensures some { IfSome result (λ rest. text.now ≡ front.now ++ rest.now) }
    ensures none { IfNone result (BeginsNot front.now text.now) }
{
    if text.len() < front.len() {
        return None;
    }
    let (start, rest) = text.split_at(front.len());
    if start != front {
        return None;
    }
    Some(rest)
}
