//! The description of tables.

ghost use Rattle.std.specs.Prelude.{◌≡◌, ◌+◌, ◌-◌, ◌==◌, [], List, IfOk, IfErr, IsErrAnd, MatchResult, length, take, count_by};
ghost use Rattle.columns.specs.Descriptions.{DescribedTableValue, described_tables, description_text, AreTables, IsDescription, IsTableStopped, IsDescriptionFault};
ghost use Rattle.columns.specs.declared.fields.LineFault.TheVariants.{Memory};

use crate::fields::LineFault;
use crate::lines::{Stop, read_front, read_table};
use crate::seen::see;
use crate::table::DescribedTable;
use std::alloc::Global;
use std::collections::BTreeSet;
use thiserror::Error;

/// The description of tables.
#[derive(Debug, PartialEq, Eq, Drop)]
pub struct Description {
    /// In the order of the text. No two have the same schema and name.
    pub tables: Vec<DescribedTable>,
    pub ghost lawful: { ∥ IsDescription (described_tables tables.items) ∥₁ },
}

/// Why a text is not a description: the number of a line, from 1, and what is wrong with it.
#[derive(Clone, Copy, Debug, PartialEq, Eq, Error)]
#[error("line {line}: {fault}")]
pub struct DescriptionFault {
    pub line: usize,
    pub fault: LineFault,
}

impl Description {
    /// Reads the lines of a description: for each column the names of its schema, its table and itself, its type, its
    /// character set or `NULL`, and its key, with tabs between and a newline at the end, as `mysql --batch` writes
    /// them. The lines of a table stand together, and no table has two columns of one name.
    ///
    /// The fault of the empty text is `NoLine` in line 1. Of another text it is that of the first line which is wrong after
    /// those before it; `Memory` is answered only where there is something to read.
    pub fn read(alloc: Global, text: &[u8]) -> Result<Description, DescriptionFault>
        ensures found { IfOk result (λ made. text.now
            ≡ description_text (described_tables made.tables.items)) }
        ensures lawful { IfOk result (λ made. IsDescription (described_tables made.tables.items)) }
        ensures only { (tables : List DescribedTableValue) → IsDescription tables
            → text.now ≡ description_text tables → MatchResult result
            (λ made. described_tables made.tables.items ≡ tables) (λ fault. fault.fault
            ≡ LineFault.Memory) }
        ensures empty { text.now ≡ [] →
            IsErrAnd result (λ fault. (fault.line ≡ 1) × (fault.fault ≡ LineFault.NoLine)) }
        ensures fault { IfErr result (λ fault. IsDescriptionFault text.now fault.line fault.fault) }
    {
        if text.is_empty() {
            return Err(DescriptionFault {
                line: 1,
                fault: LineFault::NoLine,
            });
        }
        match read_tables(alloc, text) {
            Ok(tables) => Ok(Description { tables }),
            Err(stop) => Err(DescriptionFault {
                line: line_of(text, stop.left),
                fault: stop.fault,
            }),
        }
    }
}

/// The number of the line in which the last so many bytes of the text begin.
fn line_of(text: &[u8], left: usize) -> usize
    ensures { result ≡ count_by (λ b. b == 10) (take (length text.now - left) text.now) + 1 }
{
    let (before, _) = text.split_at(text.len().saturating_sub(left));
    before.iter().filter(|byte| **byte == b'\n').count() + 1
}

/// Reads tables up to the end of the text.
fn read_tables(alloc: Global, text: &[u8]) -> Result<Vec<DescribedTable>, Stop>
    ensures found { IfOk result (λ tables. text.now
        ≡ description_text (described_tables tables.items)) }
    ensures lawful { IfOk result (λ tables. AreTables (described_tables tables.items)) }
    ensures only { (tables : List DescribedTableValue) → AreTables tables
        → text.now ≡ description_text tables → MatchResult result
        (λ read. described_tables read.items ≡ tables) (λ stop. stop.fault ≡ LineFault.Memory) }
    ensures fault { IfErr result (λ stop. IsTableStopped text.now stop.left stop.fault) }
{
    let mut tables = Vec::new(alloc);
    let mut seen = BTreeSet::new(alloc);
    let mut left = text;
    while left.len() > 0 {
        let (schema, name, front) = match read_front(alloc, left) {
            Ok(read) => read,
            Err(fault) => return Err(Stop {
                fault,
                left: left.len(),
            }),
        };
        match see(&mut seen, front) {
            Ok(true) => {}
            Ok(false) => return Err(Stop {
                fault: LineFault::TableApart,
                left: left.len(),
            }),
            Err(_) => return Err(Stop {
                fault: LineFault::Memory,
                left: left.len(),
            }),
        }
        let (table, rest) = match read_table(alloc, schema, name, front, left) {
            Ok(read) => read,
            Err(stop) => return Err(stop),
        };
        match tables.push(table) {
            Ok(()) => {}
            Err(_) => return Err(Stop {
                fault: LineFault::Memory,
                left: left.len(),
            }),
        }
        left = rest;
    }
    Ok(tables)
}
