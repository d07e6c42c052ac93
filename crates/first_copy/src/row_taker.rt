//! The rows of lines, as changes.

ghost use Rattle.std.specs.Prelude.{◌≡◌, IfOk, IfErr, OnOk, string_bytes};
ghost use Rattle.first_copy.specs.DefinedTables.{described_schemas, described_names, defined_schemas, defined_names};
ghost use Rattle.first_copy.specs.RowLines.{IsRowFault};
ghost use Rattle.first_copy.specs.CopySteps.{IsLineTaken};

use crate::fault::RowFault;
use crate::row_reader::RowReader;
use binlog::TableDef;
use columns::{DescribedTable, Description};
use gather::Changes;
use std::alloc::Global;
use std::rc::Rc;

/// What makes the changes of lines: the described tables, and a table of changes for each.
#[derive(Debug, Drop)]
pub(crate) struct RowTaker {
    pub(crate) description: Rc<Description>,
    tables: Vec<Rc<TableDef>>,
    cells: RowReader,
    ghost schemas: { defined_schemas tables.items ≡ described_schemas description.value.tables.items },
    ghost names: { defined_names tables.items ≡ described_names description.value.tables.items },
}

impl RowTaker {
    pub(crate) fn new(alloc: Global, description: Rc<Description>) -> Result<RowTaker, RowFault>
        ensures kept { IfOk result (λ made. made.description ≡ description) }
        ensures err { IfErr result (λ fault. fault ≡ RowFault.Memory) }
    {
        let tables = define_tables(alloc, &description.tables)?;
        Ok(RowTaker {
            description,
            tables,
            cells: RowReader::new(alloc),
        })
    }

    /// Adds the row of a line.
    pub(crate) fn take(
        &mut self,
        alloc: Global,
        line: &[u8],
        changes: &mut Changes,
    ) -> Result<(), RowFault>
        ensures taken { OnOk result (IsLineTaken self.old.description.value.tables.items line.now
            changes.old changes.new) }
        ensures fault { IfErr result (IsRowFault self.old.description.value.tables.items line.now) }
        ensures kept { self.new.description ≡ self.old.description }
    {
        let (place, image) = self.cells.read(alloc, &self.description, line)?;
        match changes.insert(&self.tables[place], &image) {
            Ok(()) => Ok(()),
            Err(_) => Err(RowFault::Memory),
        }
    }
}

/// A table of changes for each described table.
fn define_tables(alloc: Global, tables: &[DescribedTable]) -> Result<Vec<Rc<TableDef>>, RowFault>
    ensures schemas { IfOk result (λ defs. defined_schemas defs.items
        ≡ described_schemas tables.now) }
    ensures names { IfOk result (λ defs. defined_names defs.items ≡ described_names tables.now) }
    ensures err { IfErr result (λ fault. fault ≡ RowFault.Memory) }
{
    let mut defs = Vec::with_capacity(alloc, tables.len())?;
    for table in tables {
        defs.push(define_table(alloc, table)?)?;
    }
    Ok(defs)
}

/// A table of changes with the names of a described table. Its columns have no types here.
fn define_table(alloc: Global, table: &DescribedTable) -> Result<Rc<TableDef>, RowFault>
    ensures schema { IfOk result (λ def. def.value.schema.items ≡ string_bytes table.now.schema) }
    ensures name { IfOk result (λ def. def.value.table.items ≡ string_bytes table.now.name) }
    ensures err { IfErr result (λ fault. fault ≡ RowFault.Memory) }
{
    let schema = Vec::from_slice(alloc, table.schema.as_bytes())?;
    let name = Vec::from_slice(alloc, table.name.as_bytes())?;
    let def = Rc::new(alloc, TableDef::new(schema, name, Vec::new(alloc)))?;
    Ok(def)
}
