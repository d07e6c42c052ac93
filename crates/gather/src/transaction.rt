//! Transactions.

use crate::changes::Changes;
use crate::image::ImageRef;
use binlog::TableDef;
use gtid::Gtid;
use std::rc::Rc;

/// What a transaction does to one row of a table.
#[derive(Debug, Drop)]
pub enum Change<'a> {
    /// The row is added.
    Insert {
        table: &'a Rc<TableDef>,
        after: ImageRef<'a>,
    },
    /// The row is removed.
    Delete {
        table: &'a Rc<TableDef>,
        before: ImageRef<'a>,
    },
    /// `before` is removed and `after` is added.
    Update {
        table: &'a Rc<TableDef>,
        before: ImageRef<'a>,
        after: ImageRef<'a>,
    },
}

impl<'a> Change<'a> {
    ghost use Rattle.std.specs.Prelude.{◌≡◌};
    ghost use Rattle.gather.specs.View.{change_value};
    ghost use Rattle.gather.specs.Transaction.{changed_schema, changed_table};

    /// The table whose row it changes.
    pub fn table(&self) -> &'a TableDef
        ensures schema { result.now.schema.items ≡ changed_schema (change_value self.now) }
        ensures table { result.now.table.items ≡ changed_table (change_value self.now) }
    {
        match self {
            Change::Insert { table, .. } => table,
            Change::Delete { table, .. } => table,
            Change::Update { table, .. } => table,
        }
    }
}

/// A whole transaction: its GTID, and its changes in order.
#[derive(Debug, Drop)]
pub struct Delivery {
    pub gtid: Gtid,
    pub changes: Changes,
}
