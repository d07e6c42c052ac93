//! The changes of a rows event.

ghost use Rattle.std.specs.Prelude.{◌≡◌, ℕ, ◌⊎◌, IfErr, OnOk, Some};
ghost use Rattle.binlog.specs.RowsView.{rows_value};
ghost use Rattle.gather.specs.Fault.{IsRowsFault, HasChange};
ghost use Rattle.gather.specs.OpenTransaction.{table_of, AppendsChanges};

use crate::changes::Changes;
use crate::fault::GatherFault;
use binlog::{RowsEvent, TableDef};
use std::rc::Rc;

/// Appends the changes of a rows event of this table. A row that does not fit is a fault, and so is running out of
/// memory, which comes only after a row was read.
pub(crate) fn push_changes(
    table: &Rc<TableDef>,
    event: &RowsEvent<'_>,
    changes: &mut Changes,
) -> Result<(), GatherFault>
    ensures ok { (id : ℕ) → OnOk result (AppendsChanges (table_of id table.now)
        (rows_value event.now) changes.old changes.new) }
    ensures fault { (id : ℕ) → IfErr result (λ fault. (fault ≡ GatherFault.Memory)
        ⊎ IsRowsFault (Some (Some (table_of id table.now))) (rows_value event.now) fault) }
    ensures memory { (id : ℕ) → IfErr result (λ fault. fault ≡ GatherFault.Memory
        → HasChange (Some (Some (table_of id table.now))) (rows_value event.now)) }
{
    let event = *event;
    for pair in event.rows(table)? {
        changes.push(table, &pair?)?;
    }
    Ok(())
}
