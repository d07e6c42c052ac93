//! A transaction that has begun and not ended.

use crate::changes::Changes;
use crate::fault::GatherFault;
use crate::row_changes::push_changes;
use binlog::{RowsEvent, TableDef, TableMap};
use gtid::Gtid;
use std::alloc::Global;
use std::collections::BTreeMap;
use std::rc::Rc;

/// A transaction after its BEGIN.
#[derive(Drop)]
pub(crate) struct OpenTransaction {
    pub(crate) gtid: Gtid,
    /// For each table number its last table map: the table, or `None` if it is not followed.
    pub(crate) maps: BTreeMap<u64, Option<Rc<TableDef>>>,
    pub(crate) changes: Changes,
}

impl OpenTransaction {
    ghost use Rattle.std.specs.Prelude.{◌≡◌, ◌⊎◌, [], ◌∷◌, ◌++◌, List, None, IfErr, OnOk, OnErr, Err};
    ghost use Rattle.binlog.specs.Event.{EventValue, table_map, other_map, rows};
    ghost use Rattle.binlog.specs.RowsView.{rows_value};
    ghost use Rattle.binlog.specs.TableView.{table_value};
    ghost use Rattle.gather.specs.Transaction.{map_of};
    ghost use Rattle.gather.specs.Fault.{IsRowsFault, HasChange};
    ghost use Rattle.gather.specs.OpenTransaction.{HasTaken};

    /// A transaction whose BEGIN has just come.
    pub(crate) fn new(alloc: Global, gtid: Gtid) -> OpenTransaction
        ensures gtid { result.gtid ≡ gtid }
        ensures keeps { HasTaken [] result }
    {
        OpenTransaction {
            gtid,
            maps: BTreeMap::new(alloc),
            changes: Changes::new(alloc),
        }
    }

    /// Takes a table map. The only error is `Memory`.
    pub(crate) fn take_map(&mut self, alloc: Global, map: &TableMap<'_>) -> Result<(), GatherFault>
        ensures gtid { self.new.gtid ≡ self.old.gtid }
        ensures keeps { (body : List EventValue) → HasTaken body self.old
            → OnOk result (HasTaken (body ++ table_map (table_value map.now) ∷ []) self.new) }
        ensures err { OnErr result (result ≡ Err GatherFault.Memory) }
    {
        let table = match map.copy(alloc) {
            Ok(table) => Rc::new(alloc, table)?,
            Err(_) => return Err(GatherFault::Memory),
        };
        self.maps.insert(map.id, Some(table))?;
        Ok(())
    }

    /// Takes a table map of a table that is not followed. The only error is `Memory`, which comes only if no table map
    /// before it has its number.
    pub(crate) fn take_other(&mut self, id: u64) -> Result<(), GatherFault>
        ensures gtid { self.new.gtid ≡ self.old.gtid }
        ensures keeps { (body : List EventValue) → HasTaken body self.old
            → OnOk result (HasTaken (body ++ other_map id ∷ []) self.new) }
        ensures err { OnErr result (result ≡ Err GatherFault.Memory) }
        ensures memory { (body : List EventValue) → HasTaken body self.old
            → OnErr result (map_of body id ≡ None) }
    {
        self.maps.insert(id, None)?;
        Ok(())
    }

    /// Takes a rows event: appends its changes, whose table is that of the last table map with its number. The faults
    /// are `UnknownTable`, `Event` and `Memory`, which comes only at a change: if the table is followed, and the event
    /// begins with a row of it.
    pub(crate) fn take_rows(&mut self, event: &RowsEvent<'_>) -> Result<(), GatherFault>
        ensures gtid { self.new.gtid ≡ self.old.gtid }
        ensures keeps { (body : List EventValue) → HasTaken body self.old
            → OnOk result (HasTaken (body ++ rows (rows_value event.now) ∷ []) self.new) }
        ensures fault { (body : List EventValue) → HasTaken body self.old
            → IfErr result (λ fault. (fault ≡ GatherFault.Memory)
            ⊎ IsRowsFault (map_of body event.now.id) (rows_value event.now) fault) }
        ensures memory { (body : List EventValue) → HasTaken body self.old
            → IfErr result (λ fault. fault ≡ GatherFault.Memory
            → HasChange (map_of body event.now.id) (rows_value event.now)) }
    {
        match self.maps.get(&event.id) {
            None => Err(GatherFault::UnknownTable(event.id)),
            Some(None) => Ok(()),
            Some(Some(table)) => push_changes(table, event, &mut self.changes),
        }
    }
}
