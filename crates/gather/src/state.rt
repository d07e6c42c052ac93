//! The state of a gatherer: how far into a transaction it is.

ghost use Rattle.std.specs.Prelude.{◌≡◌, ◌≢◌, true, IfOk, IfErr};
ghost use Rattle.binlog.specs.Event.{EventValue, begin, table_map, other_map, rows};
ghost use Rattle.binlog.specs.RowsView.{rows_value};
ghost use Rattle.binlog.specs.TableView.{table_value};
ghost use Rattle.gather.specs.Transaction.{is_end};
ghost use Rattle.gather.specs.Fault.{type_of};
ghost use Rattle.gather.specs.View.{delivered};
ghost use Rattle.gather.specs.State.{StepsTo, FaultsAt, AddsInside};

use crate::fault::GatherFault;
use crate::open_transaction::OpenTransaction;
use crate::transaction::Delivery;
use binlog::{RowsEvent, TableMap, event_type};
use gtid::Gtid;
use std::alloc::Global;
use std::mem;

/// How far into a transaction a gatherer is.
#[derive(Drop)]
pub(crate) enum State {
    /// Outside of any transaction.
    Between,
    /// Right after the GTID.
    Announced(Gtid),
    /// After BEGIN.
    Inside(OpenTransaction),
}

/// Takes BEGIN, which must come right after the GTID.
pub(crate) fn take_begin(state: &mut State, alloc: Global) -> Result<Option<Delivery>, GatherFault>
    ensures taken { IfOk result (λ delivery. StepsTo begin state.old state.new
        (delivered delivery)) }
    ensures fault { IfErr result (FaultsAt begin state.old) }
    ensures no_memory { IfErr result (λ fault. fault ≢ GatherFault.Memory) }
{
    match state {
        State::Announced(gtid) => {
            *state = State::Inside(OpenTransaction::new(alloc, *gtid));
            Ok(None)
        }
        _ => Err(GatherFault::Misplaced(event_type::QUERY)),
    }
}

/// Takes a table map, which must come after BEGIN.
pub(crate) fn take_map(
    state: &mut State,
    alloc: Global,
    map: &TableMap<'_>,
) -> Result<Option<Delivery>, GatherFault>
    ensures taken { IfOk result (λ delivery. StepsTo
        (table_map (table_value map.now)) state.old state.new (delivered delivery)) }
    ensures fault { IfErr result (FaultsAt (table_map (table_value map.now)) state.old) }
    ensures memory { IfErr result (λ fault. fault ≡ GatherFault.Memory
        → AddsInside (table_map (table_value map.now)) state.old) }
{
    match state {
        State::Inside(current) => {
            current.take_map(alloc, map)?;
            Ok(None)
        }
        _ => Err(GatherFault::Misplaced(event_type::TABLE_MAP)),
    }
}

/// Takes a table map of a table that is not followed, which must come after BEGIN.
pub(crate) fn take_other(state: &mut State, id: u64) -> Result<Option<Delivery>, GatherFault>
    ensures taken { IfOk result (λ delivery. StepsTo (other_map id) state.old state.new
        (delivered delivery)) }
    ensures fault { IfErr result (FaultsAt (other_map id) state.old) }
    ensures memory { IfErr result (λ fault. fault ≡ GatherFault.Memory
        → AddsInside (other_map id) state.old) }
{
    match state {
        State::Inside(current) => {
            current.take_other(id)?;
            Ok(None)
        }
        _ => Err(GatherFault::Misplaced(event_type::TABLE_MAP)),
    }
}

/// Takes a rows event, which must come after BEGIN.
pub(crate) fn take_rows(
    state: &mut State,
    event: &RowsEvent<'_>,
) -> Result<Option<Delivery>, GatherFault>
    ensures taken { IfOk result (λ delivery. StepsTo
        (rows (rows_value event.now)) state.old state.new (delivered delivery)) }
    ensures fault { IfErr result (FaultsAt (rows (rows_value event.now)) state.old) }
    ensures memory { IfErr result (λ fault. fault ≡ GatherFault.Memory
        → AddsInside (rows (rows_value event.now)) state.old) }
{
    match state {
        State::Inside(current) => {
            current.take_rows(event)?;
            Ok(None)
        }
        _ => Err(GatherFault::Misplaced(event.kind.code())),
    }
}

/// Takes an event of this type that ends a transaction, which must come after BEGIN.
pub(crate) fn take_end(state: &mut State, code: u8) -> Result<Option<Delivery>, GatherFault>
    ensures taken { (e : EventValue) → is_end e ≡ true
        → IfOk result (λ delivery. StepsTo e state.old state.new (delivered delivery)) }
    ensures fault { (e : EventValue) → is_end e ≡ true → type_of e ≡ code
        → IfErr result (FaultsAt e state.old) }
    ensures no_memory { IfErr result (λ fault. fault ≢ GatherFault.Memory) }
{
    match mem::replace(state, State::Between) {
        State::Inside(current) => {
            let OpenTransaction { gtid, changes, .. } = current;
            Ok(Some(Delivery { gtid, changes }))
        }
        _ => Err(GatherFault::Misplaced(code)),
    }
}
