//! Events of a source gathered into transactions.

use crate::fault::GatherFault;
use crate::state::{State, take_begin, take_end, take_map, take_other, take_rows};
use crate::transaction::Delivery;
use binlog::{Event, event_type};
use std::alloc::Global;

/// Gathers events into whole transactions. It keeps only the current transaction.
#[derive(Drop)]
pub struct Gatherer {
    alloc: Global,
    /// Whether a format description has come.
    formatted: bool,
    state: State,
    /// Whether a fault was answered.
    ended: bool,
}

impl Gatherer {
    ghost use Rattle.std.specs.Prelude.{◌≡◌, ◌⊎◌, List, [], ◌∷◌, ◌++◌, IfOk, IfErr, OnErr, Err};
    ghost use Rattle.binlog.specs.Event.{EventValue};
    ghost use Rattle.binlog.specs.EventView.{event_value};
    ghost use Rattle.gather.specs.Transaction.{DeliveryValue};
    ghost use Rattle.gather.specs.Fault.{IsFault, IsKept};
    ghost use Rattle.gather.specs.View.{delivered};
    ghost use Rattle.gather.specs.Standing.{ArePending, Brings, HasGathered, HasAnsweredFault};

    /// A gatherer that has been given no events. It takes no memory.
    pub fn new(alloc: Global) -> Gatherer
        ensures { HasGathered [] [] result }
    {
        Gatherer {
            alloc,
            formatted: false,
            state: State::Between,
            ended: false,
        }
    }

    /// How many changes the open transaction has so far; 0 if none is open. It takes no memory.
    pub fn pending(&self) -> usize
        ensures { (events : List EventValue) (ds : List DeliveryValue)
            → HasGathered events ds self.now → ArePending events result }
    {
        match &self.state {
            State::Inside(current) => current.changes.len(),
            _ => 0,
        }
    }

    /// Takes the next event, and returns the transaction that it ends, if it ends one.
    ///
    /// An event that may not follow those before it is reported as `NoFormat`, `Misplaced`, `UnknownTable` or `Event`,
    /// whichever applies first in this order; `Memory` if memory runs out.
    ///
    /// Clauses:
    /// - `taken`: for every list of events so far: the answers so far and this one are the list's whole transactions in
    ///   order
    /// - `fault`: otherwise the event breaks the list, and the fault is the first that fits; or out of memory
    /// - `memory`: that comes only at an event of which something is kept: a table map of a followed table, the first
    ///   with its number of another table, or a rows event that begins with a row of one
    /// - `ended`, `err`: after a fault every call is `Ended`
    pub fn event(&mut self, event: &Event<'_>) -> Result<Option<Delivery>, GatherFault>
        ensures taken { (events : List EventValue) (ds : List DeliveryValue)
            → HasGathered events ds self.old → IfOk result
            (λ delivery. HasGathered (events ++ event_value event.now ∷ [])
            (ds ++ delivered delivery) self.new) }
        ensures fault { (events : List EventValue) (ds : List DeliveryValue)
            → HasGathered events ds self.old → IfErr result (λ fault. (fault ≡ GatherFault.Memory)
            ⊎ IsFault events (event_value event.now) fault) }
        ensures memory { (events : List EventValue) (ds : List DeliveryValue)
            → HasGathered events ds self.old → IfErr result (λ fault. fault ≡ GatherFault.Memory
            → IsKept events (event_value event.now)) }
        ensures ended { HasAnsweredFault self.old → result ≡ Err GatherFault.Ended }
        ensures err { OnErr result (HasAnsweredFault self.new) }
    {
        if self.ended {
            return Err(GatherFault::Ended);
        }
        self.ended = true;
        let delivery = self.take(event)?;
        self.ended = false;
        Ok(delivery)
    }

    /// Takes an event, depending on the state.
    fn take(&mut self, event: &Event<'_>) -> Result<Option<Delivery>, GatherFault>
        ensures taken { (events : List EventValue) (ds : List DeliveryValue)
            → Brings events ds self.old.formatted self.old.state
            → IfOk result (λ delivery. Brings (events ++ event_value event.now ∷ [])
            (ds ++ delivered delivery) self.new.formatted self.new.state) }
        ensures fault { (events : List EventValue) (ds : List DeliveryValue)
            → Brings events ds self.old.formatted self.old.state
            → IfErr result (λ fault. (fault ≡ GatherFault.Memory)
            ⊎ IsFault events (event_value event.now) fault) }
        ensures memory { (events : List EventValue) (ds : List DeliveryValue)
            → Brings events ds self.old.formatted self.old.state
            → IfErr result (λ fault. fault ≡ GatherFault.Memory
            → IsKept events (event_value event.now)) }
        ensures ended { self.new.ended ≡ self.old.ended }
    {
        if lacks_format(self.formatted, event) {
            return Err(GatherFault::NoFormat);
        }
        match event {
            Event::Neutral => Ok(None),
            Event::Format => {
                self.formatted = true;
                self.state = State::Between;
                Ok(None)
            }
            Event::Rotate { .. } | Event::Stop => {
                self.state = State::Between;
                Ok(None)
            }
            Event::Gtid(gtid) => {
                self.state = State::Announced(*gtid);
                Ok(None)
            }
            Event::Begin => take_begin(&mut self.state, self.alloc),
            Event::TableMap(map) => take_map(&mut self.state, self.alloc, map),
            Event::OtherMap { id } => take_other(&mut self.state, *id),
            Event::Rows(rows) => take_rows(&mut self.state, rows),
            Event::Commit => take_end(&mut self.state, event_type::QUERY),
            Event::Xid { .. } => take_end(&mut self.state, event_type::XID),
        }
    }
}

ghost use Rattle.std.specs.Prelude.{◌≡◌, ◌&&◌, not};
ghost use Rattle.binlog.specs.EventView.{event_value};
ghost use Rattle.gather.specs.Fault.{is_of_transaction};

/// Whether the event belongs to a transaction, and no format description has come.
fn lacks_format(formatted: bool, event: &Event<'_>) -> bool
    ensures { result ≡ (not formatted && is_of_transaction (event_value event.now)) }
{
    match event {
        Event::Neutral | Event::Format | Event::Rotate { .. } | Event::Stop => false,
        _ => !formatted,
    }
}
