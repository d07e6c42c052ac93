//! Payloads of the dump: events, and the EOF at the end of the log.

ghost use Rattle.std.specs.Prelude.{◌≡◌, Bool, List, ◌∷◌, [], IfOk, IfErr, IfSome, IfNone, true, false, Ok, Err};
ghost use Rattle.sqlite.specs.State.{HasCleanDisk};
ghost use Rattle.binlog.specs.Filter.{Names};
ghost use Rattle.binlog.specs.Event.{EventValue};
ghost use Rattle.gather.specs.Transaction.{DeliveryValue};
ghost use Rattle.gather.specs.Standing.{HasGathered as Gathers};
ghost use Rattle.gather.specs.View.{delivery_value, delivered};
ghost use Rattle.store.specs.State.{Content};
ghost use Rattle.store.specs.Store.{Holds, HoldsAs, database, names_of};
ghost use Rattle.wire.specs.Payload.{Payload};
ghost use Rattle.gather.specs.declared.gatherer.Gatherer.{Gatherer};
ghost use Rattle.replica.specs.PayloadStep.{EndsDump, GathersMore, outcome_of, reason_of_events};
ghost use Rattle.replica.specs.Message.{begins_event};
ghost use Rattle.store.specs.Changes.{is_executed};
ghost use Rattle.replica.specs.Conn.{IsOwn};
ghost use Rattle.replica.specs.Alone.{TakesAlone, IsOwnOrHalted};
ghost use Rattle.replica.specs.Event.{TakesEvent, so_far};
ghost use Rattle.replica.specs.Noted.{HasGrown, HasNotices, HasNoNotice, asked_about, MayEnd};
ghost use Rattle.replica.specs.Sees.{SeesEvent, SeesPayload};
ghost use Rattle.replica.specs.Missing.{waits_for_none};
ghost use Rattle.replica.specs.Keeps.{KeepsObserved};

use crate::observer::Observer;
use crate::session::end::{Reason, Refusal};
use crate::session::message::reported;
use binlog::{Event, Follow, read_event_only};
use gather::{Delivery, GatherFault, Gatherer};
use greet::read_eof;
use sqlite::Alter;
use std::alloc::Global;
use store::{Applied, Store, StoreFault};

/// The reason for a payload that does not carry an event.
fn no_event(alloc: Global, payload: &[u8]) -> Reason
    requires { begins_event payload.now ≡ false }
    ensures ends { (names : Names) (es : List EventValue) → EndsDump names es payload.now result }
    ensures may_end { IsOwn result }
{
    match read_eof(alloc, payload) {
        Ok(()) => Reason::SourceEof,
        Err(fault) => reported(fault),
    }
}

/// Maps a gather fault to a reason.
fn reason_for(fault: GatherFault) -> Reason
    ensures maps { result ≡ reason_of_events fault }
    ensures may_end { IsOwn result }
{
    match fault {
        GatherFault::Memory => Reason::Memory,
        other => Reason::Gather(other),
    }
}

/// Reads and gathers the event of a payload, and returns the transaction that it ends, if it ends one.
fn gather<W: Observer>(
    alloc: Global,
    gatherer: &mut Gatherer,
    follow: &Follow,
    payload: &[u8],
    observer: &mut W,
) -> Result<Option<Delivery>, Reason>
    ensures ok { (es : List EventValue) (ds : List DeliveryValue) → Gathers es ds gatherer.old
        → IfOk result (λ delivery. GathersMore follow.now es ds payload.now
        (delivered delivery) gatherer.new) }
    ensures err { (es : List EventValue) (ds : List DeliveryValue) → Gathers es ds gatherer.old
        → IfErr result (EndsDump follow.now es payload.now) }
    ensures may_end { IfErr result IsOwn }
    ensures noticed { HasNoNotice (W.account observer.old) (W.account observer.new) }
    // The observer is given the event, if one is read, and nothing else.
    ensures sees { (es : List EventValue) (ds : List DeliveryValue) → Gathers es ds gatherer.old
        → SeesEvent follow.now es payload.now (W.account observer.old) (W.account observer.new) }
{
    let [0, body @ ..] = payload else {
        return Err(no_event(alloc, payload));
    };
    let event = match read_event_only(body, follow) {
        Ok(event) => event,
        Err(fault) => return Err(Reason::Event(fault)),
    };
    observer.event(&event, body, gatherer.pending());
    match gatherer.event(&event) {
        Ok(delivery) => Ok(delivery),
        Err(fault) => Err(reason_for(fault)),
    }
}

/// Maps the store's answer: whether the transaction was applied, or the reason why the connection ends.
fn outcome(answer: Result<Applied, StoreFault>) -> Result<bool, Reason>
    ensures maps { result ≡ outcome_of answer }
    ensures may_end { IfErr result IsOwn }
{
    match answer {
        Ok(Applied::Done) => Ok(true),
        Ok(Applied::Repeat) => Ok(false),
        Err(StoreFault::NoSuchRow(at)) => Err(Reason::Refused(Refusal::NoSuchRow(at))),
        Err(StoreFault::CountFull(at)) => Err(Reason::Refused(Refusal::CountFull(at))),
        Err(StoreFault::Memory) => Err(Reason::Memory),
        Err(fault) => Err(Reason::Database(fault)),
    }
}

/// Whether the transaction is new and the observer stops before it.
fn is_halted<S: Alter, W: Observer>(store: &Store<S>, delivery: &Delivery, observer: &mut W) -> bool
    ensures new { (is : Bool) (now : Content) → HoldsAs S.Store is now store.now → result ≡ true
        → is_executed now (delivery_value delivery.now) ≡ false }
    ensures asked { result ≡ true → (W.account observer.new).has_stopped ≡ true }
    ensures noticed { (is : Bool) (now : Content) → HoldsAs S.Store is now store.now
        → HasNotices (W.account observer.old) (W.account observer.new)
        (asked_about now (delivery_value delivery.now) result) }
    ensures heeds { (is : Bool) (now : Content) → HoldsAs S.Store is now store.now
        → is_executed now (delivery_value delivery.now) ≡ false
        → result ≡ (W.account observer.new).has_stopped }
    ensures missed { (is : Bool) (now : Content) → HoldsAs S.Store is now store.now
        → is_executed now (delivery_value delivery.now) ≡ false
        → result ≡ false → waits_for_none (W.account observer.new).waits ≡ false }
    ensures stays { (W.account observer.old).has_stopped ≡ true
        → (W.account observer.new).has_stopped ≡ true }
    ensures grows { HasGrown (W.account observer.old) (W.account observer.new) }
    ensures seen { (W.account observer.new).seen ≡ (W.account observer.old).seen }
{
    if store.executed().contains(delivery.gtid) {
        return false;
    }
    !observer.before_apply(delivery)
}

/// Applies a transaction to the store, unless the observer stops before it. Returns whether it was applied.
pub(crate) fn apply<S: Alter, W: Observer>(
    store: &mut Store<S>,
    delivery: &Delivery,
    observer: &mut W,
) -> Result<bool, Reason>
    // Once the observer has stopped, the store stays as it is, and what was reported to it leads from the content before to
    // the one afterwards.
    ensures keeps { KeepsObserved S.Store store.old store.new (W.account observer.old)
        (W.account observer.new) [] }
    ensures may_end { IfErr result (λ reason. MayEnd reason (W.account observer.new)) }
    ensures step { HasCleanDisk (database S.Store store.new)
        → (is : Bool) (now : Content) (es : List EventValue) (ds : List DeliveryValue) (p : Payload)
        (gatherer : Gatherer) → HoldsAs S.Store is now store.old
        → GathersMore (names_of S.Store store.old) es ds p
        (delivery_value delivery.now ∷ []) gatherer
        → TakesEvent S.Store (so_far is now es ds) p store.old store.new gatherer result }
    ensures alone { HasCleanDisk (database S.Store store.new) → (now : Content)
        → Holds S.Store store.old now
        → TakesAlone S.Store now (delivery_value delivery.now) store.old store.new result }
    ensures own { IfErr result (λ reason. IsOwnOrHalted reason
        (W.account observer.new).has_stopped) }
    ensures seen { (W.account observer.new).seen ≡ (W.account observer.old).seen }
{
    if is_halted(store, delivery, observer) {
        return Err(Reason::Halted);
    }
    let outcome = outcome(store.apply(delivery));
    observer.after_apply(delivery, &outcome);
    outcome
}

/// Takes a payload of the dump: reads its event and, if that ends a transaction, applies the transaction to the store.
/// Returns whether one was applied.
pub(crate) fn take_event<S: Alter, W: Observer>(
    alloc: Global,
    gatherer: &mut Gatherer,
    store: &mut Store<S>,
    payload: &[u8],
    observer: &mut W,
) -> Result<bool, Reason>
    ensures keeps { KeepsObserved S.Store store.old store.new (W.account observer.old)
        (W.account observer.new) [] }
    ensures may_end { IfErr result (λ reason. MayEnd reason (W.account observer.new)) }
    ensures step { HasCleanDisk (database S.Store store.new)
        → (is : Bool) (now : Content) (es : List EventValue) (ds : List DeliveryValue)
        → Gathers es ds gatherer.old → HoldsAs S.Store is now store.old
        → TakesEvent S.Store (so_far is now es ds) payload.now store.old store.new
        gatherer.new result }
    // The observer is given the event, if one is read; and then the payload with the reason, if it ends the connection and no
    // transaction; and nothing else.
    ensures sees { (es : List EventValue) (ds : List DeliveryValue) → Gathers es ds gatherer.old
        → SeesPayload (names_of S.Store store.old) es payload.now
        (record { deliveries = ds; gatherer = gatherer.new }) (W.account observer.old)
        (W.account observer.new) result }
{
    match gather(alloc, gatherer, store.following(), payload, observer) {
        Ok(Some(delivery)) => apply(store, &delivery, observer),
        Ok(None) => Ok(false),
        Err(reason) => {
            observer.refused(payload, &reason);
            Err(reason)
        }
    }
}
