//! Transactions that no connection carries, applied to a store in order.

ghost use Rattle.std.specs.Prelude.{◌≡◌, [], true, false, IfErr};
ghost use Rattle.sqlite.specs.State.{HasCleanDisk};
ghost use Rattle.gtid.specs.Identifier.{Ids};
ghost use Rattle.store.specs.State.{Content};
ghost use Rattle.store.specs.Changes.{adopted};
ghost use Rattle.store.specs.Store.{Holds, database, names_of};
ghost use Rattle.replica.specs.Noted.{IsLedSinceOpening};
ghost use Rattle.replica.specs.Change.{IsAdopted, UnlessAdopted, MayStop};
ghost use Rattle.replica.specs.Changing.{TakesNext, HasChanged};
ghost use Rattle.replica.specs.Keeps.{KeepsStore, KeepsObserved};

use crate::observer::Observer;
use crate::session::dump::apply;
use crate::session::end::Reason;
use gather::Deliveries;
use gtid::GtidSet;
use sqlite::Alter;
use store::{Store, StoreFault};

/// How the transactions of a change have ended.
#[derive(Debug, Drop)]
pub enum ChangeEnd<E> {
    /// All were given, and each was applied or had been executed.
    AllGiven,
    /// This error came instead of the next one.
    NotGiven(E),
    /// The last one that was given was not applied: it was refused (`Refused`), the database failed (`Database`), memory ran
    /// out (`Memory`), or the observer stopped before it (`Halted`). Or the observer waited for nothing more before the next
    /// one (`Until`). It has no other reason.
    Stopped(Reason),
    /// 2^64 - 1 were given, and no further one was asked for.
    TooMany,
    /// None was asked for: the set was not adopted, since the database failed (`Database`) or memory ran out (`Memory`).
    NotAdopted(StoreFault),
}

/// Takes the next transaction and applies it, unless it is executed or the observer stops before it. Returns whether it was
/// applied.
fn take_next<S: Alter, I: Deliveries, W: Observer>(
    store: &mut Store<S>,
    deliveries: &mut I,
    observer: &mut W,
) -> Result<bool, ChangeEnd<I::Error>>
    ensures takes { HasCleanDisk (database S.Store store.new) → (now : Content)
        → Holds S.Store store.old now → TakesNext S.Store now store.old store.new
        (I.supply deliveries.old) (I.supply deliveries.new) result }
    ensures keeps { KeepsObserved S.Store store.old store.new (W.account observer.old)
        (W.account observer.new) [] }
    ensures asked { IfErr result (λ end. MayStop end (W.account observer.new)) }
    ensures begun { IfErr result IsAdopted }
{
    let delivery = match deliveries.next() {
        Ok(Some(delivery)) => delivery,
        Ok(None) => return Err(ChangeEnd::AllGiven),
        Err(cause) => return Err(ChangeEnd::NotGiven(cause)),
    };
    match apply(store, &delivery, observer) {
        Ok(applied) => Ok(applied),
        Err(reason) => Err(ChangeEnd::Stopped(reason)),
    }
}

/// Applies the transactions that are given, in order, each once, to a store that was opened for them. Returns how many were
/// applied, and how that ended.
fn apply_all<S: Alter, I: Deliveries, W: Observer>(
    store: &mut Store<S>,
    deliveries: &mut I,
    observer: &mut W,
) -> (u64, ChangeEnd<I::Error>)
    ensures changes { HasCleanDisk (database S.Store store.new) → (old : Content) (ids : Ids)
        → Holds S.Store store.old (adopted old ids)
        → HasChanged S.Store (names_of S.Store store.old) store.new old ids
        (I.supply deliveries.old) result.0 result.1 }
    ensures keeps { KeepsObserved S.Store store.old store.new (W.account observer.old)
        (W.account observer.new) [] }
    ensures asked { MayStop result.1 (W.account observer.new) }
    ensures begun { IsAdopted result.1 }
{
    let mut applied = 0u64;
    // A `for`, since the prover asks that each loop ends.
    for taken in 0..u64::MAX {
        if observer.is_done() {
            return (applied, ChangeEnd::Stopped(Reason::Until));
        }
        match take_next(store, deliveries, observer) {
            Ok(is_new) => applied += u64::from(is_new),
            Err(end) => return (applied, end),
        }
    }
    (applied, ChangeEnd::TooMany)
}

/// Adopts the set, reports the store as opened, and applies the transactions that are given, in order, each once. Returns
/// how many were applied, and how that ended. If the set is not adopted, nothing is reported and no transaction taken.
pub(crate) fn change<S: Alter, I: Deliveries, W: Observer>(
    store: &mut Store<S>,
    gtids: &GtidSet,
    deliveries: &mut I,
    observer: &mut W,
) -> (u64, ChangeEnd<I::Error>)
    ensures changes { HasCleanDisk (database S.Store store.new) → (old : Content)
        → Holds S.Store store.old old → HasChanged S.Store (names_of S.Store store.old)
        store.new old gtids.now (I.supply deliveries.old) result.0 result.1 }
    ensures notes { HasCleanDisk (database S.Store store.new) → (old : Content)
        → Holds S.Store store.old old → IsAdopted result.1
        → IsLedSinceOpening S.Store store.old store.new false (adopted old gtids.now)
        (W.account observer.old) (W.account observer.new) [] }
    ensures asked { MayStop result.1 (W.account observer.new) }
    ensures unreported { UnlessAdopted result.1 (observer.new ≡ observer.old) }
    ensures heeds { HasCleanDisk (database S.Store store.new) → (old : Content)
        → Holds S.Store store.old old → (W.account observer.old).has_stopped ≡ true
        → IsAdopted result.1 → Holds S.Store store.new (adopted old gtids.now) }
    ensures keeps { KeepsStore S.Store store.old store.new }
{
    match store.adopt(gtids) {
        Ok(()) => {
            observer.opened(store.executed(), store.following());
            apply_all(store, deliveries, observer)
        }
        Err(fault) => (0, ChangeEnd::NotAdopted(fault)),
    }
}
