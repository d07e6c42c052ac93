//! Adding a set to the executed set of a database.

ghost use Rattle.sqlite.specs.State.{HasCleanDisk};
ghost use Rattle.store.specs.State.{Content};
ghost use Rattle.store.specs.Store.{Holds, database};
ghost use Rattle.replica.specs.Keeps.{KeepsStore};
ghost use Rattle.replica.specs.Adopt.{AdoptsTo, IsLeftOfAdopt};
ghost use Rattle.replica.specs.Work.{HasWorked};

use crate::change::marks::{unfinished_copy, unfinished_with};
use crate::file::work::Work;
use gtid::GtidSet;
use sqlite::Alter;
use store::{Store, StoreFault};

/// Why a set was not added to the executed set.
#[derive(Debug, Drop)]
pub enum AdoptFault {
    /// A first copy of this source has begun and not ended.
    Unfinished([u8; 16]),
    /// With the set a first copy of this source would have begun and not ended.
    Begins([u8; 16]),
    /// The database failed (`Database`) or memory ran out (`Memory`). It has no other fault.
    Failed(StoreFault),
}

/// Adds a set to the executed set of a store, in one commit. Returns what was new of it.
fn adopt<S: Alter>(store: &mut Store<S>, gtids: &GtidSet) -> Result<GtidSet, AdoptFault>
    ensures adopts { HasCleanDisk (database S.Store store.new) → (old : Content)
        → Holds S.Store store.old old → HasWorked S.Store (AdoptsTo old gtids.now result)
        (IsLeftOfAdopt old gtids.now result) store.new }
    ensures keeps { KeepsStore S.Store store.old store.new }
{
    if let Some(source) = unfinished_copy(store.executed()) {
        return Err(AdoptFault::Unfinished(source));
    }
    if let Some(source) = unfinished_with(store.executed(), gtids) {
        return Err(AdoptFault::Begins(source));
    }
    let Ok(mut added) = gtids.copy() else {
        return Err(AdoptFault::Failed(StoreFault::Memory));
    };
    let Ok(()) = added.subtract(store.executed()) else {
        return Err(AdoptFault::Failed(StoreFault::Memory));
    };
    match store.adopt(gtids) {
        Ok(()) => Ok(added),
        Err(fault) => Err(AdoptFault::Failed(fault)),
    }
}

/// A set that is added to the executed set of a database, in one commit. It comes to what was new of the set. It is not added while a
/// first copy has begun and not ended, and where one would seem to have with the set.
#[derive(Drop)]
pub struct Adopting<'g> {
    pub gtids: &'g GtidSet,
}

impl Work for Adopting<'_> {
    type Done = Result<GtidSet, AdoptFault>;

    ghost leads = { λ was _ _ old added new. AdoptsTo old was.gtids.now added new };

    ghost leaves = { λ was _ _ old added new left. IsLeftOfAdopt old was.gtids.now added new left };

    fn work<S: Alter>(&mut self, store: &mut Store<S>) -> Result<GtidSet, AdoptFault> {
        adopt(store, self.gtids)
    }
}
