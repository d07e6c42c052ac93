//! Reading a database.

ghost use Rattle.std.specs.Prelude.{◌≡◌};
ghost use Rattle.sqlite.specs.State.{HasCleanDisk};
ghost use Rattle.store.specs.State.{Content};
ghost use Rattle.store.specs.Store.{Holds, database, names_of};
ghost use Rattle.replica.specs.Keeps.{KeepsStore};
ghost use Rattle.store.specs.Listing.{IsListed};
ghost use Rattle.replica.specs.Work.{HasWorked};

use crate::file::work::Work;
use sqlite::Alter;
use store::{ListError, Lister, Store};

/// Gives the executed set and the filter of a store to a lister, and the rows if it asks for them.
fn list<S: Alter, L: Lister>(
    store: &mut Store<S>,
    lister: &mut L,
) -> Result<(), ListError<L::Error>>
    ensures lists { HasCleanDisk (database S.Store store.new) → (old : Content)
        → Holds S.Store store.old old → HasWorked S.Store
        (λ new. IsListed L.begun L.Visitor.row_gives (names_of S.Store store.old) old
        lister.old lister.new result × (new ≡ old)) (λ new left. left ≡ new) store.new }
    ensures keeps { KeepsStore S.Store store.old store.new }
{
    match lister.begin(store.executed(), store.following()) {
        Ok(true) => store.list(lister),
        Ok(false) => Ok(()),
        Err(cause) => Err(ListError::Visitor(cause)),
    }
}

/// A lister is given the executed set and the filter of a database, and then the rows if it asks for them, each once with the number
/// of its copies, in ascending order of the bytes of schema, table and image. Nothing is changed. It comes to whether all that was
/// asked for was given; or why not.
impl<L: Lister> Work for L {
    type Done = Result<(), ListError<L::Error>>;

    ghost leads = { λ was is names old listed new. IsListed L.begun L.Visitor.row_gives names old
        was is listed × (new ≡ old) };

    ghost leaves = { λ _ _ _ _ _ new left. left ≡ new };

    fn work<S: Alter>(&mut self, store: &mut Store<S>) -> Result<(), ListError<L::Error>> {
        list(store, self)
    }
}
