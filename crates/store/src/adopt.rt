//! Adopting an executed set.

ghost use Rattle.std.specs.Prelude.{◌≡◌, true, false, Ok, Err, IsErr, IsTrue, IfOk, IfErr};
ghost use Rattle.std.specs.FinSet as set;
ghost use Rattle.sqlite.specs.State.{HasCleanDisk};
ghost use Rattle.sqlite.specs.Held.{state};
ghost use Rattle.store.specs.State.{Content};
ghost use Rattle.store.specs.Apply.{IsReplaced};
ghost use Rattle.store.specs.Faults.{IsAdoptFault};
ghost use Rattle.store.specs.Store.{Holds, Keeps, Adopts, AdoptsShut, LeavesAdopted, database, names_of, IsBroken, KeepsRest};
ghost use Rattle.store.specs.declared.fault.StoreFault.TheVariants.{Broken};

use crate::fault::StoreFault;
use crate::store::Store;
use crate::table::spans::replace_all;
use gtid::{GtidFault, GtidSet};
use sqlite::{Alter, Connection, Error};

/// The union of two sets. The only error is `Memory`.
pub(crate) fn united(executed: &GtidSet, gtids: &GtidSet) -> Result<GtidSet, GtidFault>
    ensures ok { IfOk result (λ after. after ≡ set.union executed.now gtids.now) }
    ensures err { IfErr result (λ fault. fault ≡ GtidFault.Memory) }
{
    let mut after = executed.copy()?;
    after.union(gtids)?;
    Ok(after)
}

/// Stores another set instead of the executed set, in a transaction of its own, which is rolled back if a statement
/// fails.
fn replace<S: Alter>(
    conn: &mut Connection<S>,
    executed: &GtidSet,
    after: &GtidSet,
) -> Result<(), Error>
    requires { conn.old.in_transaction ≡ false }
    ensures { IsReplaced executed.now after.now (state S.Store conn.old)
        (state S.Store conn.new) result }
{
    let mut tx = conn.transaction();
    replace_all(&mut tx, executed, after)?;
    tx.commit()
}

impl<S: Alter> Store<S> {
    /// Adds a set of GTIDs to the executed set, in one commit. It is for a database whose rows contain these
    /// transactions already, as those of a backup. If all of them are in the executed set already, no statement is run
    /// and no memory is taken.
    ///
    /// The faults are `Database` if the database failed, `Memory` if an allocation was refused, and `Broken`, as of
    /// [`Store::apply`].
    ///
    /// Clauses:
    /// - `adopts`, `known`, `shut`, `broken`, `crash`, `rest`, `fault`: the executed set is its union with the given
    ///   one, and the rows stay; otherwise as `apply`
    pub fn adopt(&mut self, gtids: &GtidSet) -> Result<(), StoreFault>
        ensures adopts { HasCleanDisk (database S.Store self.new) → (content : Content)
            → Holds S.Store self.old content → Adopts S.Store content gtids.now self.old self.new
            result }
        ensures known { (content : Content) → Keeps S.Store self.old content
            → set.is_subset gtids.now content.executed ≡ true
            → (result ≡ Ok tt) × (self.new ≡ self.old) }
        ensures shut { HasCleanDisk (database S.Store self.new) → (content : Content)
            → Keeps S.Store self.old content → set.is_subset gtids.now content.executed ≡ false
            → (database S.Store self.old).is_open ≡ false
            → AdoptsShut S.Store content self.new result }
        ensures broken { IsBroken S.Store self.old → (result ≡ Err Broken) × (self.new ≡ self.old) }
        ensures rest { KeepsRest S.Store self.old self.new result }
        ensures crash { HasCleanDisk (database S.Store self.new) → (content : Content)
            → Holds S.Store self.old content → (trees : _)
            → (database S.Store self.new).may_leave trees
            → LeavesAdopted (database S.Store self.old).now.schema
            (names_of S.Store self.old) content gtids.now result trees }
        ensures fault { IfErr result IsAdoptFault }
    {
        if self.broken {
            return Err(StoreFault::Broken);
        }
        if gtids.is_subset(&self.executed) {
            return Ok(());
        }
        let after = match united(&self.executed, gtids) {
            Ok(after) => after,
            Err(_) => {
                self.broken = true;
                return Err(StoreFault::Memory);
            }
        };
        match replace(&mut self.conn, &self.executed, &after) {
            Ok(()) => {
                self.executed = after;
                Ok(())
            }
            Err(error) => {
                self.broken = true;
                Err(StoreFault::Database(error))
            }
        }
    }
}
