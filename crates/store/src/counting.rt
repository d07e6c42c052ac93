//! The number of copies of a row.

ghost use Rattle.std.specs.Prelude.{◌≡◌, ◌<◌, ◌^◌, false, Err, IfOk, IfErr, IsTrue};
ghost use Rattle.sqlite.specs.State.{HasCleanDisk};
ghost use Rattle.store.specs.State.{Content, row_of};
ghost use Rattle.store.specs.Rows.{count};
ghost use Rattle.store.specs.Apply.{SparesBeside};
ghost use Rattle.store.specs.Faults.{IsReadFault};
ghost use Rattle.store.specs.Store.{Holds, Keeps, Counts, ReadsShut, AreOf, database, names_of, IsBroken};
ghost use Rattle.store.specs.declared.fault.StoreFault.TheVariants.{Broken};

use crate::fault::StoreFault;
use crate::store::Store;
use crate::table::held::{RowKey, count};
use gather::Image;
use sqlite::Alter;

impl<S: Alter> Store<S> {
    /// The number of copies of a row in a table, at most 2^63 - 1; 0 if it is not there. The store can be used further.
    ///
    /// The faults: `Database` if the database failed, and `Broken` after an earlier failure of `apply` or `adopt`.
    ///
    /// Clauses:
    /// - `counts`, `fits`: exact counts
    /// - `unchanged`, `following`, `crash`, `crash_beside`, `clean`: the database is as it was, and a crash leaves it
    ///   so
    /// - `shut`, `broken`, `fault`: after a failure each call is `Broken`; over a shut connection `Database` is
    ///   answered
    pub fn count(&mut self, schema: &[u8], table: &[u8], image: &Image) -> Result<u64, StoreFault>
        ensures counts { HasCleanDisk (database S.Store self.new) → (content : Content)
            → Holds S.Store self.old content → Counts S.Store content
            (row_of schema.now table.now image.now) self.new result }
        ensures fits { IfOk result (λ n. n < 2 ^ 63) }
        ensures shut { HasCleanDisk (database S.Store self.new) → (content : Content)
            → Keeps S.Store self.old content → (database S.Store self.old).is_open ≡ false
            → ReadsShut S.Store content self.new result }
        ensures broken { IsBroken S.Store self.old → (result ≡ Err Broken) × (self.new ≡ self.old) }
        ensures following { names_of S.Store self.new ≡ names_of S.Store self.old }
        ensures unchanged { HasCleanDisk (database S.Store self.new) → (content : Content)
            → Holds S.Store self.old content → IsTrue (database S.Store self.new).is_open
            → (database S.Store self.new).now ≡ (database S.Store self.old).now }
        ensures crash_beside { HasCleanDisk (database S.Store self.new) → (content : Content)
            → Holds S.Store self.old content → (trees : _)
            → (database S.Store self.new).may_leave trees
            → SparesBeside (database S.Store self.old).now trees }
        ensures crash { HasCleanDisk (database S.Store self.new) → (content : Content)
            → Holds S.Store self.old content → (trees : _)
            → (database S.Store self.new).may_leave trees
            → AreOf (database S.Store self.old).now.schema
            (names_of S.Store self.old) content trees }
        ensures clean { HasCleanDisk (database S.Store self.new)
            → HasCleanDisk (database S.Store self.old) }
        ensures fault { IfErr result IsReadFault }
    {
        if self.broken {
            return Err(StoreFault::Broken);
        }
        let row = RowKey {
            schema,
            table,
            image: image.bytes(),
        };
        match count(&mut self.conn, &row) {
            Ok(n) => Ok(n),
            Err(error) => Err(StoreFault::Database(error)),
        }
    }
}
