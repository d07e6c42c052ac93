//! What a store answers from memory, the executed set and the filter, and closing.

ghost use Rattle.std.specs.Prelude.{◌≡◌, Bool, false};
ghost use Rattle.store.specs.State.{Content};
ghost use Rattle.store.specs.Store.{HoldsAs, Keeps, connection, names_of};

use crate::store::Store;
use binlog::Follow;
use gtid::GtidSet;
use sqlite::{Alter, Connection};

impl<S: Alter> Store<S> {
    /// The executed set. It takes no memory. A store that has failed answers it too.
    ///
    /// Clauses:
    /// - `value`, `kept`: the set
    pub fn executed(&self) -> &GtidSet
        ensures value { (broken : Bool) (content : Content)
            → HoldsAs S.Store broken content self.now → result.now ≡ content.executed }
        ensures kept { (content : Content) → Keeps S.Store self.now content
            → result.now ≡ content.executed }
    {
        &self.executed
    }

    /// The filter: the tables whose rows are kept; the empty one admits all tables.
    ///
    /// It takes no memory. A store that has failed answers it too.
    ///
    /// Clauses: the above.
    pub fn following(&self) -> &Follow
        ensures { result.now ≡ (names_of S.Store self.now) }
    {
        &self.following
    }

    /// Ends the store and returns its connection.
    ///
    /// Clauses:
    /// - `same`, `autocommit`: the connection as it is, in no transaction
    pub fn close(self) -> Connection<S>
        ensures same { result ≡ connection S.Store self }
        ensures autocommit { result.in_transaction ≡ false }
    {
        let Store {
            conn,
            executed: _,
            following: _,
            broken: _,
            alloc: _,
        } = self;
        conn
    }
}
