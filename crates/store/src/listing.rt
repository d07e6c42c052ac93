//! Listing the rows of a store in order.

ghost use Rattle.std.specs.Prelude.{◌≡◌, ℕ, pos, Bool, false, IsTrue, None, Ok, Err, Result, IfOk, IfErr, MatchOption, [], drop};
ghost use Rattle.sqlite.specs.State.{HasCleanDisk};
ghost use Rattle.sqlite.specs.Held.{state};
ghost use Rattle.sqlite.specs.Given.{HasGiven};
ghost use Rattle.gtid.specs.Identifier.{Ids};
ghost use Rattle.gather.specs.Image.{HasImage};
ghost use Rattle.sqlite_value.specs.Order.{column};
ghost use Rattle.sqlite_value.specs.declared.value.Value.TheVariants.{Int};
ghost use Rattle.store.specs.State.{Content};
ghost use Rattle.binlog.specs.Filter.{Names};
ghost use Rattle.store.specs.Rows.{Key, key_in};
ghost use Rattle.store.specs.Apply.{IsAtRest, SparesBeside};
ghost use Rattle.store.specs.Store.{Holds, Keeps, AreOf, database, names_of, IsBroken};
ghost use Rattle.store.specs.Load.{ReadsOn};
ghost use Rattle.store.specs.Listing.{ListsHeld, Entry, entry_of, shown_entry, HasKey, Gives, Handed, Hands, KeepsListed, Lists, ListsShut, IsListFault, listed_text};
ghost use Rattle.store.specs.declared.fault.StoreFault.TheVariants.{Broken};

use crate::fault::StoreFault;
use crate::store::Store;
use crate::table::held::RowKey;
use binlog::Follow;
use gather::ImageRef;
use gtid::GtidSet;
use sqlite::types::ValueRef;
use sqlite::{Alter, Connection, Error, ErrorCode, Row, Rows};

/// A row that a store holds, with the number of its copies.
#[derive(Debug, Drop)]
pub struct Listed<'a> {
    pub schema: &'a [u8],
    pub table: &'a [u8],
    pub image: ImageRef<'a>,
    /// The number of copies, from 1 to 2^63 - 1.
    pub count: u64,
}

/// What accepts the rows of a list, one at a time.
pub trait Visitor {
    /// Why it accepts no more rows.
    type Error: Drop;

    // What it answers to a row, and what it is afterwards.
    ghost row_gives: { Self → Entry → Result (Unit {0}) Self.Error → Self → Type 0 };

    /// Accepts a row. An error ends the list.
    fn row(&mut self, row: &Listed<'_>) -> Result<(), Self::Error>
        ensures { row_gives self.old (entry_of row.now) result self.new };
}

/// What a database is read by: it is given the executed set and the filter, and then the rows, if it asks for them.
pub trait Lister: Visitor {
    // Where it is given a set and a filter: whether it asks for the rows, or its error; and what it is afterwards.
    ghost begun: { Self → Ids → Names → Result Bool Self.Error → Self → Type 0 };

    /// Accepts the executed set and the filter. Returns whether it asks for the rows. An error ends the list.
    fn begin(&mut self, executed: &GtidSet, following: &Follow) -> Result<bool, Self::Error>
        ensures { begun self.old executed.now following.now result self.new };
}

/// Why a list was not read to its end.
#[derive(Debug, Drop)]
pub enum ListError<E> {
    /// The store could not read on.
    Store(StoreFault),
    /// The visitor answered this error.
    Visitor(E),
}

/// The key of a row of `held`.
fn key_at(row: &Row) -> Option<RowKey<'_>>
    ensures { MatchOption result ((key : Key) → ¬ HasKey key row.now)
        (λ key. HasKey (key_in key) row.now) }
{
    let Ok(ValueRef::Blob(schema)) = row.get_ref(1) else {
        return None;
    };
    let Ok(ValueRef::Blob(table)) = row.get_ref(2) else {
        return None;
    };
    let Ok(ValueRef::Blob(image)) = row.get_ref(3) else {
        return None;
    };
    Some(RowKey {
        schema,
        table,
        image,
    })
}

/// The number of copies in a row of `held`.
fn count_at(row: &Row) -> Option<u64>
    ensures { MatchOption result ((n : ℕ) → column row.now 4 ≡ Int (pos n)
        → ⊥) (λ n. column row.now 4 ≡ Int (pos n)) }
{
    let Ok(ValueRef::Int(n)) = row.get_ref(4) else {
        return None;
    };
    match u64::try_from(n) {
        Ok(n) => Some(n),
        Err(_) => None,
    }
}

/// The row that a row of `held` stores.
fn listed_in(row: &Row) -> Option<Listed<'_>>
    ensures { (entry : Entry) → shown_entry entry ≡ drop 1 row.now → HasImage entry.0.cells
        → Gives entry result }
{
    let key = key_at(row)?;
    let count = count_at(row)?;
    let image = ImageRef::read(key.image)?;
    Some(Listed {
        schema: key.schema,
        table: key.table,
        image,
        count,
    })
}

/// Hands a row of `held` to the visitor.
fn hand<V: Visitor>(row: &Row, visitor: &mut V) -> Result<(), ListError<V::Error>>
    ensures handed { (entry : Entry) → shown_entry entry ≡ drop 1 row.now → HasImage entry.0.cells
        → Handed V.row_gives entry visitor.old visitor.new result }
    ensures fault { IfErr result IsListFault }
{
    let Some(listed) = listed_in(row) else {
        return Err(ListError::Store(StoreFault::Database(Error::SqliteFailure(
            ErrorCode::DatabaseCorrupt,
        ))));
    };
    match visitor.row(&listed) {
        Ok(()) => Ok(()),
        Err(error) => Err(ListError::Visitor(error)),
    }
}

/// Hands the rows of a query to the visitor as they are read, one at a time.
fn hand_all<S: Alter, V: Visitor>(
    rows: &mut Rows<'_, S>,
    visitor: &mut V,
) -> Result<(), ListError<V::Error>>
    ensures reads { ReadsOn S.Store rows.old.conn rows.new.conn }
    ensures hands { HasCleanDisk (state S.Store rows.new.conn.now)
        → HasGiven S.Store listed_text [] rows.old.conn.now [] → (names : Names) (content : Content)
        → IsAtRest (state S.Store rows.old.conn.now) names content
        → Hands V.row_gives content.rows visitor.old visitor.new result
        × KeepsListed (state S.Store rows.old.conn.now) (state S.Store rows.new.conn.now) result }
    ensures fault { IfErr result IsListFault }
{
    // A `for`, since the prover asks that each loop ends.
    'rows: for _ in 0..u64::MAX {
        match rows.advance() {
            Ok(()) => {}
            Err(error) => return Err(ListError::Store(StoreFault::Database(error))),
        }
        let Some(row) = rows.get() else {
            return Ok(());
        };
        hand(row, visitor)?;
    }
    Err(ListError::Store(StoreFault::Database(Error::SqliteFailure(ErrorCode::DatabaseCorrupt))))
}

/// Hands the rows of `held` to the visitor, in the order of their keys.
fn list_held<S: Alter, V: Visitor>(
    conn: &mut Connection<S>,
    visitor: &mut V,
) -> Result<(), ListError<V::Error>>
    ensures { ListsHeld V.row_gives (state S.Store conn.old) (state S.Store conn.new)
        visitor.old visitor.new result }
{
    // For the prover: what the connection shows is a database. The call does nothing at run time.
    conn.schema();
    let mut rows = match conn.query(
        "SELECT rowid, schema_name, table_name, image, n FROM held ORDER BY schema_name, table_name, image",
        &[],
    ) {
        Ok(rows) => rows,
        Err(error) => return Err(ListError::Store(StoreFault::Database(error))),
    };
    hand_all(&mut rows, visitor)
}

impl<S: Alter> Store<S> {
    /// Hands all rows to the visitor, each once with the number of its copies, in ascending order of the bytes of
    /// schema, table and image, as they are read from the database. No row is kept, so the memory does not grow with
    /// their number. The store can be used further.
    ///
    /// An error of the visitor ends the list. The faults of the store end it too, after the rows that were read before:
    /// `Database` if the database failed, and `Broken`, before the first row, after an earlier failure of `apply` or
    /// `adopt`.
    ///
    /// Clauses: as [`Store::count`], and:
    /// - `lists`: all rows once, in order, to a visitor
    pub fn list<V: Visitor>(&mut self, visitor: &mut V) -> Result<(), ListError<V::Error>>
        ensures lists { HasCleanDisk (database S.Store self.new) → (content : Content)
            → Holds S.Store self.old content → Lists S.Store V.row_gives content self.new
            visitor.old visitor.new result }
        ensures shut { HasCleanDisk (database S.Store self.new) → (content : Content)
            → Keeps S.Store self.old content → (database S.Store self.old).is_open ≡ false
            → ListsShut S.Store content self.new visitor.old visitor.new result }
        ensures broken { IsBroken S.Store self.old
            → (result ≡ Err (ListError.Store Broken)) × (self.new ≡ self.old)
            × (visitor.new ≡ visitor.old) }
        ensures following { names_of S.Store self.new ≡ names_of S.Store self.old }
        ensures crash { HasCleanDisk (database S.Store self.new) → (content : Content)
            → Holds S.Store self.old content → (trees : _)
            → (database S.Store self.new).may_leave trees
            → AreOf (database S.Store self.old).now.schema
            (names_of S.Store self.old) content trees }
        ensures unchanged { HasCleanDisk (database S.Store self.new) → (content : Content)
            → Holds S.Store self.old content → IsTrue (database S.Store self.new).is_open
            → (database S.Store self.new).now ≡ (database S.Store self.old).now }
        ensures crash_beside { HasCleanDisk (database S.Store self.new) → (content : Content)
            → Holds S.Store self.old content → (trees : _)
            → (database S.Store self.new).may_leave trees
            → SparesBeside (database S.Store self.old).now trees }
        ensures clean { HasCleanDisk (database S.Store self.new)
            → HasCleanDisk (database S.Store self.old) }
        ensures fault { IfErr result IsListFault }
    {
        if self.broken {
            return Err(ListError::Store(StoreFault::Broken));
        }
        list_held(&mut self.conn, visitor)
    }
}
