//! Opening a database.

ghost use Rattle.std.specs.Prelude.{◌≡◌, Option, true, false, None, Some, Err, IfOk, IfErr, IsTrue, MatchResult};
ghost use Rattle.sqlite.specs.State.{IsLive};
ghost use Rattle.sqlite.specs.Held.{state};
ghost use Rattle.store.specs.declared.fault.StoreFault.TheVariants.{Memory, Damaged};
ghost use Rattle.store.specs.Layout.{IsVacant};
ghost use Rattle.sqlite.specs.Effect.{Database as Stored};
ghost use Rattle.store.specs.Judge.{IsMeta};
ghost use Rattle.store.specs.Rows.{meta_rows};
ghost use Rattle.store.specs.declared.layout.KnownLayout.TheVariants.{First, Second};
ghost use Rattle.store.specs.Load.{HasLayout, Enters, EntersWhere};
ghost use Rattle.binlog.specs.Filter.{Names};
ghost use Rattle.store.specs.Faults.{IsOpenFault};
ghost use Rattle.store.specs.Entering.{IsKnown, IsWhy, IsWanted, wanted_of, names_for, tables_of, has_any, has_first, has_second};
ghost use Rattle.store.specs.Opening.{IsOpenedFor};

use crate::fault::StoreFault;
use crate::layout::{KnownLayout, Tables};
use crate::load::{Loaded, load, load_first};
use crate::make::make;
use crate::migrate::migrate;
use crate::store::Store;
use crate::table::meta::{Meta, read_meta};
use binlog::Follow;
use gtid::GtidSet;
use sqlite::{Alter, Connection};
use sqlite_schema::schema::Schema;
use std::alloc::Global;

/// Which tables of the layouts the schema has.
fn tables_of(schema: &Schema) -> Tables
    ensures { result ≡ tables_of schema.now }
{
    Tables {
        meta: schema.table_named(b"meta").is_some(),
        executed: schema.table_named(b"executed").is_some(),
        held: schema.table_named(b"held").is_some(),
        spans: schema.table_named(b"spans").is_some(),
        follow: schema.table_named(b"follow").is_some(),
    }
}

/// The filter that a new database is made for: a copy of the given one, or the one that admits all tables.
fn names_for(alloc: Global, only: Option<&Follow>) -> Result<Follow, StoreFault>
    ensures ok { IfOk result (λ names. names ≡ names_for (wanted_of only.entry)) }
    ensures err { IfErr result (λ fault. fault ≡ Memory) }
{
    let Some(only) = only else {
        return Ok(Follow::all(alloc));
    };
    match Follow::new(alloc, only.names()) {
        Ok(copied) => Ok(copied),
        Err(_) => Err(StoreFault::Memory),
    }
}

/// Whether other names than these are wanted.
fn differs(following: &Follow, only: Option<&Follow>) -> bool
    ensures other { IsTrue result → ¬ IsWanted (wanted_of only.entry) following.now }
    ensures wanted { result ≡ false → IsWanted (wanted_of only.entry) following.now }
{
    let Some(only) = only else {
        return false;
    };
    !following.is_same(only)
}

/// Makes the tables of a new database.
fn enter_new<S: Alter>(
    alloc: Global,
    conn: &mut Connection<S>,
    only: Option<&Follow>,
) -> Result<Loaded, StoreFault>
    requires { conn.old.in_transaction ≡ false }
    ensures { EntersWhere (IsVacant (state S.Store conn.old).now.schema)
        (wanted_of only.entry) (state S.Store conn.old) (state S.Store conn.new) result }
{
    let following = names_for(alloc, only)?;
    make(conn, &following)?;
    Ok(Loaded {
        executed: GtidSet::new(alloc),
        following,
    })
}

/// Reads a database of layout 1, whose `meta` was read before, and migrates it.
fn enter_first<S: Alter>(
    alloc: Global,
    conn: &mut Connection<S>,
    only: Option<&Follow>,
) -> Result<Loaded, StoreFault>
    requires { conn.old.in_transaction ≡ false }
    ensures { Enters (wanted_of only.entry) First (state S.Store conn.old)
        (state S.Store conn.new) result }
{
    let executed = load_first(alloc, conn)?;
    let following = Follow::all(alloc);
    if differs(&following, only) {
        return Err(StoreFault::Follows);
    }
    match migrate(conn, &executed) {
        Ok(()) => Ok(Loaded {
            executed,
            following,
        }),
        Err(error) => Err(StoreFault::Database(error)),
    }
}

/// Reads a database of layout 2, whose `meta` was read before.
fn enter_second<S: Alter>(
    alloc: Global,
    conn: &mut Connection<S>,
    only: Option<&Follow>,
) -> Result<Loaded, StoreFault>
    requires { conn.old.in_transaction ≡ false }
    ensures { Enters (wanted_of only.entry) Second (state S.Store conn.old)
        (state S.Store conn.new) result }
{
    let loaded = load(alloc, conn)?;
    if differs(&loaded.following, only) {
        return Err(StoreFault::Follows);
    }
    Ok(loaded)
}

/// Whether all tables of layout 1 are there, besides `meta`.
fn has_first(tables: Tables) -> bool
    ensures { result ≡ has_first tables }
{
    tables.executed && tables.held
}

/// Whether all tables of layout 2 are there, besides `meta`.
fn has_second(tables: Tables) -> bool
    ensures { result ≡ has_second tables }
{
    tables.held && (tables.spans && tables.follow)
}

/// The layout of a database with these tables, `meta` among them, or why it is refused.
fn layout_of(tables: Tables, meta: Meta) -> Result<KnownLayout, StoreFault>
    ensures judged { (db : Stored) → IsKnown db → IsMeta (meta_rows db) meta
        → tables ≡ tables_of db.schema → tables.meta ≡ true
        → MatchResult result (HasLayout db)
        (λ fault. (wanted : Option Names) → IsWhy wanted db fault) }
    ensures fault { (wanted : Option Names) → IfErr result (IsOpenFault wanted) }
{
    match meta.layout {
        Some(1) => {
            if !has_first(tables) {
                return Err(StoreFault::Damaged);
            }
            if !meta.lawful {
                return Err(StoreFault::Damaged);
            }
            Ok(KnownLayout::First)
        }
        Some(2) => {
            if !has_second(tables) {
                return Err(StoreFault::Damaged);
            }
            if !meta.lawful {
                return Err(StoreFault::Damaged);
            }
            Ok(KnownLayout::Second)
        }
        Some(n) => Err(StoreFault::Layout(n)),
        None => Err(StoreFault::Damaged),
    }
}

/// Reads a database that has the table `meta`.
fn enter_old<S: Alter>(
    alloc: Global,
    conn: &mut Connection<S>,
    tables: Tables,
    only: Option<&Follow>,
) -> Result<Loaded, StoreFault>
    requires { conn.old.in_transaction ≡ false }
    ensures { EntersWhere ((tables ≡ tables_of (state S.Store conn.old).now.schema)
        × (tables.meta ≡ true))
        (wanted_of only.entry) (state S.Store conn.old) (state S.Store conn.new) result }
{
    let meta = read_meta(conn)?;
    match layout_of(tables, meta)? {
        KnownLayout::First => enter_first(alloc, conn, only),
        KnownLayout::Second => enter_second(alloc, conn, only),
    }
}

/// Opens a database, and returns what its rows stand for. Its filter must be `only`, if there is one.
fn enter<S: Alter>(
    alloc: Global,
    conn: &mut Connection<S>,
    only: Option<&Follow>,
) -> Result<Loaded, StoreFault>
    requires { conn.old.in_transaction ≡ false }
    ensures headless { (tables_of (state S.Store conn.old).now.schema).meta ≡ false
        → has_any (tables_of (state S.Store conn.old).now.schema) ≡ true
        → (result ≡ Err Damaged) × (conn.new ≡ conn.old) }
    ensures live { IsLive (state S.Store conn.old) }
    ensures enters { EntersWhere (Unit {0})
        (wanted_of only.entry) (state S.Store conn.old) (state S.Store conn.new) result }
{
    let tables = tables_of(conn.schema());
    if !has_any(tables) {
        return enter_new(alloc, conn, only);
    }
    if !tables.meta {
        return Err(StoreFault::Damaged);
    }
    enter_old(alloc, conn, tables, only)
}

/// Whether any of the tables is there.
fn has_any(tables: Tables) -> bool
    ensures { result ≡ has_any tables }
{
    tables.meta || (tables.executed || (tables.held || (tables.spans || tables.follow)))
}

impl<S: Alter> Store<S> {
    /// Opens a database with the filter that it was made for. A new database, which has none of the store's tables,
    /// gets them in one transaction, and is made for all tables. A database of layout 1 is migrated in one transaction.
    /// An index of others on `executed` goes with that table in a migration.
    ///
    /// Each fault comes with the connection. If that is still open, the database is as it was.
    /// - `Damaged` if a table is missing, or the rows break the rules of their layout.
    /// - `Layout` if the tables have another layout than 1 and 2.
    /// - `Database` if the database failed, and `Memory` if an allocation was refused.
    ///
    /// The connection must be in autocommit mode (see `is_autocommit`).
    ///
    /// Clauses:
    /// - `opens`: the store holds what the database stood for; one without our tables stands for nothing, and one of
    ///   layout 1 is migrated
    /// - `turned`, `headless`, `fault`: a refusal has its reason, `Damaged`, `Layout` or `Follows`, and nothing has
    ///   changed
    /// - `refused`, `spared`: a refusal leaves any database as it was, whatever its tables are
    /// - `beside`, `unchanged`: other tables, their indexes and rows, views and triggers stay (`LiesBeside`); opening
    ///   layout 2 changes nothing
    /// - `crash`, `left`, `reopens`, `leaves`: a crash leaves what it could leave before, or the same content in layout
    ///   2; over what a crash left of a content the store holds that content
    /// - `clean`, `autocommit`: a disk that is clean afterwards was so before; a refused connection is in no
    ///   transaction
    pub fn open(alloc: Global, conn: Connection<S>) -> Result<Store<S>, (StoreFault, Connection<S>)>
        requires { conn.in_transaction ≡ false }
        ensures { IsOpenedFor S.Store None conn result }
    {
        Store::open_for(alloc, conn, None)
    }

    /// Like [`Store::open`], with a filter, for which a new database is made. An existing database must have been made
    /// for the same filter, which for layout 1 admits all tables; otherwise the fault is `Follows`. `Damaged` and `Layout`
    /// are reported before `Follows`.
    ///
    /// Clauses: as [`Store::open`]
    pub fn open_only(
        alloc: Global,
        conn: Connection<S>,
        filter: &Follow,
    ) -> Result<Store<S>, (StoreFault, Connection<S>)>
        requires { conn.in_transaction ≡ false }
        ensures { IsOpenedFor S.Store (Some filter.now) conn result }
    {
        Store::open_for(alloc, conn, Some(filter))
    }

    /// Like [`Store::open_only`] with a filter, and like [`Store::open`] without one.
    ///
    /// Clauses: as [`Store::open`]
    pub fn open_for(
        alloc: Global,
        mut conn: Connection<S>,
        only: Option<&Follow>,
    ) -> Result<Store<S>, (StoreFault, Connection<S>)>
        requires { conn.in_transaction ≡ false }
        ensures { IsOpenedFor S.Store (wanted_of only.entry) conn result }
    {
        match enter(alloc, &mut conn, only) {
            Ok(loaded) => {
                let Loaded {
                    executed,
                    following,
                } = loaded;
                Ok(Store {
                    conn,
                    executed,
                    following,
                    broken: false,
                    alloc,
                })
            }
            Err(fault) => Err((fault, conn)),
        }
    }
}
