//! Admitting tables.

ghost use Rattle.std.specs.Prelude.{◌≡◌, ◌++◌, [], List, false, Ok, Err, IfOk, IfErr, OnOk};
ghost use Rattle.std.specs.FinSet as set;
ghost use Rattle.sqlite.specs.State.{HasCleanDisk};
ghost use Rattle.sqlite.specs.Held.{state};
ghost use Rattle.gtid.specs.Identifier.{AreGtids};
ghost use Rattle.gtid.specs.declared.span.Span.{Span};
ghost use Rattle.binlog.specs.FilterView.{name_list};
ghost use Rattle.store.specs.State.{Content};
ghost use Rattle.store.specs.Changes.{widened};
ghost use Rattle.store.specs.Rows.{AreNames, follow_rows, span_rows};
ghost use Rattle.store.specs.Inside.{HasWidened, Shows, Stays, Within};
ghost use Rattle.store.specs.Apply.{IsWidened};
ghost use Rattle.store.specs.Faults.{IsAdoptFault};
ghost use Rattle.store.specs.Store.{Holds, Keeps, Adopts, AdoptsShut, LeavesAdmitted, database, names_of, names_left, IsBroken, KeepsRestWith};
ghost use Rattle.store.specs.declared.fault.StoreFault.TheVariants.{Broken, Memory};

use crate::adopt::united;
use crate::fault::StoreFault;
use crate::store::Store;
use crate::table::follow::add_missing;
use crate::table::spans::replace_all;
use binlog::Follow;
use gtid::GtidSet;
use sqlite::{Alter, Connection, Error, Transaction};
use std::alloc::Global;

/// Copies names to a list. The only error is `Memory`.
fn append(all: &mut Vec<(Vec<u8>, Vec<u8>)>, names: &[(Vec<u8>, Vec<u8>)]) -> Result<(), StoreFault>
    ensures ok { OnOk result (name_list all.new.items ≡ name_list all.old.items
        ++ name_list names.now) }
    ensures err { IfErr result (λ fault. fault ≡ Memory) }
{
    for name in names {
        all.push(copy(name)?)?;
    }
    Ok(())
}

/// A copy of a name. The only error is `Memory`.
fn copy(name: &(Vec<u8>, Vec<u8>)) -> Result<(Vec<u8>, Vec<u8>), StoreFault>
    ensures schema { IfOk result (λ copied. copied.0.items ≡ name.now.0.items) }
    ensures table { IfOk result (λ copied. copied.1.items ≡ name.now.1.items) }
    ensures err { IfErr result (λ fault. fault ≡ Memory) }
{
    Ok((name.0.clone()?, name.1.clone()?))
}

/// The names of two filters. The only error is `Memory`.
fn both(alloc: Global, following: &Follow, more: &Follow) -> Result<Follow, StoreFault>
    ensures ok { IfOk result (λ names. names ≡ set.union following.now more.now) }
    ensures err { IfErr result (λ fault. fault ≡ Memory) }
{
    let mut all = Vec::new(alloc);
    append(&mut all, following.names())?;
    append(&mut all, more.names())?;
    match Follow::new(alloc, &all) {
        Ok(names) => Ok(names),
        Err(_) => Err(StoreFault::Memory),
    }
}

/// The filter that admits what one of two does, unless the first one admits all tables: then it stays. The only error is
/// `Memory`.
fn wider(alloc: Global, following: &Follow, more: &Follow) -> Result<Follow, StoreFault>
    ensures ok { IfOk result (λ names. names ≡ widened following.now more.now) }
    ensures err { IfErr result (λ fault. fault ≡ Memory) }
{
    if following.names().len() == 0 {
        return Ok(Follow::all(alloc));
    }
    both(alloc, following, more)
}

/// The filter and the executed set of a store that admits more. The only error is `Memory`.
fn grown(
    alloc: Global,
    following: &Follow,
    more: &Follow,
    executed: &GtidSet,
    gtids: &GtidSet,
) -> Result<(Follow, GtidSet), StoreFault>
    ensures names { IfOk result (λ grown. grown.0 ≡ widened following.now more.now) }
    ensures executed { IfOk result (λ grown. grown.1 ≡ set.union executed.now gtids.now) }
    ensures err { IfErr result (λ fault. fault ≡ Memory) }
{
    let names = wider(alloc, following, more)?;
    match united(executed, gtids) {
        Ok(after) => Ok((names, after)),
        Err(_) => Err(StoreFault::Memory),
    }
}

/// Inserts names that the filter does not admit, and stores another set instead of the executed set.
fn fill<S: Alter>(
    tx: &mut Transaction<'_, S>,
    following: &Follow,
    more: &Follow,
    executed: &GtidSet,
    after: &GtidSet,
) -> Result<(), Error>
    ensures lawful { OnOk result (AreGtids after.now) }
    ensures fills { Within S.Store tx.old.conn tx.new.conn (λ old new.
        AreNames (follow_rows old.now) following.now
        → (spans : List Span) → Shows (span_rows old.now) spans executed.now
        → OnOk result (HasWidened old new (widened following.now more.now) after.now)) }
    ensures stays { Stays S.Store tx.old.conn tx.new.conn result }
{
    add_missing(tx, following, more.names())?;
    replace_all(tx, executed, after)
}

/// Does so in a transaction of its own, which is rolled back if a statement fails.
fn widen<S: Alter>(
    conn: &mut Connection<S>,
    following: &Follow,
    more: &Follow,
    executed: &GtidSet,
    after: &GtidSet,
) -> Result<(), Error>
    requires { conn.old.in_transaction ≡ false }
    ensures { IsWidened following.now more.now executed.now after.now (state S.Store conn.old)
        (state S.Store conn.new) result }
{
    let mut tx = conn.transaction();
    fill(&mut tx, following, more, executed, after)?;
    tx.commit()
}

impl<S: Alter> Store<S> {
    /// Adds names to the filter, and a set of GTIDs to the executed set, in one commit. It is for tables of which no
    /// transaction that is executed has changed a row, or whose rows are loaded afterwards, as those of a copy that was read
    /// at the executed set. A filter that admits all tables stays.
    ///
    /// The faults are as of [`Store::adopt`].
    ///
    /// Clauses:
    /// - `admits`, `shut`, `broken`, `crash`, `rest`, `fault`: as `adopt`, with the names in the filter (`widened`): it then
    ///   admits what it did, and these; after a fault it is as it was, and a crash leaves both or neither
    pub fn admit(&mut self, names: &Follow, gtids: &GtidSet) -> Result<(), StoreFault>
        ensures admits { HasCleanDisk (database S.Store self.new) → (content : Content)
            → Holds S.Store self.old content → Adopts S.Store content gtids.now self.old self.new
            result }
        ensures shut { HasCleanDisk (database S.Store self.new) → (content : Content)
            → Keeps S.Store self.old content → (database S.Store self.old).is_open ≡ false
            → AdoptsShut S.Store content self.new result }
        ensures broken { IsBroken S.Store self.old → (result ≡ Err Broken) × (self.new ≡ self.old) }
        ensures rest { KeepsRestWith S.Store (names_left (names_of S.Store self.old) names.now result)
            self.old self.new result }
        ensures crash { HasCleanDisk (database S.Store self.new) → (content : Content)
            → Holds S.Store self.old content → (trees : _)
            → (database S.Store self.new).may_leave trees
            → LeavesAdmitted (database S.Store self.old).now.schema
            (names_of S.Store self.old) names.now content gtids.now result trees }
        ensures fault { IfErr result IsAdoptFault }
    {
        if self.broken {
            return Err(StoreFault::Broken);
        }
        let (wider, after) = match grown(
            self.alloc,
            &self.following,
            names,
            &self.executed,
            gtids,
        ) {
            Ok(grown) => grown,
            Err(_) => {
                self.broken = true;
                return Err(StoreFault::Memory);
            }
        };
        match widen(
            &mut self.conn,
            &self.following,
            names,
            &self.executed,
            &after,
        ) {
            Ok(()) => {
                self.following = wider;
                self.executed = after;
                Ok(())
            }
            Err(error) => {
                self.broken = true;
                Err(StoreFault::Database(error))
            }
        }
    }
}
