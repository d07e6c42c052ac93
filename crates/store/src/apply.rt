//! Applying a transaction of the source.

ghost use Rattle.std.specs.Prelude.{◌≡◌, ◌≢◌, true, false, Ok, Err, IsErr, IsTrue, IfErr};
ghost use Rattle.std.specs.FinSet as set;
ghost use Rattle.sqlite.specs.State.{HasCleanDisk, Survives};
ghost use Rattle.sqlite.specs.Held.{state};
ghost use Rattle.gtid.specs.Identifier.{id};
ghost use Rattle.gather.specs.View.{delivery_value};
ghost use Rattle.store.specs.State.{Content};
ghost use Rattle.store.specs.Changes.{is_executed};
ghost use Rattle.store.specs.Apply.{IsReported, RunsNew};
ghost use Rattle.store.specs.Faults.{IsApplyFault};
ghost use Rattle.store.specs.Store.{Holds, Keeps, Applies, AppliesShut, Leaves, breaks, database, names_of, IsBroken, KeepsRest};
ghost use Rattle.store.specs.declared.fault.Applied.TheVariants.{Repeat};
ghost use Rattle.store.specs.declared.fault.StoreFault.TheVariants.{Broken, Memory};

use crate::changes::{check_open, run};
use crate::fault::{Applied, StoreFault};
use crate::row_change::Refusal;
use crate::store::Store;
use binlog::Follow;
use gather::Delivery;
use gtid::{Entry, GtidSet, Reserved};
use sqlite::{Alter, Connection};
use std::alloc::Global;
use std::mem;

/// Reports a refused change, or the database error if rolling back shut the connection.
fn refuse<S: Alter>(conn: &mut Connection<S>, at: usize, why: Refusal) -> StoreFault
    ensures reported { HasCleanDisk (state S.Store conn.new)
        → IsReported at why (state S.Store conn.old) (state S.Store conn.new) result }
    ensures survives { Survives (state S.Store conn.old) (state S.Store conn.new) (λ _. ⊥) }
    ensures other { result ≢ Memory }
    ensures fault { IsApplyFault result }
    ensures autocommit { conn.old.in_transaction ≡ false → conn.new.in_transaction ≡ false }
{
    if let Err(error) = check_open(conn) {
        return StoreFault::Database(error);
    }
    match why {
        Refusal::NoSuchRow => StoreFault::NoSuchRow(at),
        Refusal::CountFull => StoreFault::CountFull(at),
    }
}

/// Applies a transaction that is not in the executed set, which has room for its GTID, and returns the set as it is then.
fn apply_new<S: Alter>(
    alloc: Global,
    conn: &mut Connection<S>,
    filter: &Follow,
    reserved: Reserved,
    delivery: &Delivery,
) -> (GtidSet, Result<Applied, StoreFault>)
    requires autocommit { conn.old.in_transaction ≡ false }
    requires of { reserved.1 ≡ id delivery.now.gtid }
    requires new { set.contains reserved.0 reserved.1 ≡ false }
    ensures { RunsNew filter.now (delivery_value delivery.now) reserved.0 (state S.Store conn.old)
        (state S.Store conn.new) result.0 result.1 }
{
    match run(alloc, conn, filter, delivery, &reserved.beside()) {
        Ok(None) => (reserved.insert(), Ok(Applied::Done)),
        Ok(Some((at, why))) => (reserved.release(), Err(refuse(conn, at, why))),
        Err(error) => (reserved.release(), Err(StoreFault::Database(error))),
    }
}

/// Whether the database has to be opened again after this answer.
fn breaks(answer: &Result<Applied, StoreFault>) -> bool
    ensures { result ≡ breaks answer.now }
{
    matches!(
        answer,
        Err(StoreFault::Database(_)) | Err(StoreFault::Memory)
    )
}

impl<S: Alter> Store<S> {
    /// Applies a transaction of the source, all or nothing. Changes of tables that the filter leaves out are skipped.
    ///
    /// A `Repeat` runs no statement and takes no memory. After `NoSuchRow` and `CountFull` the store can be used
    /// further. `Database` comes if the database failed, and `Memory` if an allocation was refused: the executed set is
    /// as before, and so is the database if the connection is still open; from now on this call, `adopt`, `count` and
    /// `list` answer `Broken`.
    ///
    /// Clauses:
    /// - `applies`, `shut`, `fault`: `Done`: the changes that the filter admits are made in order, and the GTID is
    ///   executed. `Repeat`: nothing changes. `NoSuchRow`, `CountFull`: the place of the first change that cannot be
    ///   made, and nothing changes. `Database`, `Memory`: it was not executed yet
    /// - `known`, `broken`, `crash`: a GTID of the set is `Repeat` always; after a failure each call is `Broken`; a
    ///   crash leaves the old state or, after `Done` or `Database`, the new one
    /// - `rest`: what is kept whatever it answers (`KeepsRest`): names, schema, what lies beside
    pub fn apply(&mut self, delivery: &Delivery) -> Result<Applied, StoreFault>
        ensures applies { HasCleanDisk (database S.Store self.new) → (content : Content)
            → Holds S.Store self.old content → Applies S.Store content
            (delivery_value delivery.now) self.old self.new result }
        ensures shut { HasCleanDisk (database S.Store self.new) → (content : Content)
            → Keeps S.Store self.old content → (database S.Store self.old).is_open ≡ false
            → AppliesShut S.Store content (delivery_value delivery.now) self.old self.new result }
        ensures known { (content : Content) → Keeps S.Store self.old content
            → is_executed content (delivery_value delivery.now) ≡ true
            → (result ≡ Ok Repeat) × (self.new ≡ self.old) }
        ensures broken { IsBroken S.Store self.old → (result ≡ Err Broken) × (self.new ≡ self.old) }
        ensures rest { KeepsRest S.Store self.old self.new result }
        ensures crash { HasCleanDisk (database S.Store self.new) → (content : Content)
            → Holds S.Store self.old content → (trees : _)
            → (database S.Store self.new).may_leave trees
            → Leaves (database S.Store self.old).now.schema (names_of S.Store self.old) content
            (delivery_value delivery.now) result trees }
        ensures fault { IfErr result IsApplyFault }
    {
        if self.broken {
            return Err(StoreFault::Broken);
        }
        let executed = mem::replace(&mut self.executed, GtidSet::new(self.alloc));
        let reserved = match executed.entry(delivery.gtid) {
            Entry::New(reserved) => reserved,
            Entry::Known(executed) => {
                self.executed = executed;
                return Ok(Applied::Repeat);
            }
            Entry::NoRoom(executed) => {
                self.executed = executed;
                self.broken = true;
                return Err(StoreFault::Memory);
            }
        };
        let (executed, answer) = apply_new(
            self.alloc,
            &mut self.conn,
            &self.following,
            reserved,
            delivery,
        );
        self.executed = executed;
        self.broken = breaks(&answer);
        answer
    }
}
