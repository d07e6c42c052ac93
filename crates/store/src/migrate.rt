//! Migration from layout 1 to layout 2.

ghost use Rattle.std.specs.Prelude.{◌≡◌, false, pos, OnOk, OnErr};
ghost use Rattle.sqlite.specs.State.{HasCleanDisk, Survives};
ghost use Rattle.sqlite.specs.Held.{state};
ghost use Rattle.store.specs.State.{Content};
ghost use Rattle.store.specs.Inside.{Stays, TurnsInto};
ghost use Rattle.store.specs.Beside.{LiesBeside};
ghost use Rattle.store.specs.Apply.{IsAtRest};
ghost use Rattle.store.specs.Load.{Rested};
ghost use Rattle.store.specs.Open.{all, IsFirstAtRest, MayMigrate};
ghost use Rattle.store.specs.Making.{HasMade};
ghost use Rattle.store.specs.Migrating.{HasBare, IsFirstInside, IsMigrating};

use crate::table::executed::drop_executed;
use crate::table::follow::make_follow;
use crate::table::meta::raise_layout;
use crate::table::spans::{add_all, make_spans};
use gtid::GtidSet;
use sqlite::{Alter, Connection, Error, Transaction};

/// Changes the tables to those of layout 2, without spans.
fn change_tables<S: Alter>(tx: &mut Transaction<'_, S>) -> Result<(), Error>
    ensures migrated { (content : Content) → TurnsInto S.Store tx.old.conn tx.new.conn result
        (IsFirstInside content) (IsMigrating HasBare (pos 2) content) }
    ensures stays { Stays S.Store tx.old.conn tx.new.conn result }
{
    drop_executed(tx)?;
    make_spans(tx)?;
    make_follow(tx)?;
    raise_layout(tx)?;
    Ok(())
}

/// Changes the tables to those of layout 2, with the spans of the set.
fn convert<S: Alter>(tx: &mut Transaction<'_, S>, executed: &GtidSet) -> Result<(), Error>
    ensures made { HasCleanDisk (state S.Store tx.new.conn.now) → (content : Content)
        → IsFirstInside content (state S.Store tx.old.conn.now) → executed.now ≡ content.executed
        → OnOk result (HasMade (state S.Store tx.new.conn.now) all content) }
    ensures stays { Stays S.Store tx.old.conn tx.new.conn result }
{
    change_tables(tx)?;
    add_all(tx, executed.spans())
}

/// Migrates a database of layout 1, whose executed set is given, to layout 2; or leaves it as it is.
pub(crate) fn migrate<S: Alter>(conn: &mut Connection<S>, executed: &GtidSet) -> Result<(), Error>
    requires { conn.old.in_transaction ≡ false }
    ensures autocommit { conn.new.in_transaction ≡ false }
    ensures migrated { HasCleanDisk (state S.Store conn.new) → (content : Content)
        → IsFirstAtRest (state S.Store conn.old) content → executed.now ≡ content.executed
        → OnOk result (IsAtRest (state S.Store conn.new) all content
        × LiesBeside (state S.Store conn.old).now (state S.Store conn.new).now) }
    ensures refused { HasCleanDisk (state S.Store conn.new)
        → OnErr result (Rested (state S.Store conn.old) (state S.Store conn.new)) }
    ensures crash { Survives (state S.Store conn.old) (state S.Store conn.new)
        (MayMigrate (state S.Store conn.old) executed.now) }
{
    let mut tx = conn.transaction();
    convert(&mut tx, executed)?;
    tx.commit()
}
