//! Making the tables of a new database.

ghost use Rattle.std.specs.Prelude.{◌≡◌, [], false, OnOk, OnErr};
ghost use Rattle.sqlite.specs.State.{HasCleanDisk, Survives};
ghost use Rattle.sqlite.specs.Held.{state};
ghost use Rattle.store.specs.Beside.{LiesBeside};
ghost use Rattle.store.specs.Apply.{IsAtRest};
ghost use Rattle.store.specs.Load.{Rested};
ghost use Rattle.store.specs.Open.{nothing, IsBlank, MayStandFor};
ghost use Rattle.store.specs.Inside.{Stays, TurnsInto};
ghost use Rattle.store.specs.Making.{new_layout, IsMaking, HasMade};

use crate::table::follow::{add_names, make_follow};
use crate::table::held::make_held;
use crate::table::meta::{make_meta, set_layout};
use crate::table::spans::make_spans;
use binlog::Follow;
use sqlite::{Alter, Connection, Error, Transaction};

/// Makes the four tables.
fn make_tables<S: Alter>(tx: &mut Transaction<'_, S>) -> Result<(), Error>
    ensures made { TurnsInto S.Store tx.old.conn tx.new.conn result
        (IsMaking []) (IsMaking new_layout) }
    ensures stays { Stays S.Store tx.old.conn tx.new.conn result }
{
    make_meta(tx)?;
    make_held(tx)?;
    make_spans(tx)?;
    make_follow(tx)?;
    Ok(())
}

/// Makes the tables and their first rows.
fn fill<S: Alter>(tx: &mut Transaction<'_, S>, filter: &Follow) -> Result<(), Error>
    ensures made { TurnsInto S.Store tx.old.conn tx.new.conn result
        (IsMaking []) (λ s. HasMade s filter.now nothing) }
    ensures stays { Stays S.Store tx.old.conn tx.new.conn result }
{
    make_tables(tx)?;
    set_layout(tx)?;
    add_names(tx, filter.names())
}

/// Makes the tables of a new database, all of them or none.
pub(crate) fn make<S: Alter>(conn: &mut Connection<S>, filter: &Follow) -> Result<(), Error>
    requires { conn.old.in_transaction ≡ false }
    ensures autocommit { conn.new.in_transaction ≡ false }
    ensures made { HasCleanDisk (state S.Store conn.new) → IsBlank (state S.Store conn.old)
        → OnOk result (IsAtRest (state S.Store conn.new) filter.now nothing
        × LiesBeside (state S.Store conn.old).now (state S.Store conn.new).now) }
    ensures refused { HasCleanDisk (state S.Store conn.new)
        → OnErr result (Rested (state S.Store conn.old) (state S.Store conn.new)) }
    ensures crash { IsBlank (state S.Store conn.old)
        → Survives (state S.Store conn.old) (state S.Store conn.new)
        (MayStandFor (state S.Store conn.old).now filter.now nothing) }
    ensures clean { HasCleanDisk (state S.Store conn.new) → HasCleanDisk (state S.Store conn.old) }
{
    // For the prover: what the connection shows is a database. The call does nothing at run time.
    conn.schema();
    let mut tx = conn.transaction();
    fill(&mut tx, filter)?;
    tx.commit()
}
