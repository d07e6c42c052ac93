//! Reading the tables of a database that is opened.

ghost use Rattle.std.specs.Prelude.{pos};
ghost use Rattle.sqlite.specs.Held.{state};
ghost use Rattle.store.specs.Layout.{IsLaidOut, IsFirstLaidOut};
ghost use Rattle.store.specs.Rows.{meta_rows, KeepsRules, KeepsFirstRules};
ghost use Rattle.store.specs.Load.{StatesLayout, LoadsAll, IsLoaded, IsFirstLoaded};

use crate::fault::StoreFault;
use crate::table::executed::load_executed;
use crate::table::follow::load_follow;
use crate::table::held::load_held;
use crate::table::spans::load_spans;
use binlog::Follow;
use gtid::GtidSet;
use sqlite::{Alter, Connection};
use std::alloc::Global;

/// The executed set and the filter of a database that is opened.
#[derive(Debug, Drop)]
pub(crate) struct Loaded {
    pub(crate) executed: GtidSet,
    pub(crate) following: Follow,
}

/// What the rows of a database of layout 2 stand for, whose `meta` was read before. `Damaged` if they break its rules;
/// the other errors are `Database` and `Memory`.
pub(crate) fn load<S: Alter>(alloc: Global, conn: &mut Connection<S>) -> Result<Loaded, StoreFault>
    ensures { LoadsAll (IsLaidOut (state S.Store conn.old).now.schema)
        (StatesLayout (pos 2) (meta_rows (state S.Store conn.old).now))
        (state S.Store conn.old) (state S.Store conn.new) result
        (λ l. IsLoaded (state S.Store conn.new) l.executed l.following)
        (KeepsRules (state S.Store conn.old).now) }
{
    // For the prover: what the connection shows is a database. The call does nothing at run time.
    conn.schema();
    let following = load_follow(alloc, conn)?;
    let executed = load_spans(alloc, conn)?;
    load_held(conn)?;
    Ok(Loaded {
        executed,
        following,
    })
}

/// As `load`, for layout 1: the executed set.
pub(crate) fn load_first<S: Alter>(
    alloc: Global,
    conn: &mut Connection<S>,
) -> Result<GtidSet, StoreFault>
    ensures { LoadsAll (IsFirstLaidOut (state S.Store conn.old).now.schema)
        (StatesLayout (pos 1) (meta_rows (state S.Store conn.old).now))
        (state S.Store conn.old) (state S.Store conn.new) result
        (IsFirstLoaded (state S.Store conn.new))
        (KeepsFirstRules (state S.Store conn.old).now) }
{
    // For the prover: what the connection shows is a database. The call does nothing at run time.
    conn.schema();
    let executed = load_executed(alloc, conn)?;
    load_held(conn)?;
    Ok(executed)
}
