//! Connections read in order.

ghost use Rattle.std.specs.Prelude.{◌≡◌, Bool, IsErr, IfOk, All};
ghost use Rattle.sqlite.specs.State.{HasCleanDisk};
ghost use Rattle.store.specs.State.{Content};
ghost use Rattle.store.specs.Store.{HoldsAs, database};
ghost use Rattle.replica.specs.Conn.{IsOwn};
ghost use Rattle.replica.specs.Pieces.{stream_of, streams_of};
ghost use Rattle.replica.specs.Over.{HasRead, HasReadAll};
ghost use Rattle.replica.specs.Keeps.{KeepsStore};

use crate::session::Session;
use crate::session::config::Config;
use crate::session::end::{Ended, Reason};
use sqlite::Alter;
use std::alloc::Global;
use store::Store;
use thiserror::Error;

/// The room for the ends could not be allocated, and nothing was done.
#[derive(Clone, Copy, Debug, PartialEq, Eq, Error)]
#[error("out of memory")]
pub struct NoMemory;

/// Reads one connection to its end.
fn read_pieces<S: Alter>(config: Config, store: &mut Store<S>, pieces: &[Vec<u8>]) -> Ended
    ensures read { HasCleanDisk (database S.Store store.new) → (was : Bool) (old : Content)
        → HoldsAs S.Store was old store.old → HasRead S.Store config.limit store.old store.new was
        old (stream_of pieces.now) result }
    ensures keeps { KeepsStore S.Store store.old store.new }
    ensures may_end { IsOwn result.reason }
{
    let mut session = Session::new(config);
    for piece in pieces {
        let _ = session.feed(store, piece.as_slice());
    }
    session.finish()
}

/// Reads one connection with a copy of the settings.
fn read_connection<S: Alter>(config: &Config, store: &mut Store<S>, pieces: &[Vec<u8>]) -> Ended
    ensures read { HasCleanDisk (database S.Store store.new) → (was : Bool) (old : Content)
        → HoldsAs S.Store was old store.old → HasRead S.Store config.now.limit store.old store.new
        was old (stream_of pieces.now) result }
    ensures keeps { KeepsStore S.Store store.old store.new }
    ensures may_end { IsOwn result.reason }
{
    match config.copy() {
        Ok(config) => read_pieces(config, store, pieces),
        Err(_) => Ended {
            reason: Reason::Memory,
            at: 0,
            applied: 0,
        },
    }
}

/// Reads connections in order, each a list of pieces of its bytes, and returns how each ended. The room for the ends is
/// allocated first, so that after `NoMemory` nothing was done.
///
/// Clauses:
/// - `history`: content, and reason, offset and count of each end, are those of taking the connections in order
/// - `keeps`, `may_end`, `untouched`: the tables that are followed and a store that has failed stay; no connection is
///   halted; after `NoMemory` nothing was done
pub fn run<S: Alter>(
    alloc: Global,
    config: &Config,
    store: &mut Store<S>,
    connections: &[Vec<Vec<u8>>],
) -> Result<Vec<Ended>, NoMemory>
    // The content of the store afterwards and the ends are those of taking each connection in order, however it was cut
    // into pieces. A crash leaves that content, or that with one more transaction if the database failed.
    ensures history { IfOk result (λ ends. HasCleanDisk (database S.Store store.new)
        → (was : Bool) (old : Content) → HoldsAs S.Store was old store.old
        → HasReadAll S.Store config.now.limit store.new
        (database S.Store store.old).now.schema was old (streams_of connections.now) ends.items) }
    // It follows the same tables, and a store that has failed stays as it is.
    ensures keeps { KeepsStore S.Store store.old store.new }
    ensures may_end { IfOk result (λ ends. All (λ end. IsOwn end.reason) ends.items) }
    ensures untouched { IsErr result → store.new ≡ store.old }
{
    let Ok(mut ends) = Vec::with_capacity(alloc, connections.len()) else {
        return Err(NoMemory);
    };
    for pieces in connections {
        let end = read_connection(config, store, pieces.as_slice());
        ends.push_reserved(end);
    }
    Ok(ends)
}
