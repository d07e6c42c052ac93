//! The store.
//!
//! Its methods are in `opening.rt`, `contents.rt`, `apply.rt`, `adopt.rt`, `admit.rt`, `counting.rt` and `listing.rt`: the struct has
//! facts that definitions are stated over, and the prover takes no file that both has such a struct and names these
//! definitions.

ghost use Rattle.std.specs.Prelude.{◌≡◌, false};

use binlog::Follow;
use gtid::GtidSet;
use sqlite::{Alter, Connection};
use std::alloc::Global;

/// The rows of a replica and its executed GTID set, in a SQLite database. A store owns its connection, which is in
/// autocommit mode between the calls, and cannot be dropped: [`Store::close`] ends it.
pub struct Store<S: Alter> {
    pub(crate) conn: Connection<S>,
    pub(crate) executed: GtidSet,
    pub(crate) following: Follow,
    /// An earlier call failed, and the database must be opened again.
    pub(crate) broken: bool,
    pub(crate) alloc: Global,
    ghost autocommit: { conn.in_transaction ≡ false },
}
