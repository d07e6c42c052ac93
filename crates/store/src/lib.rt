//! The rows of a replica and its executed GTID set, in a SQLite database.
//!
//! [`Store::open`] is given a connection in autocommit mode (see `Connection::is_autocommit`). It makes the tables of a
//! new database, reads those of an existing one, and migrates those of layout 1. [`Store::open_only`] does so with a
//! filter, and then only the rows of the tables that it admits are kept; [`Store::open_for`] does one or the other.
//! [`Store::apply`] applies a transaction of the source, a [`Delivery`](gather::Delivery): its changes and its GTID go
//! into the database together, or not at all. [`Applied`] says whether the transaction was new. [`Store::adopt`] adds a
//! set to the executed set, for rows that contain its transactions already, and [`Store::admit`] tables to the filter.
//!
//! Rows are kept as a bag: each row with the number of its copies. [`Store::count`] returns that number for one row,
//! and [`Store::list`] hands all rows in order to a [`Visitor`], each as a [`Listed`]. [`Store::executed`] is the executed
//! set, [`Store::following`] the filter.
//!
//! A [`StoreFault`] of a refused change, `NoSuchRow` or `CountFull`, leaves the store as it was. After `Database` or
//! `Memory` of `apply`, `adopt` or `admit` the store has failed: all calls but `executed` and `following` answer `Broken`, and
//! the database must be opened again. A store cannot be dropped: [`Store::close`] ends it and returns the connection. The
//! database may have other tables with their indexes, and views, which no call changes. The contracts assume that nobody
//! else writes to the database, and that the disk returns what was written to it.
//!
//! `specs/` defines what a replica holds (`State.antt`), what a transaction makes of it (`Changes.antt`), how the tables
//! store it (`Rows.antt`, `Layout.antt`), and what lies beside them (`Beside.antt`). [`laws`] states what follows.
#![tactic(auto)]

mod admit;
mod adopt;
mod apply;
mod changes;
mod contents;
mod counting;
mod damage;
mod fault;
mod inserts;
pub mod laws;
mod layout;
mod listing;
mod load;
mod make;
mod migrate;
mod opening;
mod row_change;
mod store;
mod table;

pub use damage::Damage;
pub use fault::{Applied, StoreFault};
pub use listing::{ListError, Listed, Lister, Visitor};
pub use store::Store;
