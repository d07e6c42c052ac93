//! Whole transactions, gathered from the events of the binary log.
//!
//! A [`Gatherer`] takes the events of a source one by one. At the event that ends a transaction it answers a
//! [`Delivery`]: the transaction's GTID and its [`Change`]s in order, each with its table and the [`Image`] of its row.
//! An invalid sequence of events ends with a [`GatherFault`]. [`Deliveries`] is what gives transactions one at a time.
//!
//! The order of events is that of the MySQL Source Documentation, "Binlog Event". `specs/` defines which lists of
//! events are lawful and which transactions they hold, and [`laws`] states what follows from that.
#![tactic(auto)]

mod changes;
mod deliveries;
mod fault;
mod gatherer;
mod image;
mod image_cells;
mod image_check;
mod image_writing;
pub mod laws;
mod open_transaction;
mod row_changes;
mod state;
mod transaction;

pub use binlog::Follow;
pub use changes::{Changes, ChangesIter};
pub use deliveries::Deliveries;
pub use fault::GatherFault;
pub use gatherer::Gatherer;
pub use image::{Image, ImageRef};
pub use image_cells::ImageCells;
pub use transaction::{Change, Delivery};
