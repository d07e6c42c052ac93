//! The text of a first copy of tables, as the `mysql` client writes it, read as transactions; and the statements that print it
//! ([`write_select`]) and the description of its columns ([`write_query`]).
#![tactic(auto)]

mod copied_rows;
mod copy_fault;
mod digest;
mod end_line;
mod fault;
mod filling;
mod head;
pub mod laws;
mod line_cells;
mod loader;
mod places;
mod query;
mod row_reader;
mod row_taker;
mod select;
mod source;
mod summary;
mod table_front;

pub use copied_rows::{CopiedRows, RowsFault};
pub use copy_fault::CopyFault;
pub use digest::{bytes_digest, text_digest};
pub use fault::RowFault;
pub use head::read_head;
pub use loader::{CHUNK, Loader};
pub use query::write_query;
pub use row_reader::RowReader;
pub use select::{unselectable, write_select};
pub use source::copy_source;
pub use summary::Summary;
