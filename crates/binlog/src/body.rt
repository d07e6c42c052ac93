//! The bodies of events: for each type its layout, read and written.
//!
//! Each reader takes a whole event whose header was read. The body begins at offset 19, and the offsets of faults count
//! from the event's first byte.

pub(crate) mod format;
pub(crate) mod gtid_event;
pub(crate) mod query;
pub(crate) mod rotate;
pub(crate) mod rows;
pub(crate) mod rows_event;
pub(crate) mod table_map;
pub(crate) mod xid;
