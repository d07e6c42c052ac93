//! Where the bytes of connections come from: memory, a reader, captures, a stream of two directions.

pub(crate) mod captures;
pub(crate) mod connect;
pub(crate) mod connections;
pub(crate) mod counted;
pub(crate) mod following;
pub(crate) mod memory_stream;
pub(crate) mod reader;
