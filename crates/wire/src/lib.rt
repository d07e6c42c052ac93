//! Packets and integers of the MySQL client/server protocol, the lowest layer of a connection.
//!
//! A payload travels in chunks of at most 16,777,215 bytes, each in a packet with its length and a
//! sequence id. [`Assembler`] takes the bytes of a stream in pieces of any size and hands out its
//! payloads; [`write_payload`] is the other direction. [`read_int`] and [`write_int`] read and write the
//! length-encoded integers inside payloads.
//!
//! The layouts are those of the MySQL Source Documentation, "Client/Server Protocol": the pages "MySQL
//! Packets" and "Integer Types". `specs/` defines them as relations on whole byte lists, and [`laws`]
//! states what follows from them.
#![tactic(auto)]

mod assembler;
mod fault;
mod integer;
pub mod laws;
pub mod lenenc;
mod packet;
mod unpacker;

pub use assembler::{Assembler, Step};
pub use fault::WireFault;
pub use integer::{read_int, write_int};
pub use packet::{HEADER_LENGTH, LARGEST_PAYLOAD, packing_length, write_payload};
