//! The messages of a MySQL replica's connection before the first event: the source's greeting, the response to
//! it, the replies, and the two commands, COM_QUERY and COM_BINLOG_DUMP_GTID.
//!
//! Each message is a whole payload, without its packet headers. A reader accepts any bytes where the layout leaves them
//! free, and reports the first fault of a payload that is not the message; an ERR instead of the message is
//! [`GreetFault::ServerError`]. A writer appends the one payload of a value, if `fits` holds of it.
//!
//! The layouts are those of the MySQL Source Documentation, "Client/Server Protocol" (the page "Connection Phase" and
//! those of the messages) and "Replication Protocol". `specs/` defines them as relations on whole byte lists, and
//! [`laws`] states what follows from them.
#![tactic(auto)]

mod command;
mod error;
mod fault;
mod greeting;
pub mod laws;
mod native_auth;
pub mod packet_header;
mod parts;
mod reply;
mod response;

pub use command::{Dump, query};
pub use fault::GreetFault;
pub use greeting::Greeting;
pub use native_auth::native;
pub use reply::{AuthReply, read_eof, read_ok};
pub use response::Response;
