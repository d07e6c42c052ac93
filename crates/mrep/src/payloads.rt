//! The payloads of a stream whose first packets may have any sequence id, and a line for each.
//!
//! `Listing` reads the stream in pieces of any size, and `list_piece` writes a line for each payload that a piece completes: its
//! length, or its event.

pub mod event_line;
pub mod lines;
pub mod listing;
