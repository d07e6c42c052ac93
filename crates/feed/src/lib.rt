//! The change feed: each transaction as lines of JSON, in a file.
//!
//! [`Feed`] has the changes of transactions, with the names and types of a description or with what the log has, and with what their
//! events say of times and numbers ([`Stamps`]); [`SkipFeed`] has what it says of a transaction that is skipped.
//!
//! What [`Stamps`] holds after an event has a contract; what the lines say is tested.
#![tactic(auto)]

mod chain;
mod change_feed;
mod seconds;
mod skip_feed;
mod stamps;
mod statements;

pub use change_feed::{Feed, FeedEntry, OUTPUT};
pub use skip_feed::{SkipError, SkipFeed, Skipping};
pub use stamps::Stamps;
