//! The files of a follower, by the names that a command is given: of a database in SQLite's format, of its copy, of a change
//! feed, of streams and of a password.
//!
//! [`Opening`] is what stands before a database file is opened: the lock of its name, and the file itself, made with its
//! first page where there was none. [`FileNames`] and [`CopyPart`] copy a database that others may be writing, [`FeedFile`] is
//! a file to whose end the lines of a change feed are written, [`Input`] is what a stream is read from, and [`KeptInput`]
//! keeps standard input, so that it can be read twice.
//!
//! Nothing is specified about what the file at a path has, so few functions have a contract: [`FileFault`]'s
//! conversions, and those that copy two files which others may write, over files whose bytes are known; [`laws`]
//! states what follows for the copy. Each function says why it refuses a file, and never by stopping the process.
#![tactic(auto)]

mod copy_part;
mod copying;
mod fault;
mod feed_file;
mod files_at_rest;
mod found;
mod input;
mod kept_input;
pub mod laws;
mod name_lock;
mod names;
mod new_file;
mod opening;
mod owner;
mod part_file;
mod password_file;
mod sqlite_file;
mod unsupported;
mod what_is_named;

pub use copy_part::{CopyPart, make_part};
pub use copying::{FilesInUse, copy_fitting};
pub use fault::FileFault;
pub use feed_file::FeedFile;
pub use files_at_rest::FilesAtRest;
pub use found::Found;
pub use input::{INPUT, Input};
pub use kept_input::KeptInput;
pub use name_lock::{LOCKED, NameLock, keep_one_name, lock_alone};
pub use names::FileNames;
pub use opening::{Opening, missing_wal, opening_fault, remove_unused};
pub use owner::{Owner, owner_of};
pub use password_file::{others_may_read, read_password};
pub use sqlite_file::reading_fault;
pub use what_is_named::{is_beside, is_file, is_log_file, is_there, lead_to_one};
