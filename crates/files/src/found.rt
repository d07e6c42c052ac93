//! What a command that only reads a database finds under its name, before anything is opened or made.

use crate::owner::{Owner, owner_of};
use crate::sqlite_file::{has_frames, is_database, is_special};
use crate::what_is_named::{given, is_there, place_of};
use std::alloc::AllocError;
use std::io::ErrorKind;
use std::{fs, io};

/// What is found under the name of a database.
#[derive(Clone, Copy, PartialEq, Eq)]
pub enum Found {
    /// No file, or an empty one: no transaction was applied.
    Nothing,
    /// A database of this program, or something of which an opening says why it is none.
    Database,
    /// A database without tables in the file itself; its WAL file may have them.
    Unmerged,
    /// A database of another program.
    Foreign,
}

impl Found {
    /// What is found under this name. Nothing is written. The error is that an allocation was refused: then nothing is to be
    /// opened, since an opening makes a file that is not there.
    pub fn under(rt: &HostRuntime, name: &str) -> Result<Found, AllocError> {
        Ok(match given(look(rt, name))? {
            Some(found) => found,
            None => Found::Database,
        })
    }
}

fn look(rt: &HostRuntime, name: &str) -> io::Result<Found> {
    if is_special(name) {
        return Ok(Found::Database);
    }
    match fs::metadata(rt, name) {
        Ok(metadata) if !metadata.is_file() => Ok(Found::Database),
        Ok(metadata) if metadata.len() == 0 => look_beside(rt, name),
        Ok(_) if !is_database(rt, name)? => Ok(Found::Database),
        Ok(_) => Ok(match owner_of(rt, name)? {
            Owner::This => Found::Database,
            Owner::Other => Found::Foreign,
            Owner::Nobody => Found::Unmerged,
        }),
        Err(cause) if cause.kind() != ErrorKind::NotFound => Err(cause),
        // A link that leads nowhere, and a folder that is not there.
        Err(_) if is_there(rt, name)? || place_of(rt, name)?.is_none() => Ok(Found::Database),
        Err(_) => Ok(Found::Nothing),
    }
}

/// What an empty file is: on some file systems all of a new database is in its WAL file at first.
fn look_beside(rt: &HostRuntime, name: &str) -> io::Result<Found> {
    let wal = format!(in rt.alloc(); "{name}-wal")?;
    match has_frames(rt, wal.as_str()) {
        Ok(true) => Ok(Found::Unmerged),
        Ok(false) => Ok(Found::Nothing),
        Err(cause) if cause.kind() == ErrorKind::NotFound => Ok(Found::Nothing),
        Err(cause) => Err(cause),
    }
}
