//! How a new database file is made: with its first page, whole.
//!
//! The page is written to F.new, and once the disk has it F becomes a name of that file. So neither a kill nor a crash leaves
//! an F that is half made.

use crate::part_file::{Claim, Leftover, begin, give_name, remove};
use crate::sqlite_file::MAGIC;
use std::fs::File;
use std::os::unix::fs::FileExt;
use std::{fs, io};

/// The size of the pages of a new database, in bytes. What a small transaction costs grows with it, and what a row of some
/// hundred bytes takes in the file falls (bench/README.md).
const PAGE: usize = 2048;

/// The first page of a database without tables, as a connection makes it in an empty file, but for the size of its pages
/// (SQLite, "Database File Format", sections 1.3 and 1.6).
fn first_page() -> [u8; PAGE] {
    let mut page = [0u8; PAGE];
    let size = (PAGE as u16).to_be_bytes();
    page[..16].copy_from_slice(&MAGIC);
    page[16..18].copy_from_slice(&size);
    // It is written and read with a WAL, no bytes of a page are reserved, and payloads take the parts of a page that they
    // always do.
    page[18..24].copy_from_slice(&[2, 2, 0, 64, 32, 32]);
    // The count of pages, the number of the schema, the format of the schema, and UTF-8.
    page[31] = 1;
    page[43] = 1;
    page[47] = 4;
    page[59] = 1;
    // The version of SQLite that the file is like, 3.45.0.
    page[96..100].copy_from_slice(&3_045_000u32.to_be_bytes());
    // A leaf of the schema's table without cells, whose content would begin at the page's end.
    page[100] = 13;
    page[105..107].copy_from_slice(&size);
    page
}

/// What came of making a database file.
pub enum Made {
    /// It is there, and nothing had its name.
    File(File),
    /// Something has come to have its name.
    Taken,
    /// Another process is making it.
    InUse,
}

/// What a killed process has left of a first page: its first bytes, and zeros where a crash has lost others. A file with a WAL
/// file beside it is a database that was opened.
struct LeftPage;

impl Leftover for LeftPage {
    fn is_left(rt: &HostRuntime, name: &str) -> io::Result<bool> {
        let wal = format!(in rt.alloc(); "{name}-wal")?;
        let file = fs::open(rt, name)?;
        let length = file.metadata()?.len();
        if length > PAGE as u64 || fs::exists(rt, wal.as_str())? {
            return Ok(false);
        }
        let mut found = [0u8; PAGE];
        let Some(found) = found.get_mut(..length as usize) else {
            return Ok(false);
        };
        file.read_exact_at(found, 0)?;
        let page = first_page();
        Ok(
            found
                .iter()
                .zip(page.iter())
                .all(|(it, whole)| *it == *whole || *it == 0),
        )
    }
}

/// Makes a database file that is not there, with its first page, where the folder and its file system allow that. `part` is
/// its name until it is whole.
pub fn make(rt: &HostRuntime, part: &str, name: &str) -> io::Result<Made> {
    let file = match begin::<LeftPage>(rt, part)? {
        Claim::Made(file) => file,
        Claim::InUse => return Ok(Made::InUse),
        Claim::Foreign => return Err(io::ErrorKind::AlreadyExists.into()),
    };
    let named = match write(&file) {
        Ok(()) => give_name(rt, part, name),
        Err(cause) => Err(cause),
    };
    match named {
        Ok(true) => Ok(Made::File(file)),
        Ok(false) => {
            remove(rt, part)?;
            Ok(Made::Taken)
        }
        Err(cause) => {
            remove(rt, part)?;
            Err(cause)
        }
    }
}

/// Writes the first page, and waits until the disk has it.
fn write(file: &File) -> io::Result<()> {
    file.write_all_at(&first_page(), 0)?;
    file.sync_all()
}

/// Whether a file has the first page of a new database and nothing else.
pub fn is_first_page(file: &File) -> io::Result<bool> {
    if file.metadata()?.len() != PAGE as u64 {
        return Ok(false);
    }
    let mut found = [0u8; PAGE];
    file.read_exact_at(&mut found, 0)?;
    Ok(found == first_page())
}
