//! The two files of a database in memory, that nobody writes.

ghost use Rattle.std.specs.Prelude.{◌≡◌, Some, OnOk};
ghost use Rattle.files.specs.Copying.{header_of};

use crate::copying::FilesInUse;
use crate::names::WAL_HEADER;
use std::io;

/// The files of a database, which nobody writes, and the copy that is made of them. It is for tests.
#[derive(Debug, Drop)]
pub struct FilesAtRest<'a> {
    /// What the database file has.
    pub db: &'a [u8],
    /// What the WAL file has; nothing where it is not there.
    pub wal: &'a [u8],
    /// What the copy of the database file has.
    pub copied_db: Vec<u8>,
    /// What the copy of the WAL file has.
    pub copied_wal: Vec<u8>,
}

/// The header of a WAL file, if it has all of its bytes.
fn head_of(log: &[u8]) -> Option<[u8; WAL_HEADER]>
    ensures { result ≡ header_of log.now }
{
    if log.len() < WAL_HEADER {
        return None;
    }
    let mut head = [0u8; WAL_HEADER];
    head.copy_from_slice(&log[..WAL_HEADER]);
    Some(head)
}

/// Makes the copy of a file anew.
fn refill(copied: &mut Vec<u8>, bytes: &[u8]) -> io::Result<()>
    ensures { OnOk result (copied.new.items ≡ bytes.now) }
{
    copied.clear();
    copied.extend_from_slice(bytes)?;
    Ok(())
}

impl FilesInUse for FilesAtRest<'_> {
    ghost account = { λ f. Some (record {
      files = λ _. record { log = f.wal.now; db = f.db.now };
      now = 0;
      copy = record { log = f.copied_wal.items; db = f.copied_db.items };
    }) };

    fn header(&mut self) -> io::Result<Option<[u8; WAL_HEADER]>> {
        Ok(head_of(self.wal))
    }

    fn copy_file(&mut self) -> io::Result<()> {
        refill(&mut self.copied_db, self.db)
    }

    fn remove_wal(&mut self) -> io::Result<()> {
        self.copied_wal.clear();
        Ok(())
    }

    fn copy_wal(&mut self) -> io::Result<bool> {
        refill(&mut self.copied_wal, self.wal)?;
        Ok(true)
    }
}
