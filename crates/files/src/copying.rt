//! A database copied as it is, also while another process writes it.
//!
//! Its two files are copied as they are, first the database file and then its WAL file, whose header is read before
//! and after. A WAL file is only ever written after what it has, until it is begun anew, under a header with another
//! salt. So where the header is the same, each page that was copied back into the database file meanwhile stands in
//! the copied WAL file too, and opening the copy finds the state after some last commit, at least of all that had
//! ended before. That is the law [`copied`](crate::laws::copied), of what [`copy_once`] ensures.

ghost use Rattle.std.specs.Prelude.{Option, None, IfOk, MatchBool};
ghost use Rattle.files.specs.Copying.{CopyAccount, InCall, ReadsHeader, CopiesFile, RemovesLog, CopiesLog, MissesLog, CopiesBoth, MeetsOtherHeader};

use crate::copy_part::CopyPart;
use crate::names::{FileNames, WAL_HEADER, header};
use std::fs::File;
use std::io::{ErrorKind, Seek, SeekFrom};
use std::{fs, io};

/// How often the files are copied, at most.
const TRIES: u32 = 100;

/// The two files of a database that others may write, and the copy that is made of them.
pub trait FilesInUse {
    // What the files and the copy have; `None` if no account of it is kept.
    ghost account: { Self → Option CopyAccount };

    /// The header of the WAL file, if it has one.
    fn header(&mut self) -> io::Result<Option<[u8; WAL_HEADER]>>
        ensures { InCall (λ before after. IfOk result (λ head. ReadsHeader head before after))
            (account self.old) (account self.new) };

    /// Copies the database file.
    fn copy_file(&mut self) -> io::Result<()>
        ensures { InCall (λ before after. IfOk result (λ _. CopiesFile before after))
            (account self.old) (account self.new) };

    /// Removes the copy's WAL file, if an earlier copy has left one.
    fn remove_wal(&mut self) -> io::Result<()>
        ensures { InCall (λ before after. IfOk result (λ _. RemovesLog before after))
            (account self.old) (account self.new) };

    /// Copies the WAL file, if it is there. Whether it is.
    fn copy_wal(&mut self) -> io::Result<bool>
        ensures { InCall (λ before after. IfOk result (λ there. MatchBool there
            (CopiesLog before after) (MissesLog before after)))
            (account self.old) (account self.new) };
}

/// The files of these names, and of a copy. No contract says what a file has.
#[derive(Drop)]
struct NamedFiles<'a> {
    rt: &'a HostRuntime,
    from: &'a FileNames,
    part: &'a CopyPart,
}

impl FilesInUse for NamedFiles<'_> {
    ghost account = { λ _. None };

    fn header(&mut self) -> io::Result<Option<[u8; WAL_HEADER]>> {
        header(self.rt, self.from.wal.as_str())
    }

    fn copy_file(&mut self) -> io::Result<()> {
        let mut file = &self.part.file;
        file.set_len(0)?;
        file.seek(SeekFrom::Start(0))?;
        copy_open(fs::open(self.rt, self.from.file.as_str())?, &self.part.file)
    }

    fn remove_wal(&mut self) -> io::Result<()> {
        self.part.remove_wal(self.rt)
    }

    fn copy_wal(&mut self) -> io::Result<bool> {
        match fs::open(self.rt, self.from.wal.as_str()) {
            Ok(wal) => {
                copy_open(wal, &self.part.make_wal(self.rt)?)?;
                Ok(true)
            }
            Err(cause) if cause.kind() == ErrorKind::NotFound => Ok(false),
            Err(cause) => Err(cause),
        }
    }
}

impl CopyPart {
    /// Copies the two files of a database until they fit each other. Whether they do at last.
    pub fn fill(&self, rt: &HostRuntime, from: &FileNames) -> io::Result<bool> {
        copy_fitting(&mut NamedFiles {
            rt,
            from,
            part: self,
        })
    }
}

/// Copies the two files until they fit each other, or often enough. Whether they do at last.
pub fn copy_fitting<F: FilesInUse>(files: &mut F) -> io::Result<bool>
    ensures { InCall (λ before after. IfOk result (λ fits. MatchBool fits
        (CopiesBoth before after) (MeetsOtherHeader before after)))
        (F.account files.old) (F.account files.new) }
{
    for _ in 0..TRIES {
        if copy_once(files)? {
            return Ok(true);
        }
    }
    Ok(false)
}

/// Copies the two files. Whether the WAL file was not begun anew meanwhile.
fn copy_once<F: FilesInUse>(files: &mut F) -> io::Result<bool>
    ensures { InCall (λ before after. IfOk result (λ fits. MatchBool fits
        (CopiesBoth before after) (MeetsOtherHeader before after)))
        (F.account files.old) (F.account files.new) }
{
    let before = files.header()?;
    files.copy_file()?;
    files.remove_wal()?;
    let has_log = before.is_some();
    if has_log && !files.copy_wal()? {
        return Ok(false);
    }
    Ok(files.header()? == before)
}

/// Copies an open file, with its mode, into another.
fn copy_open(mut from: File, mut to: &File) -> io::Result<()> {
    to.set_permissions(from.metadata()?.permissions())?;
    io::copy(&mut from, &mut to)?;
    Ok(())
}
