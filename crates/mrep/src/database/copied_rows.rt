//! The file of a first copy.

use crate::database::description::read_with_digest;
use crate::report::failure::{Failure, of_copy, of_system, over_argument, over_file, unusable};
use clap::ArgMatches;
use command_line::{parse_digest, word};
use files::{INPUT, Input, KeptInput};
use first_copy::{CopiedRows, CopyFault, Summary, text_digest};
use std::alloc::Global;
use std::io;
use std::io::BufReader;
use std::rc::Rc;
use watch::{Metered, Pulse};

/// How many bytes are read at a time for the SHA-1.
const PIECE: usize = 1 << 16;

const TWICE: &str =
    "a copy is read twice, so it has to be in a file, or its SHA-1 is given for standard input";

const OTHER: &str = "its SHA-1 is not the one that is given";

/// The copy that a command is given, and the name of its description.
#[derive(Drop)]
pub struct CopyFile<'a> {
    pub name: &'a str,
    columns: &'a str,
    /// What standard input had, if that is the copy.
    kept: Option<KeptInput>,
}

impl<'a> CopyFile<'a> {
    /// The copy that the argument of this name has: a file, or standard input, which is kept beside the database. Where a SHA-1 is
    /// given, it has that one.
    pub fn of(
        rt: &HostRuntime,
        given: &ArgMatches<'a>,
        argument: &str,
    ) -> Result<CopyFile<'a>, Failure> {
        let alloc = rt.alloc();
        let (name, db) = (word(given, argument), word(given, "db"));
        let digest = match given.get_str("sha1") {
            Some(text) => Some(over_argument(alloc, parse_digest("--sha1", text))?),
            None => None,
        };
        if name == INPUT && digest.is_none() {
            return Err(unusable(alloc, name, TWICE));
        }
        let kept = if name == INPUT {
            Some(over_file(alloc, db, KeptInput::take(rt, db))?)
        } else {
            None
        };
        let columns = word(given, "columns");
        let file = CopyFile {
            name,
            columns,
            kept,
        };
        if let Some(digest) = digest {
            file.compare(rt, digest)?;
        }
        Ok(file)
    }

    /// Whether its SHA-1 is this one.
    fn compare(&self, rt: &HostRuntime, digest: [u8; 20]) -> Result<(), Failure> {
        let (mut input, _) = self.open(rt)?;
        let mut piece = vec![in rt.alloc(); 0; PIECE]?;
        let found = self.used(rt.alloc(), text_digest(&mut input, &mut piece))?;
        if found == digest {
            return Ok(());
        }
        Err(unusable(rt.alloc(), self.name, OTHER))
    }

    /// Reads the copy to its end, by the description. Returns how many bytes it has, too.
    pub fn summary(&self, rt: &HostRuntime) -> Result<(Summary, u64), Failure> {
        let (input, size) = self.open(rt)?;
        let alloc = rt.alloc();
        let reader = self.used(alloc, BufReader::new(alloc, input))?;
        let (description, digest) = read_with_digest(rt, self.columns)?;
        let description = Rc::new(alloc, description)?;
        let summary = self.read(alloc, Summary::of(alloc, description, &digest, reader))?;
        Ok((summary, size))
    }

    /// Its transactions, read once more.
    pub fn rows<'r>(
        &self,
        rt: &'r HostRuntime,
        summary: &Summary,
        pulse: &'r Pulse,
    ) -> Result<CopiedRows<BufReader<Metered<'r, Input>>>, Failure> {
        let (input, _) = self.open(rt)?;
        let alloc = rt.alloc();
        let reader = self.used(alloc, BufReader::new(alloc, Metered::new(rt, input, pulse)))?;
        self.read(alloc, summary.rows(alloc, reader))
    }

    /// Opens what has it. Returns how many bytes it has, too.
    fn open(&self, rt: &HostRuntime) -> Result<(Input, u64), Failure> {
        let (alloc, name) = (rt.alloc(), self.name);
        if let Some(kept) = &self.kept {
            let input = self.used(alloc, kept.input())?;
            return Ok((input, kept.size()));
        }
        let input = self.used(alloc, Input::open(rt, name))?;
        match self.used(alloc, input.size())? {
            Some(size) => Ok((input, size)),
            None => Err(unusable(alloc, name, TWICE)),
        }
    }

    /// What the system answered over it, whose failure names it.
    fn used<T: Drop>(&self, alloc: Global, done: io::Result<T>) -> Result<T, Failure> {
        match done {
            Ok(value) => Ok(value),
            Err(cause) => Err(of_system(alloc, self.name, cause)),
        }
    }

    /// What was read of it, whose failure names it.
    fn read<T: Drop>(&self, alloc: Global, read: Result<T, CopyFault>) -> Result<T, Failure> {
        match read {
            Ok(value) => Ok(value),
            Err(fault) => Err(of_copy(alloc, self.name, &fault)),
        }
    }
}
