//! What a change feed says of a transaction that is skipped.

use crate::change_feed::{Feed, FeedEntry};
use crate::stamps::Stamps;
use files::FileFault;
use gtid::Gtid;
use rows::RowError;
use std::alloc::Global;
use std::io;

/// The file of a feed, which is opened once the database is.
#[derive(Clone, Copy)]
pub struct SkipFeed<'a> {
    pub rt: &'a HostRuntime,
    /// Its name.
    pub name: &'a str,
    /// The name of the database.
    pub db: &'a str,
    /// Whether the lines of commits have a chain.
    pub is_chained: bool,
}

/// A feed that has said that a transaction is to be skipped.
#[derive(Drop)]
pub struct Skipping {
    feed: Feed,
    stamps: Stamps,
    gtid: Gtid,
}

/// Why a feed does not say that a transaction is skipped.
#[derive(Drop)]
pub enum SkipError {
    /// Its file cannot be used.
    File(FileFault),
    /// It could not be written.
    Output(RowError),
}

impl SkipFeed<'_> {
    /// Writes the executed set, so that no changes of the transaction count that were written before, and that it is to be
    /// skipped.
    pub fn begin(self, alloc: Global, executed: &str, gtid: Gtid) -> Result<Skipping, SkipError> {
        let SkipFeed {
            rt,
            name,
            db,
            is_chained,
        } = self;
        let feed = match Feed::to_file(rt, name, db, &[], None, is_chained) {
            Ok(feed) => feed,
            Err(fault) => return Err(SkipError::File(fault)),
        };
        let mut skipping = Skipping {
            feed,
            stamps: Stamps::new(alloc),
            gtid,
        };
        skipping.put(FeedEntry::Opened(executed))?;
        skipping.put(FeedEntry::Skipped(gtid))?;
        Ok(skipping)
    }
}

impl Skipping {
    /// Writes whether it was recorded, if that is known.
    pub fn end(&mut self, is_recorded: Option<bool>) -> Result<(), SkipError> {
        let gtid = self.gtid;
        match is_recorded {
            Some(true) => self.put(FeedEntry::Committed(gtid, 0)),
            Some(false) => self.put(FeedEntry::RolledBack(gtid)),
            None => Ok(()),
        }
    }

    fn put(&mut self, entry: FeedEntry<'_>) -> Result<(), SkipError> {
        match self.feed.write(entry, &self.stamps, None, &mut io::sink()) {
            Ok(()) => Ok(()),
            Err(error) => Err(SkipError::Output(error)),
        }
    }
}
