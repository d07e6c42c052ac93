//! `mrep skip`: a GTID as executed, without changes.

ghost use Rattle.std.specs.Prelude.{◌≡◌, ◌≤◌, [], ◌∷◌, map, None, IfOk};
ghost use Rattle.std.specs.FinSet as set;
ghost use Rattle.sqlite_wal.specs.Files.{image_at};
ghost use Rattle.gather.specs.Given.{listed};
ghost use Rattle.gather.specs.View.{delivery_value};
ghost use Rattle.replica.specs.ChangeFile.{ChangesFile};
ghost use Rattle.replica.specs.File.{OfHeld};

use crate::commands::clear::failure_of;
use crate::database::open::{closed, opening, unopened_database};
use crate::report::failure::{
    DONE, Failure, MEMORY, of_argument, of_database, of_skip, over_argument, unusable,
};
use clap::ArgMatches;
use command_line::{ArgumentFault, parse_gtid, word};
use feed::SkipFeed;
use gather::{Changes, Delivery};
use gtid::{Gtid, GtidSet};
use messages::UNFINISHED;
use replica::{ChangeEnd, ChangedFile, Observer, change_file, is_mark};
use sqlite::{FileFrom, Start};
use sqlite_disk::Unknown;
use std::alloc::{AllocError, Global};
use std::collections::VecDeque;
use std::convert::Infallible;
use std::io::Write;
use watch::{SkipStop, SkipWatch};

const MARK: &str = "it says how far a first copy has come, and load or abandon records it";

/// Records a GTID as executed, without changes, and prints whether it was new.
pub fn skip<'a, W: Write>(
    rt: &'a HostRuntime,
    given: &ArgMatches<'a>,
    out: &mut W,
) -> Result<u8, Failure>
    ensures { IfOk result (λ status. status ≤ MEMORY) }
{
    let name = word(given, "G");
    let gtid = over_argument(rt.alloc(), parse_gtid("G", name))?;
    if is_mark(gtid) {
        return Err(unusable(rt.alloc(), name, MARK));
    }
    let feed = skip_feed(rt, given);
    if feed.is_none() && given.get_flag("chain") {
        return Err(of_argument(rt.alloc(), ArgumentFault::Chain));
    }
    if skip_in(rt, word(given, "db"), gtid, feed)? {
        writeln!(out, "Done")?;
    } else {
        writeln!(out, "Repeat")?;
    }
    Ok(DONE)
}

/// Records a GTID as executed in the database in a file, and says so in the change feed. Returns whether it was new.
fn skip_in(
    rt: &HostRuntime,
    db: &str,
    gtid: Gtid,
    feed: Option<SkipFeed<'_>>,
) -> Result<bool, Failure> {
    let mut watch = SkipWatch::new(rt.alloc(), feed);
    let ChangedFile {
        applied,
        end,
        closed: files,
    } = record(rt, db, Unknown, gtid, &mut watch)?;
    let alloc = rt.alloc();
    let fed = fed(alloc, db, feed, watch.stop());
    fed.and(outcome(alloc, db, end))
        .and(closed(alloc, db, files))?;
    Ok(applied > 0)
}

/// Whether no first copy is unfinished, and the change feed was written, if there is one.
fn fed(
    alloc: Global,
    db: &str,
    feed: Option<SkipFeed<'_>>,
    stop: Option<SkipStop>,
) -> Result<(), Failure> {
    match (feed, stop) {
        (_, Some(SkipStop::Unfinished)) => Err(unusable(alloc, db, UNFINISHED)),
        (Some(feed), Some(SkipStop::Feed(error))) => Err(of_skip(alloc, feed.name, error)),
        _ => Ok(()),
    }
}

/// The change feed, if one is asked for.
fn skip_feed<'a>(rt: &'a HostRuntime, given: &ArgMatches<'a>) -> Option<SkipFeed<'a>> {
    let name = given.get_str("changes")?;
    Some(SkipFeed {
        rt,
        name,
        db: word(given, "db"),
        is_chained: given.get_flag("chain"),
    })
}

/// A transaction of this GTID, without changes.
fn without_changes(alloc: Global, gtid: Gtid) -> Result<VecDeque<Delivery>, AllocError>
    ensures listed { IfOk result (λ list. map delivery_value list.items ≡ record {
      source = gtid.source;
      number = gtid.number;
      changes = [];
    } ∷ []) }
{
    let mut list = VecDeque::new(alloc);
    list.push_back(Delivery {
        gtid,
        changes: Changes::new(alloc),
    })?;
    Ok(list)
}

/// Applies a transaction without changes to the database in a file, which is opened with its own filter.
pub fn record<P: Start, W: Observer>(
    rt: &HostRuntime,
    db: &str,
    start: P,
    gtid: Gtid,
    observer: &mut W,
) -> Result<ChangedFile<Infallible, FileFrom<P>>, Failure>
    ensures records { IfOk result (λ done. OfHeld None (image_at P.Start) (λ names content.
        ChangesFile (listed (record { source = gtid.source; number = gtid.number; changes = [] }
        ∷ [])) names content set.empty done)) }
{
    let list = without_changes(rt.alloc(), gtid)?;
    let none = GtidSet::new(rt.alloc());
    let opening = opening(rt, db)?;
    match change_file(rt, db, start, None, &none, list, observer) {
        Ok(done) => Ok(done),
        Err(unopened) => Err(unopened_database(rt, db, opening, unopened)),
    }
}

/// What the end of it comes to.
pub fn outcome(alloc: Global, db: &str, end: ChangeEnd<Infallible>) -> Result<(), Failure> {
    match end {
        ChangeEnd::AllGiven => Ok(()),
        ChangeEnd::NotGiven(never) => match never {},
        ChangeEnd::Stopped(reason) => Err(failure_of(alloc, db, reason)),
        ChangeEnd::TooMany => Err(Failure::Memory),
        ChangeEnd::NotAdopted(cause) => Err(of_database(alloc, db, cause)),
    }
}
