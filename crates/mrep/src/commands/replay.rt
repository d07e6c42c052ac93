//! `mrep replay`: connections read from files into a database.

ghost use Rattle.std.specs.Prelude.{◌≤◌, IfOk};
ghost use Rattle.sqlite_wal.specs.Files.{image_at};
ghost use Rattle.store.specs.Entering.{wanted_of};
ghost use Rattle.replica.specs.File.{OfHeld};
ghost use Rattle.replica.specs.Replay.{Replays};

use crate::database::open::{closed, opening, unopened_database};
use crate::report::console::Console;
use crate::report::failure::{Failure, MEMORY, of_system, write_failure};
use crate::report::status::{counted, status_after};
use crate::report::wanted::{Wanted, waited};
use binlog::Follow;
use clap::ArgMatches;
use files::{Input, is_log_file};
use formats::Shown;
use gtid::GtidSet;
use replica::{Capture, Config, Halt, Observer, Replayed, Until, read_some};
use sqlite::{File, FileFrom, Start};
use sqlite_disk::Unknown;
use std::alloc::Global;
use std::io;
use std::io::{Read, Write};
use watch::Watch;
use wire::LARGEST_PAYLOAD;

/// The server id of the replica. It is never sent: a replay sends nothing.
const SERVER_ID: u32 = 1;

const LOG_FILE: &str =
    "it is a binary log file, and no stream that a source has sent: mrep follow reads the log from the source";

/// Reads streams into a database, each as one connection, and prints how each ended. Returns the first of their
/// statuses that is not 0, or 0.
pub fn replay<W: Write, E: Write>(
    rt: &HostRuntime,
    given: &ArgMatches<'_>,
    console: &mut Console<W, E>,
) -> Result<u8, Failure>
    ensures { IfOk result (λ status. status ≤ MEMORY) }
{
    let streams = given.get_strs("STREAM").unwrap_or(&[]);
    replay_streams(rt, Wanted::of(rt.alloc(), given)?, streams, console)
}

/// All streams are opened and their first bytes are read before the database is opened.
fn replay_streams<W: Write, E: Write>(
    rt: &HostRuntime,
    wanted: Wanted<'_, '_>,
    names: &[&str],
    console: &mut Console<W, E>,
) -> Result<u8, Failure>
    ensures { IfOk result (λ status. status ≤ MEMORY) }
{
    let (done, stopped) = replay_reported(rt, &wanted, names, console)?;
    let Replayed {
        ends,
        read,
        closed: files,
    } = done;
    let read = match read {
        Err(Halt::Reader(cause)) => {
            write_failure(stopped, &mut console.err);
            Err(unread(rt.alloc(), names, ends.len(), cause))
        }
        Ok(()) | Err(Halt::Observer) => stopped,
    };
    let done = read.and(closed(rt.alloc(), wanted.db, files));
    status_after(counted(&ends, &done), done, &mut console.err)
}

/// Reads the streams, with the reports that are wanted. Returns what that has done, and whether it was stopped for a report, or
/// memory ran out for what is waited for.
fn replay_reported<W: Write, E: Write>(
    rt: &HostRuntime,
    wanted: &Wanted<'_, '_>,
    names: &[&str],
    console: &mut Console<W, E>,
) -> Result<(Replayed<File>, Result<(), Failure>), Failure> {
    note_log_files(rt, names, &mut console.err);
    let reading = Replaying::of(rt, wanted, names)?;
    let (pulse, reports) = wanted.reports(rt, reading.total, names, &mut console.err)?;
    let watch = Watch::new(
        wanted.source(rt, names, 0),
        &pulse,
        reports,
        &mut console.out,
        &mut console.err,
    );
    replay_watched(rt, wanted, reading, watch)
}

/// Says of each stream that is a file of the source's log, where a line of an end will say that it is no stream.
fn note_log_files<E: Write>(rt: &HostRuntime, names: &[&str], err: &mut E) {
    for name in names {
        if is_log_file(rt, name) {
            let _ = writeln!(err, "mrep: {}: {LOG_FILE}", Shown(name));
        }
    }
}

/// Reads the streams with an observer.
fn replay_watched<W: Write, E: Write>(
    rt: &HostRuntime,
    wanted: &Wanted<'_, '_>,
    reading: Replaying,
    watch: Watch<'_, W, E>,
) -> Result<(Replayed<File>, Result<(), Failure>), Failure> {
    let (done, watch) = reading.replay_until(rt, wanted.db, watch);
    let ((done, is_out_of_memory), mut watch) = wanted.unless_failed(done, watch)?;
    watch.note_missing();
    let stopped = wanted
        .stopped(rt.alloc(), watch.stop())
        .and(waited(is_out_of_memory));
    Ok((done, stopped))
}

/// What is read: the tables whose rows are kept, the settings, the streams, and the set that is waited for, if there is one.
#[derive(Drop)]
struct Replaying {
    only: Option<Follow>,
    config: Config,
    captures: Vec<Capture<Input>>,
    /// How many bytes the streams have, if that is known.
    total: Option<u64>,
    until: Option<GtidSet>,
}

impl Replaying {
    /// Opens the streams, and reads a byte of each.
    fn of(rt: &HostRuntime, wanted: &Wanted<'_, '_>, names: &[&str]) -> Result<Replaying, Failure> {
        let until = wanted.until(rt.alloc())?;
        let only = wanted.only(rt)?;
        let (captures, total) = open_streams(rt, names)?;
        let Ok(config) = Config::new(rt.alloc(), b"", b"", SERVER_ID, false, LARGEST_PAYLOAD) else {
            return Err(Failure::Memory);
        };
        Ok(Replaying {
            only,
            config,
            captures,
            total,
            until,
        })
    }

    /// Reads the streams, until all of a set is executed if there is one, and gives the observer back. Says whether memory ran
    /// out for what is waited for.
    fn replay_until<W: Observer>(
        self,
        rt: &HostRuntime,
        db: &str,
        mut observer: W,
    ) -> (Result<(Replayed<File>, bool), Failure>, W) {
        let Replaying {
            only,
            config,
            captures,
            until,
            ..
        } = self;
        let Some(set) = until else {
            let done = replay_in(
                rt,
                db,
                Unknown,
                only.as_ref(),
                &config,
                captures,
                &mut observer,
            );
            return (with_wait(done, false), observer);
        };
        let mut waiting = Until::new(rt.alloc(), set, observer);
        let done = replay_in(
            rt,
            db,
            Unknown,
            only.as_ref(),
            &config,
            captures,
            &mut waiting,
        );
        let done = with_wait(done, waiting.is_out_of_memory());
        (done, waiting.into_inner())
    }
}

/// What a replay has done, and whether memory ran out for what was waited for.
fn with_wait(
    done: Result<Replayed<File>, Failure>,
    is_out_of_memory: bool,
) -> Result<(Replayed<File>, bool), Failure> {
    Ok((done?, is_out_of_memory))
}

/// Reads captured connections into the database in a file.
fn replay_in<P: Start, R: Read + Drop, W: Observer>(
    rt: &HostRuntime,
    db: &str,
    start: P,
    only: Option<&Follow>,
    config: &Config,
    captures: Vec<Capture<R>>,
    observer: &mut W,
) -> Result<Replayed<FileFrom<P>>, Failure>
    ensures replays { IfOk result (λ done. OfHeld (wanted_of only.entry) (image_at P.Start)
        (λ names content. Replays R.Read.remaining config.now.limit names content
        captures.items done)) }
{
    let opening = opening(rt, db)?;
    match replica::replay(rt, db, start, only, config, captures, observer) {
        Ok(done) => Ok(done),
        Err(unopened) => Err(unopened_database(rt, db, opening, unopened)),
    }
}

/// The failure of the reading of a stream, the one after this many.
fn unread(alloc: Global, names: &[&str], ended: usize, cause: io::Error) -> Failure {
    match names.get(ended) {
        Some(name) => of_system(alloc, name, cause),
        None => Failure::Output(cause),
    }
}

/// Opens the streams, in order, reads the first byte of each, and adds up their sizes, if all are files.
fn open_streams(
    rt: &HostRuntime,
    names: &[&str],
) -> Result<(Vec<Capture<Input>>, Option<u64>), Failure> {
    let mut streams = Vec::with_capacity(rt.alloc(), names.len())?;
    let mut total = Some(0u64);
    for name in names {
        let (stream, is_file) = open_stream(rt, name)?;
        total = match total {
            Some(sum) if is_file => Some(sum.saturating_add(stream.size)),
            _ => None,
        };
        streams.push(stream)?;
    }
    Ok((streams, total))
}

/// Opens a stream and reads its first byte. Whether it is a file, whose size is known.
fn open_stream(rt: &HostRuntime, name: &str) -> Result<(Capture<Input>, bool), Failure> {
    match begin_stream(rt, name) {
        Ok(opened) => Ok(opened),
        Err(cause) => Err(of_system(rt.alloc(), name, cause)),
    }
}

fn begin_stream(rt: &HostRuntime, name: &str) -> io::Result<(Capture<Input>, bool)> {
    let mut reader = Input::open(rt, name)?;
    let (size, first) = begin_reading(&mut reader)?;
    let capture = Capture {
        first,
        reader,
        size: size.unwrap_or(0),
    };
    Ok((capture, size.is_some()))
}

/// The size of a stream, if it is a file, and its first byte, if it has one.
fn begin_reading(reader: &mut Input) -> io::Result<(Option<u64>, Option<u8>)> {
    let size = reader.size()?;
    let mut byte = [0u8; 1];
    let first = match read_some(reader, &mut byte)? {
        0 => None,
        _ => Some(byte[0]),
    };
    Ok((size, first))
}
