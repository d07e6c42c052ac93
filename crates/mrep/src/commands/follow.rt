//! `mrep follow`: a source followed over a socket.

ghost use Rattle.std.specs.Prelude.{◌≤◌, ⊤, IfOk};
ghost use Rattle.sqlite_wal.specs.Files.{image_at};
ghost use Rattle.store.specs.Entering.{wanted_of, names_for};
ghost use Rattle.replica.specs.File.{OfHeld};
ghost use Rattle.replica.specs.FollowFile.{FollowsFile};

use crate::commands::account::{Address, Options, password_of, secret_of, user_of, warn};
use crate::database::open::{closed, opening, unopened_database};
use crate::report::console::Console;
use crate::report::failure::{
    Failure, FailureKind, MEMORY, named, of_system, over_argument, write_failure,
};
use crate::report::status::{counted, status_after};
use crate::report::wanted::{Wanted, waited};
use binlog::Follow;
use clap::ArgMatches;
use command_line::{parse_number, word};
use formats::Shown;
use gtid::GtidSet;
use replica::{
    Config, ConfigFault, Connect, Duplex, Ended, FollowedFile, Observer, Reason, Until,
    follow_file, unfinished_copy,
};
use sqlite::{FileFrom, Start};
use sqlite_disk::Unknown;
use std::alloc::Global;
use std::io;
use std::io::{ErrorKind, Write};
use std::net::TcpStream;
use watch::{Pulse, Reports, Socket, Watch};
use wire::LARGEST_PAYLOAD;

/// Why no connection has begun, as the status says it.
const NOT_OPENED: &str = "NotOpened";

const NOT_REACHED: &str = "NotReached";

/// The error of MySQL for an account or a password that it does not take.
const DENIED: u16 = 1045;

const OTHER_ACCOUNT: &str =
    "the account is given by --user, its password by --password-file; the source may know it for other hosts alone";

/// Follows a source into a database until the connection ends, prints how it ended, and returns the exit status. With a
/// filter the database keeps only the rows of the tables that it admits.
///
/// Faults are looked for in the arguments, the password file, the user name, the database and the socket, in this
/// order.
pub fn follow<W: Write, E: Write>(
    rt: &HostRuntime,
    given: &ArgMatches<'_>,
    console: &mut Console<W, E>,
) -> Result<u8, Failure>
    ensures { IfOk result (λ status. status ≤ MEMORY) }
{
    let options = Options::of(rt, given)?;
    let place = Address::of(rt, given, &options)?;
    follow_place(rt, given, &options, &place, console)
}

/// Follows the source at a place, as an account that arguments or options give.
fn follow_place<W: Write, E: Write>(
    rt: &HostRuntime,
    given: &ArgMatches<'_>,
    options: &Options,
    place: &Address,
    console: &mut Console<W, E>,
) -> Result<u8, Failure>
    ensures { IfOk result (λ status. status ≤ MEMORY) }
{
    let wanted = Wanted::of(rt.alloc(), given)?;
    let following = Following::of(rt, given, options, &wanted)?;
    let secret = secret_of(rt.alloc(), given, options)?;
    warn(rt, secret.as_str(), &mut console.err);
    let (pulse, reports) = wanted.reports(rt, None, &[secret.as_str()], &mut console.err)?;
    let host = Host {
        rt,
        name: place.host.as_str(),
        port: place.port,
        pulse: &pulse,
    };
    follow_host(host, &wanted, following, reports, console)
}

/// Follows the source at a host, and prints how the connection ended.
fn follow_host<W: Write, E: Write>(
    host: Host<'_, '_>,
    wanted: &Wanted<'_, '_>,
    following: Following,
    reports: Reports,
    console: &mut Console<W, E>,
) -> Result<u8, Failure>
    ensures { IfOk result (λ status. status ≤ MEMORY) }
{
    let Host {
        rt,
        name,
        port,
        pulse,
    } = host;
    let streams = [name];
    let watch = Watch::new(
        wanted.source(rt, &streams, port),
        pulse,
        reports,
        &mut console.out,
        &mut console.err,
    );
    let (followed, watch) = follow_until(host, wanted.db, following, watch);
    let (end, done) = match followed {
        Ok(followed) => concluded(rt.alloc(), wanted, name, followed, watch),
        Err(failure) => {
            watch.discard(wanted.feed_name());
            pulse.not_begun(rt, NOT_OPENED, &mut console.err);
            return Err(failure);
        }
    };
    match end {
        Ok(end) => {
            note_source(name, port, &end, &mut console.err);
            status_after(counted(&[end], &done), done, &mut console.err)
        }
        Err(failure) => {
            write_failure(done, &mut console.err);
            Err(failure)
        }
    }
}

/// Says what to look at where the source refuses the account, or what answers is no MySQL server.
fn note_source<E: Write>(name: &str, port: u16, end: &Ended, err: &mut E) {
    let name = Shown(name);
    let _ = match &end.reason {
        Reason::SourceError { code: DENIED, .. } => writeln!(err, "mrep: {name}: {OTHER_ACCOUNT}"),
        Reason::Wire(_) if end.at == 0 => {
            writeln!(err, "mrep: {name}: no MySQL server answers at port {port}")
        }
        _ => Ok(()),
    };
}

/// Prints how the connection to a source of this name ended. Returns that, or why there is no connection, and whether all else was
/// done.
fn concluded<W: Write, E: Write>(
    alloc: Global,
    wanted: &Wanted<'_, '_>,
    name: &str,
    followed: Followed,
    mut watch: Watch<'_, W, E>,
) -> (Result<Ended, Failure>, Result<(), Failure>) {
    let Followed {
        connection,
        closed,
        is_out_of_memory,
    } = followed;
    match connection {
        Ok((end, failure)) => {
            let printed = watch.report(1, &end, failure);
            watch.note_missing();
            let stopped = wanted
                .stopped(alloc, watch.stop())
                .and(waited(is_out_of_memory));
            (Ok(end), over_output(printed).and(stopped).and(closed))
        }
        Err(cause) => {
            watch.give_up();
            match wanted.stopped(alloc, watch.stop()) {
                Ok(()) => (Err(of_system(alloc, name, cause)), closed),
                Err(failure) => (Err(failure), closed),
            }
        }
    }
}

/// What was done with the output.
fn over_output(printed: io::Result<()>) -> Result<(), Failure> {
    printed?;
    Ok(())
}

/// What is followed: the tables whose rows are kept, the settings, and the set that is waited for, if there is one.
#[derive(Drop)]
struct Following {
    only: Option<Follow>,
    config: Config,
    until: Option<GtidSet>,
}

impl Following {
    fn of(
        rt: &HostRuntime,
        given: &ArgMatches<'_>,
        options: &Options,
        wanted: &Wanted<'_, '_>,
    ) -> Result<Following, Failure> {
        let until = wanted.until(rt.alloc())?;
        let server_id = parse_number("--server-id", word(given, "server-id"), u32::MAX);
        let server_id = over_argument(rt.alloc(), server_id)?;
        let only = wanted.only(rt)?;
        let config = settings(rt, given, options, server_id)?;
        Ok(Following {
            only,
            config,
            until,
        })
    }
}

/// The settings, with the account.
fn settings(
    rt: &HostRuntime,
    given: &ArgMatches<'_>,
    options: &Options,
    server_id: u32,
) -> Result<Config, Failure> {
    let user = user_of(rt, given, options)?;
    let password = password_of(rt, given, options)?;
    let once = given.get_flag("once");
    match Config::new(
        rt.alloc(),
        user.as_bytes(),
        &password,
        server_id,
        once,
        LARGEST_PAYLOAD,
    ) {
        Ok(config) => Ok(config),
        Err(ConfigFault::Memory) => Err(Failure::Memory),
        Err(cause) => Err(named(rt.alloc(), FailureKind::Usage, user.as_str(), &cause)),
    }
}

/// How following a source went.
#[derive(Drop)]
struct Followed {
    /// How the connection ended, and the cause of the last failure of its stream, if there was one; or why there is no
    /// connection.
    connection: io::Result<(Ended, Option<ErrorKind>)>,
    /// Whether the database was closed.
    closed: Result<(), Failure>,
    /// Whether memory ran out for what is waited for.
    is_out_of_memory: bool,
}

/// The host of a name: an IPv6 address may stand in brackets.
fn unbracketed(name: &str) -> &str {
    let Some(rest) = name.strip_prefix('[') else {
        return name;
    };
    match rest.strip_suffix(']') {
        Some(address) if address.contains(':') => address,
        _ => name,
    }
}

/// Where the source listens, and what the connection reports.
#[derive(Clone, Copy)]
struct Host<'r, 'a> {
    rt: &'r HostRuntime,
    name: &'a str,
    port: u16,
    pulse: &'r Pulse,
}

/// Nothing is specified of what a host gives.
impl<'r> Connect for Host<'r, '_> {
    type Stream = Socket<'r>;

    type Error = io::Error;

    ghost gives = { λ _ _ _. ⊤ };

    /// The source is not reached where a first copy is unfinished, or the database may not be used.
    fn connect(self, executed: &GtidSet) -> io::Result<Socket<'r>> {
        if unfinished_copy(executed).is_some() || self.pulse.is_refused() {
            return Err(io::ErrorKind::Other.into());
        }
        match TcpStream::connect(self.rt, (unbracketed(self.name), self.port)) {
            Ok(stream) => Ok(Socket::new(self.rt, stream, self.pulse)),
            Err(cause) => {
                self.pulse.note_end(NOT_REACHED);
                Err(cause)
            }
        }
    }
}

/// Follows a source that is reached so, into the database in a file.
fn follow_into<
    P: Start,
    T: Duplex + Drop,
    E: Drop,
    C: Connect<Stream = T, Error = E> + Drop,
    W: Observer,
>(
    rt: &HostRuntime,
    db: &str,
    start: P,
    only: Option<&Follow>,
    config: Config,
    connect: C,
    observer: &mut W,
) -> Result<FollowedFile<T, E, FileFrom<P>>, Failure>
    ensures follows { IfOk result (λ done. OfHeld (wanted_of only.entry) (image_at P.Start)
        (λ names content. FollowsFile
        (record { left = T.Read.remaining; written = T.Write.contents; failures = T.failures })
        (C.gives connect) config (names_for (wanted_of only.entry)) names content done)) }
{
    let opening = opening(rt, db)?;
    match follow_file(rt, db, start, only, config, connect, observer) {
        Ok(done) => Ok(done),
        Err(unopened) => Err(unopened_database(rt, db, opening, unopened)),
    }
}

/// Follows over a socket.
fn follow_over<W: Observer>(
    host: Host<'_, '_>,
    db: &str,
    only: Option<&Follow>,
    config: Config,
    observer: &mut W,
) -> Result<Followed, Failure> {
    let rt = host.rt;
    let FollowedFile {
        connection,
        closed: files,
    } = follow_into(rt, db, Unknown, only, config, host, observer)?;
    let connection = match connection {
        Ok((end, stream)) => Ok((end, stream.failure())),
        Err(cause) => Err(cause),
    };
    Ok(Followed {
        connection,
        closed: closed(rt.alloc(), db, files),
        is_out_of_memory: false,
    })
}

/// Follows over a socket, until all of a set is executed if there is one, and gives the observer back.
fn follow_until<W: Observer>(
    host: Host<'_, '_>,
    db: &str,
    following: Following,
    mut observer: W,
) -> (Result<Followed, Failure>, W) {
    let Following {
        only,
        config,
        until,
    } = following;
    let Some(set) = until else {
        let followed = follow_over(host, db, only.as_ref(), config, &mut observer);
        return (followed, observer);
    };
    let mut waiting = Until::new(host.rt.alloc(), set, observer);
    let mut followed = follow_over(host, db, only.as_ref(), config, &mut waiting);
    if let Ok(followed) = &mut followed {
        followed.is_out_of_memory = waiting.is_out_of_memory();
    }
    (followed, waiting.into_inner())
}
