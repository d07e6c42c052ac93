//! Runs the command that the arguments name.

ghost use Rattle.std.specs.Prelude.{◌≡◌, ◌≤◌, IfOk, IfSome};

pub mod abandon;
pub mod account;
pub mod admit;
pub mod clear;
pub mod copy;
pub mod export_file;
pub mod follow;
pub mod listing;
pub mod load;
pub mod minus;
pub mod replay;
pub mod select;
pub mod sets;
pub mod show;
pub mod skip;
pub mod verify;

use crate::commands::abandon::abandon;
use crate::commands::admit::admit;
use crate::commands::clear::clear;
use crate::commands::copy::copy;
use crate::commands::export_file::export;
use crate::commands::follow::follow;
use crate::commands::listing::list;
use crate::commands::load::load;
use crate::commands::minus::minus;
use crate::commands::replay::replay;
use crate::commands::select::select;
use crate::commands::sets::{adopt, gtids, missing};
use crate::commands::show::{info, show, tables};
use crate::commands::skip::skip;
use crate::commands::verify::verify;
use crate::payloads::lines::Lines;
use crate::report::console::Console;
use crate::report::failure::{DONE, Failure, MEMORY, of_words, over_argument, write_failure};
use clap::{ArgMatches, Command};
use command_line::{
    escaped, grammar, input_again, no_command, parse_tables, spelled_out, tip, word,
    write_completions, write_help,
};
use files::{Found, INPUT};
use first_copy::write_query;
use rows::{note_absent, note_patterns};
use std::alloc::{AllocError, Global};
use std::convert::AsStr;
use std::io::{ErrorKind, Write};

/// Runs the command that the arguments name; the first argument is the program's own name. Returns the exit status: 0
/// done, 1 refused by the source or because of what the data says, 2 a mistake in the arguments, 3 a file, a socket,
/// the database or the output, 4 out of memory.
///
/// The lines of a command, help and the version go to `out`, which is flushed; everything else goes to `err`.
pub fn command<S: AsStr, O: Write, E: Write>(
    rt: &HostRuntime,
    words: &[S],
    console: &mut Console<O, E>,
) -> u8
    ensures { result ≤ MEMORY }
{
    match run(rt, words, console) {
        Ok(status) => status,
        Err(failure) => {
            if !matches!(failure, Failure::Output(_))
                && let Err(cause) = console.out.flush()
            {
                write_failure(Err(Failure::Output(cause)), &mut console.err);
            }
            let status = failure.status();
            write_failure(Err(failure), &mut console.err);
            status
        }
    }
}

fn run<S: AsStr, O: Write, E: Write>(
    rt: &HostRuntime,
    words: &[S],
    console: &mut Console<O, E>,
) -> Result<u8, Failure>
    ensures { IfOk result (λ status. status ≤ MEMORY) }
{
    let words = spelled_out(rt.alloc(), words)?;
    run_spelled_out(rt, words.as_slice(), console)
}

/// Runs the command that words name, whose options have their long names.
fn run_spelled_out<'a, O: Write, E: Write>(
    rt: &'a HostRuntime,
    words: &'a [&'a str],
    console: &mut Console<O, E>,
) -> Result<u8, Failure>
    ensures { IfOk result (λ status. status ≤ MEMORY) }
{
    let mut command = grammar(rt.alloc())?;
    match command.try_get_matches_from_mut(words) {
        Ok(matches) => run_matches(rt, &mut command, &matches, console),
        Err(error) => read_or_gone(answer(rt.alloc(), words, error, &mut console.out)),
    }
}

/// What printing has come to: where a reader of the output has gone, as `head` does, nothing more was wanted.
fn read_or_gone(done: Result<u8, Failure>) -> Result<u8, Failure>
    ensures { IfOk done (λ status. status ≤ MEMORY) → IfOk result (λ status. status ≤ MEMORY) }
{
    match done {
        Err(Failure::Output(cause)) if cause.kind() == ErrorKind::BrokenPipe => Ok(DONE),
        done => done,
    }
}

/// Whether a command does nothing but print.
fn only_prints(name: &str) -> bool {
    !matches!(
        name,
        "replay"
            | "follow"
            | "load"
            | "clear"
            | "abandon"
            | "adopt"
            | "admit"
            | "skip"
            | "copy"
            | "export"
            | "verify"
    )
}

/// Prints help or the version, where words ask for that; otherwise they are a mistake.
fn answer<S: AsStr, O: Write>(
    alloc: Global,
    words: &[S],
    error: clap::Error,
    out: &mut O,
) -> Result<u8, Failure>
    ensures { IfOk result (λ status. status ≤ MEMORY) }
{
    if error.use_stderr() {
        return Err(of_words(alloc, &escaped(alloc, words, error)?, tip(words)));
    }
    write_help(&error, out)?;
    Ok(DONE)
}

/// Runs the command of the matches.
fn run_matches<'a, O: Write, E: Write>(
    rt: &'a HostRuntime,
    command: &mut Command<'a>,
    matches: &ArgMatches<'a>,
    console: &mut Console<O, E>,
) -> Result<u8, Failure>
    ensures { IfOk result (λ status. status ≤ MEMORY) }
{
    let Some((name, given)) = matches.subcommand() else {
        return Err(mistake(rt.alloc(), no_command(command)));
    };
    if reads_input_again(given) {
        return Err(mistake(rt.alloc(), input_again(command)));
    }
    if !given.get_flag("feed-only") {
        note_patterns(given.get_strs("only").unwrap_or(&[]), &mut console.err);
    }
    let done = match run_named(rt, name, given, console) {
        Ok(Some(status)) => flushed(status, console),
        Ok(None) => Err(mistake(rt.alloc(), no_command(command))),
        Err(failure) => Err(failure),
    };
    if only_prints(name) {
        return read_or_gone(done);
    }
    done
}

/// The failure of a mistake in the arguments, whose text takes memory.
fn mistake(alloc: Global, found: Result<clap::Error, AllocError>) -> Failure {
    match found {
        Ok(error) => of_words(alloc, &error, None),
        Err(_) => Failure::Memory,
    }
}

/// Whether standard input is to be read as two streams.
fn reads_input_again(given: &ArgMatches<'_>) -> bool {
    let streams = given.get_strs("STREAM").unwrap_or(&[]);
    streams.iter().filter(|name| **name == INPUT).count() > 1
}

/// Runs the command of this name, if there is one.
fn run_named<'a, W: Write, E: Write>(
    rt: &'a HostRuntime,
    name: &str,
    given: &ArgMatches<'a>,
    console: &mut Console<W, E>,
) -> Result<Option<u8>, Failure>
    ensures { IfOk result (λ done. IfSome done (λ status. status ≤ MEMORY)) }
{
    let done = match name {
        "packets" => list(rt, word(given, "FILE"), Lines::Packets, &mut console.out),
        "events" => list(rt, word(given, "FILE"), Lines::Events, &mut console.out),
        "minus" => minus(rt, given, &mut console.out),
        "replay" => replay(rt, given, console),
        "follow" => follow(rt, given, console),
        "select" => select(rt, given, &mut console.out),
        "load" => load(rt, given, console),
        "clear" => clear(rt, given, console),
        "abandon" => abandon(rt, given, console),
        "show" | "tables" | "info" | "gtids" | "missing" => read(rt, name, given, console),
        "adopt" => adopt(rt, given, &mut console.out),
        "admit" => admit(rt, given, &mut console.out),
        "skip" => skip(rt, given, &mut console.out),
        "copy" => copy(rt, given),
        "export" => export(rt, given, &mut console.err),
        "verify" => verify(rt, given, console),
        "completions" => completions(given, &mut console.out),
        "columns" => columns(rt, given, &mut console.out),
        _ => return Ok(None),
    };
    Ok(Some(done?))
}

/// Prints the completions of a shell.
fn completions<W: Write>(given: &ArgMatches<'_>, out: &mut W) -> Result<u8, Failure>
    ensures { IfOk result (λ status. status ≡ DONE) }
{
    write_completions(word(given, "SHELL"), out)?;
    Ok(DONE)
}

/// Prints the query that a description of the columns is made by.
fn columns<W: Write>(rt: &HostRuntime, given: &ArgMatches<'_>, out: &mut W) -> Result<u8, Failure>
    ensures { IfOk result (λ status. status ≡ DONE) }
{
    let alloc = rt.alloc();
    let only = given.get_strs("only").unwrap_or(&[]);
    let only = over_argument(alloc, parse_tables(alloc, only))?;
    write_query(&only, out)?;
    Ok(DONE)
}

/// Runs the command of this name, which only reads a database, and reports if there is none.
fn read<W: Write, E: Write>(
    rt: &HostRuntime,
    name: &str,
    given: &ArgMatches<'_>,
    console: &mut Console<W, E>,
) -> Result<u8, Failure>
    ensures { IfOk result (λ status. status ≤ MEMORY) }
{
    let done = match name {
        "tables" => tables(rt, given, &mut console.out),
        "info" => info(rt, given, &mut console.out),
        "gtids" => gtids(rt, given, &mut console.out),
        "missing" => missing(rt, given, &mut console.out),
        _ => show(rt, given, console),
    };
    done?;
    note_if_absent(rt, word(given, "db"), console);
    Ok(DONE)
}

/// Reports if a command that only reads a database has found none.
pub fn note_if_absent<W: Write, E: Write>(rt: &HostRuntime, db: &str, console: &mut Console<W, E>) {
    if let Ok(Found::Nothing) = Found::under(rt, db) {
        let _ = console.out.flush();
        note_absent(db, &mut console.err);
    }
}

/// Flushes the output of a command that ends with this status. If that fails, a command with status 0 fails, and any
/// other keeps its status.
fn flushed<O: Write, E: Write>(status: u8, console: &mut Console<O, E>) -> Result<u8, Failure>
    ensures { status ≤ MEMORY → IfOk result (λ s. s ≤ MEMORY) }
{
    match console.out.flush() {
        Ok(()) => Ok(status),
        Err(cause) if status == DONE => Err(Failure::Output(cause)),
        Err(cause) => {
            write_failure(Err(Failure::Output(cause)), &mut console.err);
            Ok(status)
        }
    }
}
