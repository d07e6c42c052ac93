//! Why a command failed, apart from what its data says: an exit status and a message.
//!
//! The message is made where the failure is found. So a failure holds nothing of what it is about, and has one part that is
//! dropped. Where memory runs out for its message, memory is what failed.

ghost use Rattle.std.specs.Prelude.{◌≡◌, ◌≤◌, Ok, IfOk};
ghost use Rattle.mrep.specs.Failure.{IsCopyStatus, IsFileStatus, IsStatus, IsTold, IsWordsStatus, Tells, argument_status, database_status, description_status, kind_status, tables_status, unloadable_status};
ghost use Rattle.mrep.specs.declared.report.failure.Failure.TheVariants as variants;
ghost use Rattle.mrep.specs.declared.report.failure.FailureKind.TheVariants as kinds;

use clap::error::ErrorKind;
use columns::{DescriptionFault, LineFault};
use command_line::ArgumentFault;
use export::TablesFault;
use feed::SkipError;
use files::FileFault;
use first_copy::CopyFault;
use formats::{Quoted, Shown, write_name, write_named, write_table};
use gtid::GtidFault;
use messages::write_unloadable;
use replica::{NoMemory, QualifiedName, Unloadable};
use rows::{Misfit, RowError};
use std::alloc::{AllocError, AllocFailed, Global};
use std::fmt::Display;
use std::io;
use std::io::Write;
use store::{Damage, StoreFault};

/// Done.
pub const DONE: u8 = 0;
/// Refused by what the data says.
pub const REFUSED: u8 = 1;
/// A mistake in the arguments.
pub const USAGE: u8 = 2;
/// A file, a socket, the database or the output.
pub const FILES: u8 = 3;
/// Out of memory.
pub const MEMORY: u8 = 4;

/// The name of the first column of a description, as `mysql` prints it without `-N`.
const COLUMN: &[u8] = b"table_schema";

const HEAD: &str = "its first line has the names of the columns: run mysql with -BN";

const NO_TABLE_SEEN: &str =
    "it is empty: the account sees no such table, or has no right on it (GRANT SELECT)";

const OTHER_TABLES: &str = "it was made for other tables than this one";

/// What has failed, by which the exit status goes.
#[derive(Clone, Copy, PartialEq, Eq)]
pub enum FailureKind {
    /// The arguments, or the description of the columns.
    Usage,
    /// The data is refused.
    Refused,
    /// A row of the database does not fit the description of its columns.
    Misfit,
    /// A file, a host or the database.
    Files,
    /// Memory, for what the message names.
    Memory,
}

/// Why a command failed.
#[derive(Drop)]
pub enum Failure {
    /// An allocation was refused.
    Memory,
    /// The output could not be written.
    Output(io::Error),
    /// Anything else, with its message, which is a line or more.
    Told { kind: FailureKind, message: Vec<u8> },
}

impl FailureKind {
    /// The exit status.
    ///
    /// Clauses: as [`Failure::status`]
    fn status(self) -> u8
        ensures status { result ≡ kind_status self }
        ensures range { result ≤ MEMORY }
    {
        match self {
            FailureKind::Usage => USAGE,
            FailureKind::Refused | FailureKind::Misfit => REFUSED,
            FailureKind::Files => FILES,
            FailureKind::Memory => MEMORY,
        }
    }
}

/// Of a file, a host or the output.
///
/// Clauses: as [`database_kind`]
fn kind_of(cause: &io::Error) -> FailureKind
    ensures status { IsFileStatus cause.now (kind_status result) }
{
    if cause.kind() == io::ErrorKind::OutOfMemory {
        FailureKind::Memory
    } else {
        FailureKind::Files
    }
}

/// Of opening a store, or of reading its rows.
///
/// Clauses:
/// - `status`: the status of the kind by its cause
fn database_kind(cause: StoreFault) -> FailureKind
    ensures status { kind_status result ≡ database_status cause }
{
    match cause {
        StoreFault::Memory => FailureKind::Memory,
        StoreFault::NoSuchRow(_)
        | StoreFault::CountFull(_)
        | StoreFault::Database(_)
        | StoreFault::Damaged
        | StoreFault::Layout(_)
        | StoreFault::Broken
        | StoreFault::Follows => FailureKind::Files,
    }
}

/// Of a file that is no description of columns.
///
/// Clauses: as [`database_kind`]
fn description_kind(fault: DescriptionFault) -> FailureKind
    ensures status { kind_status result ≡ description_status fault.fault }
{
    match fault.fault {
        LineFault::Memory => FailureKind::Memory,
        _ => FailureKind::Usage,
    }
}

/// Of a file that is no first copy of tables, or cannot be read.
///
/// Clauses: as [`database_kind`]
fn copy_kind(fault: &CopyFault) -> FailureKind
    ensures status { IsCopyStatus fault.now (kind_status result) }
{
    match fault {
        CopyFault::Reader { error, .. } => kind_of(error),
        CopyFault::Memory | CopyFault::Executed(GtidFault::Memory) => FailureKind::Memory,
        _ => FailureKind::Refused,
    }
}

/// Of words that are no command line.
///
/// Clauses: as [`database_kind`]
fn words_kind(error: &clap::Error) -> FailureKind
    ensures status { IsWordsStatus error.now (kind_status result) }
{
    if error.kind() == ErrorKind::OutOfMemory {
        FailureKind::Memory
    } else {
        FailureKind::Usage
    }
}

/// Of an argument.
///
/// Clauses: as [`database_kind`]
fn argument_kind(fault: &ArgumentFault<'_>) -> FailureKind
    ensures status { kind_status result ≡ argument_status fault.now }
{
    match fault {
        ArgumentFault::Memory => FailureKind::Memory,
        _ => FailureKind::Usage,
    }
}

/// Of a description of which no tables are made.
///
/// Clauses: as [`database_kind`]
fn tables_kind(fault: &TablesFault) -> FailureKind
    ensures status { kind_status result ≡ tables_status fault.now }
{
    match fault {
        TablesFault::Memory => FailureKind::Memory,
        _ => FailureKind::Usage,
    }
}

/// Of a first copy that may not be loaded.
///
/// Clauses: as [`database_kind`]
fn unloadable_kind(why: &Unloadable) -> FailureKind
    ensures status { kind_status result ≡ unloadable_status why.now }
{
    match why {
        Unloadable::Failed(cause) => database_kind(*cause),
        _ => FailureKind::Refused,
    }
}

impl Failure {
    /// The exit status.
    ///
    /// Clauses:
    /// - `status`, `range`: 1 for data that is refused; 2 for a mistake in the arguments; 3 for a file, a host or the
    ///   database; 4 for memory
    pub fn status(&self) -> u8
        ensures status { IsStatus self.now result }
        ensures range { result ≤ MEMORY }
    {
        match self {
            Failure::Memory => MEMORY,
            Failure::Output(cause) => kind_of(cause).status(),
            Failure::Told { kind, .. } => kind.status(),
        }
    }

    /// Writes the message. A reader of the output that has gone is none.
    pub fn write<E: Write>(&self, err: &mut E) -> io::Result<()> {
        match self {
            Failure::Memory => err.write_all(b"mrep: out of memory\n"),
            Failure::Output(cause) if cause.kind() == io::ErrorKind::BrokenPipe => Ok(()),
            Failure::Output(cause) => write_named("output", cause, err),
            Failure::Told { message, .. } => err.write_all(message),
        }
    }
}

/// A failure of this kind, whose message has been written.
fn told(kind: FailureKind, message: Vec<u8>, written: io::Result<()>) -> Failure
    ensures { IsTold kind result }
{
    match written {
        Ok(()) => Failure::Told { kind, message },
        Err(_) => Failure::Memory,
    }
}

/// A failure of this kind: what it is about, and its cause.
pub fn named<C: Display>(alloc: Global, kind: FailureKind, name: &str, cause: &C) -> Failure
    ensures { IsTold kind result }
{
    let mut message = Vec::new(alloc);
    let written = write_named(name, cause, &mut message);
    told(kind, message, written)
}

/// The file of this name cannot be used, for this reason.
pub fn unusable(alloc: Global, name: &str, why: &str) -> Failure
    ensures { IsTold kinds.Files result }
{
    named(alloc, FailureKind::Files, name, &why)
}

/// The file or the host of this name could not be opened, read or written.
///
/// Clauses: as [`of_database`]
#[tactic(auto, using(crate::proofs::Told::tells))]
pub fn of_system(alloc: Global, name: &str, cause: io::Error) -> Failure
    ensures status { Tells (IsFileStatus cause) result }
{
    named(alloc, kind_of(&cause), name, &cause)
}

/// The database file of this name could not be opened, or the database failed.
///
/// Clauses:
/// - `status`: that of its cause, or it is `Failure::Memory`, which comes only where memory ran out for the message:
///   tested only
#[tactic(auto, using(crate::proofs::Told::tells))]
pub fn of_database(alloc: Global, name: &str, cause: StoreFault) -> Failure
    ensures status { Tells (λ status. status ≡ database_status cause) result }
{
    let mut message = Vec::new(alloc);
    let written = write_database(name, cause, &mut message);
    told(database_kind(cause), message, written)
}

fn write_database(name: &str, cause: StoreFault, message: &mut Vec<u8>) -> io::Result<()> {
    write_named(name, &cause, message)?;
    match cause {
        StoreFault::Follows => write_tables_of(name, message),
        _ => Ok(()),
    }
}

/// Writes how the tables are printed that a database was made for.
fn write_tables_of(name: &str, message: &mut Vec<u8>) -> io::Result<()> {
    writeln!(
        message,
        "mrep: {}: mrep tables --db {} prints which",
        Shown(name),
        Quoted(name)
    )
}

/// The database of this name was made for other tables than this one.
pub fn of_other_tables(alloc: Global, name: &str) -> Failure
    ensures { IsTold kinds.Files result }
{
    let mut message = Vec::new(alloc);
    let written = write_other_tables(name, &mut message);
    let files = FailureKind::Files;
    told(files, message, written)
}

fn write_other_tables(name: &str, message: &mut Vec<u8>) -> io::Result<()> {
    write_named(name, &OTHER_TABLES, message)?;
    write_tables_of(name, message)
}

/// The database file of this name follows a table by now that was to be added.
pub fn of_followed(alloc: Global, name: &str, table: &QualifiedName) -> Failure
    ensures { IsTold kinds.Files result }
{
    let mut message = Vec::new(alloc);
    let written = write_followed(name, table, &mut message);
    let files = FailureKind::Files;
    told(files, message, written)
}

fn write_followed(name: &str, table: &QualifiedName, message: &mut Vec<u8>) -> io::Result<()> {
    write!(message, "mrep: {}: it follows ", Shown(name))?;
    write_asked(&table.schema, &table.table, message)?;
    writeln!(
        message,
        " already: `mrep info` says which tables it follows"
    )
}

/// Writes a table, or all tables of a schema, as it is asked for.
pub fn write_asked<W: Write>(schema: &[u8], table: &[u8], out: &mut W) -> io::Result<()> {
    if table != b"*".as_slice() {
        return write_table(schema, table, out);
    }
    write_name(schema, out)?;
    out.write_all(b".*")
}

/// The tables of the database file of this name are damaged.
pub fn of_damage(alloc: Global, name: &str, damage: &Damage) -> Failure
    ensures { IsTold kinds.Files result }
{
    let fault = StoreFault::Damaged;
    let mut message = Vec::new(alloc);
    let written = writeln!(message, "mrep: {}: {fault}: {damage}", Shown(name));
    told(FailureKind::Files, message, written)
}

/// The words are no command line, and this is to be typed, if that is known.
///
/// Clauses: as [`of_database`]
#[tactic(auto, using(crate::proofs::Told::tells))]
pub fn of_words(alloc: Global, error: &clap::Error, tip: Option<&str>) -> Failure
    ensures status { Tells (IsWordsStatus error.now) result }
{
    let mut message = Vec::new(alloc);
    let written = write_words(error, tip, &mut message);
    told(words_kind(error), message, written)
}

fn write_words(error: &clap::Error, tip: Option<&str>, message: &mut Vec<u8>) -> io::Result<()> {
    write!(message, "{error}")?;
    match tip {
        Some(tip) => writeln!(message, "\nmrep: {tip}"),
        None => Ok(()),
    }
}

/// The value of an argument is none.
///
/// Clauses: as [`of_database`]
#[tactic(auto, using(crate::proofs::Told::tells))]
pub fn of_argument(alloc: Global, fault: ArgumentFault<'_>) -> Failure
    ensures status { Tells (λ status. status ≡ argument_status fault.entry) result }
{
    let mut message = Vec::new(alloc);
    let written = fault.write(&mut message);
    told(argument_kind(&fault), message, written)
}

/// What an argument stands for.
pub fn over_argument<'a, T: Drop>(
    alloc: Global,
    read: Result<T, ArgumentFault<'a>>,
) -> Result<T, Failure>
    ensures { IfOk result (λ value. read.entry ≡ Ok value) }
{
    match read {
        Ok(value) => Ok(value),
        Err(fault) => Err(of_argument(alloc, fault)),
    }
}

/// The file of this name, which has this text, is no description of columns.
///
/// Clauses: as [`of_database`]
#[tactic(auto, using(crate::proofs::Told::tells))]
pub fn of_description(alloc: Global, name: &str, text: &[u8], fault: DescriptionFault) -> Failure
    ensures status { Tells (λ status. status ≡ description_status fault.fault) result }
{
    let mut message = Vec::new(alloc);
    let written = write_description(name, text, fault, &mut message);
    told(description_kind(fault), message, written)
}

fn write_description(
    name: &str,
    text: &[u8],
    fault: DescriptionFault,
    message: &mut Vec<u8>,
) -> io::Result<()> {
    let shown = Shown(name);
    if text.is_empty() {
        return writeln!(message, "mrep: {shown}: {NO_TABLE_SEEN}");
    }
    writeln!(
        message,
        "mrep: {shown}: line {}: {}",
        fault.line, fault.fault
    )?;
    if has_head(text) {
        return writeln!(message, "mrep: {shown}: {HEAD}");
    }
    Ok(())
}

/// Whether the text of a description begins with the names of its columns, or with the line over them that `mysql` draws.
fn has_head(text: &[u8]) -> bool {
    let begins = match text.split_at_checked(COLUMN.len()) {
        Some((begin, _)) => begin.eq_ignore_ascii_case(COLUMN),
        None => false,
    };
    begins || text.starts_with(b"+-")
}

/// No tables are made of the description in the file of this name.
///
/// Clauses: as [`of_database`]
#[tactic(auto, using(crate::proofs::Told::tells))]
pub fn of_tables(alloc: Global, name: &str, fault: &TablesFault) -> Failure
    ensures status { Tells (λ status. status ≡ tables_status fault.now) result }
{
    if matches!(fault, TablesFault::Memory) {
        return Failure::Memory;
    }
    let mut message = Vec::new(alloc);
    let written = write_tables(name, fault, &mut message);
    told(tables_kind(fault), message, written)
}

fn write_tables(name: &str, fault: &TablesFault, message: &mut Vec<u8>) -> io::Result<()> {
    write!(message, "mrep: {}: ", Shown(name))?;
    fault.write(message)
}

/// The file of this name is no first copy of tables, or cannot be read.
///
/// Clauses: as [`of_database`]
#[tactic(auto, using(crate::proofs::Told::tells))]
pub fn of_copy(alloc: Global, name: &str, fault: &CopyFault) -> Failure
    ensures status { Tells (IsCopyStatus fault.now) result }
{
    named(alloc, copy_kind(fault), name, fault)
}

/// A first copy of tables may not be loaded into the database of this name.
///
/// Clauses: as [`of_database`]
#[tactic(auto, using(crate::proofs::Told::tells))]
pub fn of_unloadable(alloc: Global, name: &str, why: &Unloadable) -> Failure
    ensures status { Tells (λ status. status ≡ unloadable_status why.now) result }
{
    let mut message = Vec::new(alloc);
    let written = write_unloadable(name, why, &mut message);
    told(unloadable_kind(why), message, written)
}

/// A row of the database of this name does not fit the description of its columns.
pub fn of_misfit(alloc: Global, name: &str, misfit: &Misfit) -> Failure
    ensures { IsTold kinds.Misfit result }
{
    let mut message = Vec::new(alloc);
    let written = write_misfit(name, misfit, &mut message);
    told(FailureKind::Misfit, message, written)
}

fn write_misfit(name: &str, misfit: &Misfit, message: &mut Vec<u8>) -> io::Result<()> {
    write!(message, "mrep: {}: ", Shown(name))?;
    misfit.write(message)
}

/// The failure of the file of this name.
pub fn of_file(alloc: Global, name: &str, fault: FileFault) -> Failure {
    match fault {
        FileFault::Unusable(why) => unusable(alloc, name, why),
        FileFault::System(cause) => of_system(alloc, name, cause),
        FileFault::Memory => Failure::Memory,
    }
}

/// What was done with the file of this name, whose failure names it.
pub fn over_file<T: Drop>(
    alloc: Global,
    name: &str,
    done: Result<T, FileFault>,
) -> Result<T, Failure> {
    match done {
        Ok(value) => Ok(value),
        Err(fault) => Err(of_file(alloc, name, fault)),
    }
}

/// The failure of printing the rows of the database of this name.
pub fn of_row(alloc: Global, name: &str, error: RowError) -> Failure {
    match error {
        RowError::Output(cause) => Failure::Output(cause),
        RowError::Misfit(misfit) => of_misfit(alloc, name, &misfit),
    }
}

/// The failure of the change feed of this name to say that a transaction is skipped.
pub fn of_skip(alloc: Global, name: &str, error: SkipError) -> Failure {
    match error {
        SkipError::File(fault) => of_file(alloc, name, fault),
        SkipError::Output(RowError::Output(cause)) => of_system(alloc, name, cause),
        SkipError::Output(RowError::Misfit(misfit)) => of_misfit(alloc, name, &misfit),
    }
}

/// Writes the message of a failure, if there is one.
pub fn write_failure<E: Write>(done: Result<(), Failure>, err: &mut E) {
    if let Err(failure) = done {
        let _ = failure.write(err);
    }
}

impl From<io::Error> for Failure {
    ghost from_gives = { λ cause failure. failure ≡ variants.Output cause };

    fn from(cause: io::Error) -> Self {
        Failure::Output(cause)
    }
}

impl From<AllocError> for Failure {
    ghost from_gives = { λ _ failure. failure ≡ variants.Memory };

    fn from(_error: AllocError) -> Self {
        Failure::Memory
    }
}

impl From<NoMemory> for Failure {
    ghost from_gives = { λ _ failure. failure ≡ variants.Memory };

    fn from(_error: NoMemory) -> Self {
        Failure::Memory
    }
}

impl<T: Drop> From<AllocFailed<T>> for Failure {
    ghost from_gives = { λ _ failure. failure ≡ variants.Memory };

    fn from(_error: AllocFailed<T>) -> Self {
        Failure::Memory
    }
}
