//! The values that arguments stand for.

ghost use Rattle.std.specs.Prelude.{◌≡◌, ◌≤◌, IfOk, Ok};
ghost use Rattle.gtid.specs.Identifier.{Ids};
ghost use Rattle.gtid.specs.Text.{IsRead};
ghost use Rattle.hex.specs.Hex.{decode_of};
ghost use Rattle.command_line.specs.declared.arguments.ArgumentFault.TheVariants as variants;

use binlog::Follow;
use clap::ArgMatches;
use formats::{Encoding, Format, Shown, encoding_of, read_table, write_escaped, write_named};
use gtid::{Gtid, GtidFault, GtidSet};
use hex::FromHex;
use std::alloc::{AllocError, AllocFailed, Global};
use std::io;
use std::io::Write;

const NO_GTID: &str =
    "not a GTID: expected a hyphenated UUID, `:` and a number from 1 to 9223372036854775806";

/// What is said besides of a set that is given where a GTID is.
const ONE_GTID: &str = "one transaction is recorded; mrep adopt takes a set";

/// What is said besides of a set as `mysql` prints it.
const LINE_FEEDS: &str =
    "it has line feeds: mysql -Nre 'SELECT @@GLOBAL.gtid_executed' | tr -d '\\n' prints a set without";

const NO_TABLE: &str =
    "not a table: expected SCHEMA.TABLE, with `%` only before two hexadecimal digits";

const NO_SCHEMA: &str =
    "not a schema: expected its name, without `.`, and with `%` only before two hexadecimal digits";

const NO_DIGEST: &str = "not a SHA-1: expected 40 hexadecimal digits";

const NO_BYTES: &[u8] =
    b"mrep: --bytes needs --format json, or csv without --columns, or --changes\n";

const FEED_ONLY: &[u8] =
    b"mrep: --feed-only needs --changes FILE, a file on a disk: nothing else keeps the changes\n";

const NEW_FEED: &[u8] = b"mrep: --new-feed needs --feed-only\n";

const CHAIN: &[u8] = b"mrep: --chain needs --changes FILE, a file on a disk\n";

const MEMORY: &[u8] = b"mrep: out of memory\n";

const NO_COLUMNS: &[u8] = b"mrep: --format tsv and sql need --columns\n";

/// Why arguments are not what they should be.
#[derive(Drop)]
pub enum ArgumentFault<'a> {
    /// The argument with this name is not the text of a GTID set. Which byte is wrong, if one is, and whether the text has line
    /// feeds.
    Set {
        word: &'a str,
        cause: GtidFault,
        wrong: Option<u8>,
        has_line_feeds: bool,
    },
    /// The argument with this name is not a GTID. Whether it may be a set.
    Gtid {
        word: &'a str,
        may_be_set: bool,
    },
    /// This argument is not the name of a table.
    Table {
        word: &'a str,
    },
    /// This argument is not the name of a schema.
    Schema {
        word: &'a str,
    },
    /// The argument with this name is not a SHA-1.
    Digest {
        word: &'a str,
    },
    /// The argument of this option is not a number from 1 to the largest.
    Number {
        option: &'a str,
        word: &'a str,
        largest: u32,
    },
    /// A form of bytes is asked for, and the format has one form alone.
    Bytes,
    /// A format is asked for whose rows need names and types, and no description is given.
    Columns,
    /// No rows are to be kept, and the changes go to no file.
    FeedOnly,
    /// Another file of changes is to be begun, and rows are kept.
    NewFeed,
    /// The lines of commits are to have a chain, and go to no file.
    Chain,
    /// An allocation was refused.
    Memory,
}

impl ArgumentFault<'_> {
    /// Writes the message.
    pub fn write<E: Write>(&self, err: &mut E) -> io::Result<()> {
        let text = match self {
            ArgumentFault::Set {
                word,
                cause,
                wrong,
                has_line_feeds,
            } => return write_set(word, *cause, *wrong, *has_line_feeds, err),
            ArgumentFault::Gtid { word, may_be_set } => return write_gtid(word, *may_be_set, err),
            ArgumentFault::Table { word } => return write_named(word, &NO_TABLE, err),
            ArgumentFault::Schema { word } => return write_named(word, &NO_SCHEMA, err),
            ArgumentFault::Digest { word } => return write_named(word, &NO_DIGEST, err),
            ArgumentFault::Number {
                option,
                word,
                largest,
            } => {
                return writeln!(
                    err,
                    "mrep: {option}: {}: not a number from 1 to {largest}",
                    Shown(word)
                );
            }
            ArgumentFault::Bytes => NO_BYTES,
            ArgumentFault::Columns => NO_COLUMNS,
            ArgumentFault::FeedOnly => FEED_ONLY,
            ArgumentFault::NewFeed => NEW_FEED,
            ArgumentFault::Chain => CHAIN,
            ArgumentFault::Memory => MEMORY,
        };
        err.write_all(text)
    }
}

/// Writes why a text is not that of a set.
fn write_set<E: Write>(
    word: &str,
    cause: GtidFault,
    wrong: Option<u8>,
    has_line_feeds: bool,
    err: &mut E,
) -> io::Result<()> {
    match wrong {
        Some(byte) => write_wrong(word, cause, byte, err)?,
        None => write_named(word, &cause, err)?,
    }
    if has_line_feeds {
        return write_named(word, &LINE_FEEDS, err);
    }
    Ok(())
}

/// Writes why a text is not that of a set, and which byte is wrong.
fn write_wrong<E: Write>(word: &str, cause: GtidFault, wrong: u8, err: &mut E) -> io::Result<()> {
    write!(err, "mrep: {}: {cause}, where `", Shown(word))?;
    write_escaped(&[wrong], err)?;
    err.write_all(b"` stands\n")
}

/// Writes that a text is not that of a GTID.
fn write_gtid<E: Write>(word: &str, may_be_set: bool, err: &mut E) -> io::Result<()> {
    write_named(word, &NO_GTID, err)?;
    if may_be_set {
        return write_named(word, &ONE_GTID, err);
    }
    Ok(())
}

impl From<AllocError> for ArgumentFault<'_> {
    ghost from_gives = { λ _ fault. fault ≡ variants.Memory };

    fn from(_error: AllocError) -> Self {
        ArgumentFault::Memory
    }
}

impl<T: Drop> From<AllocFailed<T>> for ArgumentFault<'_> {
    ghost from_gives = { λ _ fault. fault ≡ variants.Memory };

    fn from(_error: AllocFailed<T>) -> Self {
        ArgumentFault::Memory
    }
}

/// The argument of this name, which is required.
pub fn word<'a>(given: &ArgMatches<'a>, name: &str) -> &'a str {
    given.get_str(name).unwrap_or("")
}

/// The set whose text this argument is.
pub fn parse_set<'a>(alloc: Global, word: &'a str, text: &str) -> Result<GtidSet, ArgumentFault<'a>>
    ensures { IfOk result (λ read. (ids : Ids) → IsRead text.now ids → read ≡ ids) }
{
    match GtidSet::parse(alloc, text) {
        Ok(set) => Ok(set),
        Err(GtidFault::Memory) => Err(ArgumentFault::Memory),
        Err(cause) => Err(set_fault(word, text, cause)),
    }
}

/// The fault of a text that is not that of a set.
fn set_fault<'a>(word: &'a str, text: &str, cause: GtidFault) -> ArgumentFault<'a> {
    let wrong = match cause {
        GtidFault::Text(at) => text.as_bytes().get(at).copied(),
        _ => None,
    };
    ArgumentFault::Set {
        word,
        cause,
        wrong,
        has_line_feeds: text.contains('\n') || text.contains("\\n"),
    }
}

/// A number from 1 to the largest, in decimal digits, as an option has it.
pub fn parse_number<'a>(
    option: &'a str,
    word: &'a str,
    largest: u32,
) -> Result<u32, ArgumentFault<'a>>
    ensures { IfOk result (λ n. (1 ≤ n) × (n ≤ largest)) }
{
    match word.parse::<u32>() {
        Ok(number) if number >= 1 && number <= largest && !word.starts_with('+') => Ok(number),
        _ => Err(ArgumentFault::Number {
            option,
            word,
            largest,
        }),
    }
}

/// The filter of the tables that these words name.
pub fn parse_tables<'a>(alloc: Global, words: &[&'a str]) -> Result<Follow, ArgumentFault<'a>> {
    let mut names = Vec::with_capacity(alloc, words.len())?;
    for word in words {
        names.push(parse_table(alloc, word)?)?;
    }
    match Follow::new(alloc, &names) {
        Ok(filter) => Ok(filter),
        Err(_) => Err(ArgumentFault::Memory),
    }
}

/// The table that a word names: its schema and itself.
pub fn parse_table<'a>(
    alloc: Global,
    word: &'a str,
) -> Result<(Vec<u8>, Vec<u8>), ArgumentFault<'a>> {
    match read_table(alloc, word)? {
        Some(name) => Ok(name),
        None => Err(ArgumentFault::Table { word }),
    }
}

/// The name of the schema that a word is, written as the schema in the name of a table is.
pub fn parse_schema<'a>(alloc: Global, word: &'a str) -> Result<Vec<u8>, ArgumentFault<'a>> {
    let table = format!(in alloc; "{word}.t")?;
    match read_table(alloc, table.as_str())? {
        Some((schema, _)) => Ok(schema),
        None => Err(ArgumentFault::Schema { word }),
    }
}

/// The GTID that the argument with this name is.
pub fn parse_gtid<'a>(word: &'a str, text: &str) -> Result<Gtid, ArgumentFault<'a>> {
    match Gtid::parse(text) {
        Some(gtid) => Ok(gtid),
        None => Err(ArgumentFault::Gtid {
            word,
            may_be_set: text.contains(':'),
        }),
    }
}

/// The SHA-1 whose 40 hexadecimal digits, of either case, the argument with this name is.
pub fn parse_digest<'a>(word: &'a str, text: &str) -> Result<[u8; 20], ArgumentFault<'a>>
    ensures { IfOk result (λ digest. decode_of text.now ≡ Ok digest) }
{
    match <[u8; 20] as FromHex>::from_hex(text) {
        Ok(digest) => Ok(digest),
        Err(_) => Err(ArgumentFault::Digest { word }),
    }
}

/// The form of bytes of a word, if it is one of the format.
pub fn parse_encoding<'a>(
    word: Option<&str>,
    format: Format,
    is_described: bool,
) -> Result<Encoding, ArgumentFault<'a>> {
    match encoding_of(word, format, is_described) {
        Some(encoding) => Ok(encoding),
        None => Err(ArgumentFault::Bytes),
    }
}
