//! The commands and their arguments, as a table.

use clap::{Arg, ArgAction, Command};
use formats::{ENCODINGS, FORMATS};
use std::alloc::{AllocError, Global};

/// The version that `mrep -V` prints.
const VERSION: &str = "0.1.0";

/// What `mrep --version` prints: the version, the revision, the layouts of databases, and the identity of the toolchain, as
/// `rt version` prints it. The words after `revision` stand in the program as they do here, and `make` puts the revision
/// instead of them, since a program whose text changed with each revision would be proved with each; and `proved with`
/// instead of `compiled by` once it is proved.
const LONG_VERSION: &str =
    "0.1.0\nrevision unknown: it is stated by `make` in a git clone.\nlayout 2; a database of layout 1 is migrated\ncompiled by rattle-kit-13f logic dac8208d650f15bf";

/// The shells that `mrep completions` knows.
const SHELLS: [&str; 3] = ["bash", "zsh", "fish"];

/// The words of `--format` of `mrep info`.
const TEXT_OR_JSON: [&str; 2] = ["text", "json"];

/// The options by which `mrep admit` has a copy instead of names of tables.
const COPY_OPTIONS: [&str; 3] = ["copy", "columns", "sha1"];

/// How an argument is given.
#[derive(Clone, Copy)]
pub enum Kind {
    /// A word.
    Word,
    /// A word that is one of these.
    WordOf(&'static [&'static str]),
    /// One word or more.
    Words,
    /// One word or more, or options of these names instead.
    WordsOr(&'static [&'static str]),
    /// A required option with a value of this name.
    Needed(&'static str),
    /// A required option with a value of this name, which may begin with a hyphen.
    NeededText(&'static str),
    /// An option with a value of this name, which may begin with a hyphen.
    Text(&'static str),
    /// An option with a value of the first name, which may begin with a hyphen, that is given only with the option of the second one.
    TextWith(&'static str, &'static str),
    /// An option with a value of this name, which may be repeated.
    Repeated(&'static str),
    /// An option with a value of this name, which is one of these words.
    OneOf(&'static str, &'static [&'static str]),
    /// A flag.
    Flag,
}

impl Kind {
    /// Whether the argument has to be there.
    fn is_required(self) -> bool {
        matches!(
            self,
            Kind::Word | Kind::WordOf(_) | Kind::Words | Kind::Needed(_) | Kind::NeededText(_)
        )
    }

    /// Whether its value may begin with a hyphen.
    fn may_be_hyphenated(self) -> bool {
        matches!(
            self,
            Kind::NeededText(_) | Kind::Text(_) | Kind::TextWith(_, _)
        )
    }

    /// The name of the value, of an option that has one.
    pub fn value(self) -> Option<&'static str> {
        match self {
            Kind::Needed(value)
            | Kind::NeededText(value)
            | Kind::Text(value)
            | Kind::TextWith(value, _)
            | Kind::Repeated(value)
            | Kind::OneOf(value, _) => Some(value),
            Kind::Word | Kind::WordOf(_) | Kind::Words | Kind::WordsOr(_) | Kind::Flag => None,
        }
    }

    /// The words of which it is one, and none where it may be any.
    pub fn words(self) -> &'static [&'static str] {
        match self {
            Kind::WordOf(words) | Kind::OneOf(_, words) => words,
            _ => &[],
        }
    }

    /// Whether it is given after its name.
    pub fn is_option(self) -> bool {
        !matches!(
            self,
            Kind::Word | Kind::WordOf(_) | Kind::Words | Kind::WordsOr(_)
        )
    }

    /// Whether it may be given more than once.
    pub fn is_repeated(self) -> bool {
        matches!(self, Kind::Words | Kind::WordsOr(_) | Kind::Repeated(_))
    }

    /// What is done with its values.
    fn action(self) -> ArgAction {
        match self {
            Kind::Words | Kind::WordsOr(_) | Kind::Repeated(_) => ArgAction::Append,
            Kind::Flag => ArgAction::SetTrue,
            _ => ArgAction::Set,
        }
    }
}

/// An argument: its name, how it is given, and its help.
#[derive(Clone, Copy)]
pub struct Argument(pub &'static str, pub Kind, pub &'static str);

/// A command: its name, its help, its arguments in the order of the help, and examples.
pub struct CommandRow(
    pub &'static str,
    pub &'static str,
    pub &'static [Argument],
    pub &'static str,
);

const FILE: Argument = Argument(
    "FILE",
    Kind::Word,
    "A file with a stream of packets, or `-` for standard input",
);

const SET: Argument = Argument("SET", Kind::Word, "A GTID set");

/// The database of the commands that make it.
const DB: Argument = Argument(
    "db",
    Kind::NeededText("F"),
    "The database file; a new one is made if it does not exist",
);

const PROGRESS: Argument = Argument(
    "progress",
    Kind::Flag,
    "Report on standard error how many bytes have been read and how many transactions applied, at most once a second",
);

const CHANGES: Argument = Argument(
    "changes",
    Kind::Text("FILE"),
    "Write each transaction as JSON lines to the end of this file, or to standard output for `-`",
);

/// The form of bytes in the lines of changes.
const BYTES: Argument = Argument(
    "bytes",
    Kind::OneOf("FORM", &ENCODINGS),
    "Write bytes in JSON lines as text where they are UTF-8, as hexadecimal digits or as base64. Without it: hex, and with --columns base64",
);

/// That the lines of commits have a chain.
const CHAIN: Argument = Argument(
    "chain",
    Kind::Flag,
    "End each line of a commit in the file of --changes with the SHA-256 of what stands before it and of the one before, which shows later changes of the file",
);

/// The description of the columns.
const COLUMNS: Argument = Argument(
    "columns",
    Kind::Text("FILE"),
    "The description of the columns, as the query of `mrep columns` gives it: rows have names and MySQL's types",
);

/// The description of the columns, of the commands that read changes.
const CHANGE_COLUMNS: Argument = Argument(
    "columns",
    Kind::Text("FILE"),
    "The description of the columns, as the query of `mrep columns` gives it: rows in the JSON lines and in messages have names and MySQL's types",
);

/// The tables whose rows are kept.
const ONLY: Argument = Argument(
    "only",
    Kind::Repeated("SCHEMA.TABLE"),
    "Keep only the rows of this table; may be repeated. Without it: of the tables that the database was made for, or of all tables for a new database",
);

/// That no rows are kept.
const FEED_ONLY: Argument = Argument(
    "feed-only",
    Kind::Flag,
    "Keep no rows, for a database that is new or was made so: their changes go to the file of --changes, and the database has what is executed. SCHEMA.* in --only means all tables of a schema",
);

/// That another file of changes is begun.
const NEW_FEED: Argument = Argument(
    "new-feed",
    Kind::Flag,
    "With --feed-only, begin a new file of changes where the database has executed something: the files in order are the feed",
);

/// The file of the status.
const STATUS: Argument = Argument(
    "status",
    Kind::Text("FILE"),
    "Replace this file, at most once a second and at each ending, by how it stands, in Prometheus' text form",
);

/// The set at which reading ends.
const UNTIL: Argument = Argument(
    "until",
    Kind::Text("SET"),
    "End with status 0 as soon as all of this GTID set is executed, and apply nothing after that",
);

/// The commands over streams and sets, without a database.
static LISTING: [CommandRow; 3] = [
    CommandRow(
        "packets",
        "List the payloads of a stream of packets: offset, sequence id, length",
        &[FILE],
        "Examples:\n  mrep packets capture.bin\n  zcat capture.bin.gz | mrep packets -",
    ),
    CommandRow(
        "events",
        "List the events of a stream of packets: offset, sequence id, type, size, kind",
        &[FILE],
        "Example, of what follows the opening of a capture:\n  tail -c +101 capture.bin | mrep events -",
    ),
    CommandRow(
        "minus",
        "Print a GTID set without the members of another",
        &[
            Argument("X", Kind::Word, "A GTID set"),
            Argument("Y", Kind::Word, "The GTID set to subtract"),
        ],
        "Example:\n  mrep minus 3e11fa47-71ca-11e1-9e33-c80aa9429562:1-5 3e11fa47-71ca-11e1-9e33-c80aa9429562:2:4",
    ),
];

/// The command that reads streams.
static REPLAYING: [CommandRow; 1] = [CommandRow(
    "replay",
    "Read streams, each as one connection, apply their transactions to a database, and print how each ended",
    &[
        DB,
        PROGRESS,
        CHANGES,
        CHANGE_COLUMNS,
        BYTES,
        CHAIN,
        ONLY,
        FEED_ONLY,
        NEW_FEED,
        STATUS,
        UNTIL,
        Argument(
            "STREAM",
            Kind::Words,
            "A file with the bytes that a source sent on one connection, or `-` for standard input",
        ),
    ],
    "Examples:\n  mrep replay --db F.db --only shop.items capture.bin\n  zcat capture.bin.gz | mrep replay --db F.db --changes feed.json --bytes utf8 -",
)];

/// The command that reads a source.
static FOLLOWING: [CommandRow; 1] = [CommandRow(
    "follow",
    "Follow a source over a socket, apply its transactions to a database, and print how the connection ended",
    &[
        DB,
        Argument(
            "host",
            Kind::Text("H"),
            "The source's host name or address; an IPv6 address may stand in brackets. Also -h H. Without it: host of the option file, or MYSQL_HOST",
        ),
        Argument(
            "port",
            Kind::Text("P"),
            "The source's port, from 1 to 65535. Also -P P. Without it: port of the option file, MYSQL_TCP_PORT, or 3306",
        ),
        Argument(
            "user",
            Kind::Text("U"),
            "The name of the replication account. Also -u U. Without it: user of the option file",
        ),
        Argument(
            "password-file",
            Kind::Text("W"),
            "The file with the password, or `-` for standard input; one line feed at its end is ignored. Without it: password of the option file, or MYSQL_PWD",
        ),
        Argument(
            "defaults-file",
            Kind::Text("FILE"),
            "The option file, of which the sections [client] and [mrep] are read. Without it: ~/.my.cnf, if it is there",
        ),
        Argument(
            "server-id",
            Kind::Needed("I"),
            "The server id of the replica, from 1 to 4294967295",
        ),
        Argument(
            "once",
            Kind::Flag,
            "End at the end of the source's log instead of waiting for more events",
        ),
        PROGRESS,
        CHANGES,
        CHANGE_COLUMNS,
        BYTES,
        CHAIN,
        ONLY,
        FEED_ONLY,
        NEW_FEED,
        STATUS,
        UNTIL,
    ],
    "Example:\n  mrep follow --db F.db --host db1 --user repl --password-file W --server-id 7 --only shop.items",
)];

/// The commands about rows.
static SHOWING: [CommandRow; 3] = [
    CommandRow(
        "show",
        "Print the rows of a database: table, count, cells",
        &[
            DB,
            Argument(
                "only",
                Kind::Repeated("SCHEMA.TABLE"),
                "Print only the rows of this table; may be repeated",
            ),
            Argument(
                "format",
                Kind::OneOf("FORMAT", &FORMATS),
                "Print lines of text, CSV records or JSON objects; with --columns also lines as the `mysql` client prints them (tsv) or INSERT statements (sql). Without it: text",
            ),
            COLUMNS,
            Argument(
                "bytes",
                Kind::OneOf("FORM", &ENCODINGS),
                "Print bytes in CSV and JSON as text where they are UTF-8, as hexadecimal digits or as base64. Without it: hex. With --columns in JSON alone, and without it: base64",
            ),
        ],
        "Examples:\n  mrep show --db F.db --only shop.items --format json --bytes utf8\n  mrep show --db F.db --only shop.items --columns shop.columns --format tsv",
    ),
    CommandRow(
        "columns",
        "Print the query that describes the columns of tables, for the `mysql` client",
        &[Argument(
            "only",
            Kind::Repeated("SCHEMA.TABLE"),
            "Describe this table; may be repeated. Without it: all tables but the server's own",
        )],
        "Example:\n  mysql -h db1 -u me -p -BN -e \"$(mrep columns --only shop.items)\" > shop.columns",
    ),
    CommandRow(
        "verify",
        "Compare the rows of a table with those that the `mysql` client has printed, and print those that one side lacks",
        &[
            DB,
            Argument(
                "columns",
                Kind::NeededText("FILE"),
                "The description of the columns, as the query of `mrep columns` gives it",
            ),
            Argument("SCHEMA.TABLE", Kind::Word, "The table"),
            Argument(
                "ROWS",
                Kind::Word,
                "A file with the rows, in any order, as `show --format tsv` prints them, or `-` for standard input",
            ),
        ],
        "Example:\n  mysql -h db1 -u me -p -BN --binary-as-hex --default-character-set=utf8mb4 --init-command=\"SET sql_mode='', time_zone='+00:00'\" -e 'SELECT * FROM shop.items' | mrep verify --db F.db --columns shop.columns shop.items -",
    ),
];

/// The commands that print what is known of a database.
static KNOWN: [CommandRow; 4] = [
    CommandRow(
        "tables",
        "Print the tables that a database was made for, and how many rows of each it has",
        &[DB],
        "Example:\n  mrep tables --db F.db",
    ),
    CommandRow(
        "info",
        "Print what is known of a database: its executed set, its tables with their rows, and the sizes of its files",
        &[
            DB,
            Argument(
                "format",
                Kind::OneOf("FORMAT", &TEXT_OR_JSON),
                "How it is printed",
            ),
        ],
        "Example:\n  mrep info --db F.db --format json",
    ),
    CommandRow(
        "gtids",
        "Print the executed GTID set of a database",
        &[DB],
        "Example:\n  mrep gtids --db F.db",
    ),
    CommandRow(
        "missing",
        "Print the part of a GTID set that is not in the executed set of a database",
        &[DB, SET],
        "Example:\n  mrep missing --db F.db 3e11fa47-71ca-11e1-9e33-c80aa9429562:1-1000",
    ),
];

/// The commands that make a file.
static MAKING: [CommandRow; 2] = [
    CommandRow(
        "copy",
        "Copy a database as it is after some transaction, also while another process writes it",
        &[
            Argument("db", Kind::NeededText("F"), "The database file"),
            Argument("TO", Kind::Word, "The file to make"),
            Argument("force", Kind::Flag, "Replace the file if it exists"),
        ],
        "Example:\n  mrep copy --db F.db copy.db && mrep tables --db copy.db",
    ),
    CommandRow(
        "export",
        "Make an SQLite file with a table for each described table, also while another process writes the database",
        &[
            Argument("db", Kind::NeededText("F"), "The database file"),
            Argument(
                "columns",
                Kind::NeededText("FILE"),
                "The description of the columns, as the query of `mrep columns` gives it",
            ),
            Argument(
                "only",
                Kind::Repeated("SCHEMA.TABLE"),
                "Make only this table; may be repeated. Without it: all that are described",
            ),
            Argument(
                "schema",
                Kind::Text("SCHEMA"),
                "Make the tables of this schema alone, under their names without it",
            ),
            Argument(
                "place",
                Kind::Flag,
                "Make a table mrep_place too, with the executed set",
            ),
            Argument("TO", Kind::Word, "The file to make"),
            Argument("force", Kind::Flag, "Replace the file if it exists"),
        ],
        "Example:\n  mrep export --db F.db --columns shop.columns --schema shop shop.db && sqlite3 shop.db 'SELECT name FROM items WHERE id = 7'",
    ),
];

/// The commands that record something, and what helps with the command line.
static RECORDING: [CommandRow; 4] = [
    CommandRow(
        "adopt",
        "Record a GTID set as executed without changes, and print what was new of it",
        &[DB, SET],
        "Example:\n  mrep adopt --db F.db 3e11fa47-71ca-11e1-9e33-c80aa9429562:1-1000",
    ),
    CommandRow(
        "admit",
        "Have a database follow more tables, of which no transaction so far has changed a row, and print them",
        &[
            DB,
            Argument(
                "copy",
                Kind::TextWith("COPY", "columns"),
                "Instead of names a first copy of the tables, with rows, that was read at the executed set: it is begun too, and is then to be loaded",
            ),
            Argument(
                "columns",
                Kind::TextWith("FILE", "copy"),
                "The description of the columns of the copy",
            ),
            Argument(
                "sha1",
                Kind::TextWith("DIGEST", "copy"),
                "The SHA-1 of COPY, as for `mrep load`",
            ),
            Argument(
                "SCHEMA.TABLE",
                Kind::WordsOr(&COPY_OPTIONS),
                "A table that is to be followed too; of a database that keeps no rows also SCHEMA.*, all tables of the schema",
            ),
        ],
        "Example, of a table that has just been made:\n  mrep admit --db F.db shop.returns && mrep follow --db F.db --only shop.items --only shop.returns ..",
    ),
    CommandRow(
        "skip",
        "Record a GTID as executed without changes, and print Done, or Repeat if it was executed already",
        &[
            DB,
            Argument(
                "G",
                Kind::Word,
                "A GTID: a hyphenated UUID, `:` and a number",
            ),
            Argument(
                "changes",
                Kind::Text("FILE"),
                "Write to this file of a change feed that the transaction is skipped",
            ),
            CHAIN,
        ],
        "Example:\n  mrep skip --db F.db 3e11fa47-71ca-11e1-9e33-c80aa9429562:7",
    ),
    CommandRow(
        "completions",
        "Print what a shell completes of a command line of mrep, for this shell to read",
        &[Argument("SHELL", Kind::WordOf(&SHELLS), "The shell")],
        "Example:\n  mrep completions bash > ~/.local/share/bash-completion/completions/mrep",
    ),
];

/// The commands of a first copy.
static COPYING: [CommandRow; 2] = [
    CommandRow(
        "select",
        "Print the statements with which the `mysql` client prints the rows of tables at one moment, for `mrep load`",
        &[
            Argument(
                "columns",
                Kind::NeededText("FILE"),
                "The description of the columns, as the query of `mrep columns` gives it",
            ),
            Argument(
                "only",
                Kind::Repeated("SCHEMA.TABLE"),
                "Print only the rows of this table; may be repeated. Without it: of all that are described",
            ),
        ],
        "Example:\n  mrep select --columns shop.columns --only shop.items | mysql -h db1 -u root -p -BN --quick > items.copy",
    ),
    CommandRow(
        "load",
        "Load a first copy of tables into a database, and print each table with the number of its rows",
        &[
            DB,
            Argument(
                "columns",
                Kind::NeededText("FILE"),
                "The description of the columns, as the query of `mrep columns` gives it",
            ),
            Argument(
                "sha1",
                Kind::Text("DIGEST"),
                "The SHA-1 of COPY, as `sha1sum` prints it: another text is refused",
            ),
            PROGRESS,
            CHANGES,
            BYTES,
            CHAIN,
            ONLY,
            FEED_ONLY,
            NEW_FEED,
            Argument(
                "COPY",
                Kind::Word,
                "The file that the `mysql` client has written of the statements of `mrep select`; `-` for standard input, of which the SHA-1 has to be given",
            ),
        ],
        "Example:\n  mrep load --db F.db --columns shop.columns items.copy && mrep follow --db F.db ..",
    ),
];

/// The commands that take rows out.
static CLEARING: [CommandRow; 2] = [
    CommandRow(
        "clear",
        "Take all rows of a table out of a database and record a GTID as executed, and print how many rows went",
        &[
            DB,
            Argument(
                "gtid",
                Kind::Needed("G"),
                "The GTID of the statement, as TRUNCATE or ALTER, that is answered so",
            ),
            Argument(
                "at",
                Kind::Needed("SET"),
                "What the source had executed before it, as `mrep follow` prints it where it stops at the statement: the database has to have executed just that, and besides it copies alone",
            ),
            CHANGES,
            CHANGE_COLUMNS,
            BYTES,
            CHAIN,
            FEED_ONLY,
            NEW_FEED,
            Argument("SCHEMA.TABLE", Kind::Word, "The table"),
        ],
        "Example, of a TRUNCATE:\n  mrep clear --db F.db --gtid 3e11fa47-71ca-11e1-9e33-c80aa9429562:7 --at 3e11fa47-71ca-11e1-9e33-c80aa9429562:1-6 shop.items",
    ),
    CommandRow(
        "abandon",
        "Give a first copy up that has begun and not ended: take all rows of its tables out, and print how many went of each",
        &[
            DB,
            CHANGES,
            CHANGE_COLUMNS,
            BYTES,
            CHAIN,
            FEED_ONLY,
            NEW_FEED,
            Argument("SCHEMA.TABLE", Kind::Words, "A table of the copy"),
        ],
        "Example:\n  mrep abandon --db F.db shop.items shop.orders",
    ),
];

fn listing() -> &'static [CommandRow] {
    &LISTING
}

fn replaying() -> &'static [CommandRow] {
    &REPLAYING
}

fn following() -> &'static [CommandRow] {
    &FOLLOWING
}

fn copying() -> &'static [CommandRow] {
    &COPYING
}

fn clearing() -> &'static [CommandRow] {
    &CLEARING
}

fn showing() -> &'static [CommandRow] {
    &SHOWING
}

fn known() -> &'static [CommandRow] {
    &KNOWN
}

fn making() -> &'static [CommandRow] {
    &MAKING
}

fn recording() -> &'static [CommandRow] {
    &RECORDING
}

/// All commands, in the order of the help. A table stands in the proof of each function that names it, and so one alone does; of
/// two short tables the proof costs less than of a long one.
pub fn commands() -> [&'static [CommandRow]; 9] {
    [
        listing(),
        replaying(),
        following(),
        copying(),
        clearing(),
        showing(),
        known(),
        making(),
        recording(),
    ]
}

/// The arguments of a command; none where no command has this name.
pub fn arguments_of(command: &str) -> &'static [Argument] {
    for rows in commands() {
        if let Some(arguments) = arguments_in(rows, command) {
            return arguments;
        }
    }
    &[]
}

/// The arguments of a command, if it is one of these.
fn arguments_in(rows: &[CommandRow], command: &str) -> Option<&'static [Argument]> {
    for CommandRow(name, _, arguments, _) in rows {
        if *name == command {
            return Some(*arguments);
        }
    }
    None
}

/// The argument of a row.
fn arg_of<'a>(alloc: Global, row: &Argument) -> Result<Arg<'a>, AllocError> {
    let Argument(name, kind, help) = *row;
    let arg = Arg::new(alloc, name)
        .help(help)
        .required(kind.is_required())
        .action(kind.action())
        .allow_hyphen_values(kind.may_be_hyphenated());
    match kind {
        Kind::Word => Ok(arg),
        Kind::WordOf(words) => Ok(arg.value_parser(words)),
        Kind::Words => Ok(arg.num_args(1..)),
        Kind::WordsOr(options) => arg
            .num_args(1..)
            .required_unless_present_any(options)?
            .conflicts_with_all(options),
        Kind::TextWith(value, other) => arg.long(name).value_name(value).requires_arg(other),
        Kind::Flag => Ok(arg.long(name)),
        Kind::OneOf(value, words) => Ok(arg.long(name).value_name(value).value_parser(words)),
        Kind::Needed(value) | Kind::NeededText(value) | Kind::Text(value) | Kind::Repeated(value) =>
            Ok(arg.long(name).value_name(value)),
    }
}

/// Adds the arguments of rows.
fn push_arguments<'a>(
    alloc: Global,
    rows: &[Argument],
    arguments: &mut Vec<Arg<'a>>,
) -> Result<(), AllocError> {
    for row in rows {
        arguments.push(arg_of(alloc, row)?)?;
    }
    Ok(())
}

/// The command of a row.
fn command_of<'a>(alloc: Global, row: &CommandRow) -> Result<Command<'a>, AllocError> {
    let CommandRow(name, about, rows, examples) = *row;
    let mut arguments = Vec::with_capacity(alloc, rows.len())?;
    push_arguments(alloc, rows, &mut arguments)?;
    Command::new(alloc, name)
        .about(about)
        .after_help(examples)
        .args(arguments)
}

/// Adds the commands of rows.
fn push_commands<'a>(
    alloc: Global,
    rows: &[CommandRow],
    commands: &mut Vec<Command<'a>>,
) -> Result<(), AllocError> {
    for row in rows {
        commands.push(command_of(alloc, row)?)?;
    }
    Ok(())
}

/// All commands and their arguments.
pub fn grammar<'a>(alloc: Global) -> Result<Command<'a>, AllocError> {
    let mut below = Vec::new(alloc);
    for rows in commands() {
        push_commands(alloc, rows, &mut below)?;
    }
    Command::new(alloc, "mrep")
        .version(VERSION)
        .long_version(LONG_VERSION)
        .about("A MySQL replication follower")
        .subcommand_required(true)
        .subcommands(below)
}
