//! The formats in which rows are printed, and the forms of bytes in them.

/// How rows are printed.
#[derive(Clone, Copy, PartialEq, Eq)]
pub enum Format {
    /// A line a row, for people: table, count, cells.
    Text,
    /// A record a row: schema, table, count, cells (RFC 4180, with a line feed after each record).
    Csv,
    /// A JSON object a row, on a line of its own.
    Json,
    /// A line a copy of a row, as the `mysql` client prints it. The columns have to be described.
    Tsv,
    /// An INSERT statement a copy of a row. The columns have to be described.
    Sql,
}

impl Format {
    /// Whether it is there only for rows whose columns are described.
    pub fn needs_columns(self) -> bool {
        matches!(self, Format::Tsv | Format::Sql)
    }
}

/// How bytes are printed in CSV and JSON.
#[derive(Clone, Copy, PartialEq, Eq)]
pub enum Encoding {
    /// As text, where they are UTF-8.
    Utf8,
    /// As hexadecimal digits.
    Hex,
    /// As base64 with padding (RFC 4648, section 4).
    Base64,
}

impl Encoding {
    /// Its word of `--bytes`.
    pub fn word(self) -> &'static str {
        match self {
            Encoding::Utf8 => "utf8",
            Encoding::Hex => "hex",
            Encoding::Base64 => "base64",
        }
    }
}

/// The words of `--format`.
pub const FORMATS: [&str; 5] = ["text", "csv", "json", "tsv", "sql"];

/// The words of `--bytes`.
pub const ENCODINGS: [&str; 3] = ["utf8", "hex", "base64"];

/// The format of a word, which the command line has tested.
pub fn format_of(word: Option<&str>) -> Format {
    match word {
        Some("csv") => Format::Csv,
        Some("json") => Format::Json,
        Some("tsv") => Format::Tsv,
        Some("sql") => Format::Sql,
        _ => Format::Text,
    }
}

/// The form of bytes of a word, which the command line has tested. Formats other than CSV and JSON have one form alone, and
/// where columns are described JSON alone has several, and base64 without a word: `None` if another is asked for.
pub fn encoding_of(word: Option<&str>, format: Format, is_described: bool) -> Option<Encoding> {
    match (word, format) {
        (None, Format::Json) if is_described => Some(Encoding::Base64),
        (None, _) => Some(Encoding::Hex),
        (Some(_), Format::Csv) if is_described => None,
        (Some(word), Format::Csv | Format::Json) => Some(encoding_named(word)),
        _ => None,
    }
}

/// The form of bytes of this name.
fn encoding_named(word: &str) -> Encoding {
    match word {
        "utf8" => Encoding::Utf8,
        "base64" => Encoding::Base64,
        _ => Encoding::Hex,
    }
}
