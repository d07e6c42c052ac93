//! The query that describes columns.

use binlog::Follow;
use rows::write_digits;
use std::io;
use std::io::Write;

/// What is set before the query: names in UTF-8, and the key that the server generates is described as well.
const SETTINGS: &[u8] =
    b"SET NAMES utf8mb4; /*!80030 SET SESSION show_gipk_in_create_table_and_information_schema=ON */; ";

const COLUMNS: &[u8] =
    b"SELECT table_schema, table_name, column_name, column_type, character_set_name, column_key FROM information_schema.columns WHERE ";

/// The schemas of the server's own.
const OWN: &[u8] =
    b"table_schema NOT IN ('information_schema', 'mysql', 'performance_schema', 'sys')";

const ORDER: &[u8] = b" ORDER BY table_schema, table_name, ordinal_position\n";

/// Prints the query that gives the description of these tables, or of all but the server's own if there are none, when the
/// `mysql` client runs it with `--batch --skip-column-names`.
pub fn write_query<W: Write>(only: &Follow, out: &mut W) -> io::Result<()> {
    out.write_all(SETTINGS)?;
    out.write_all(COLUMNS)?;
    if only.names().is_empty() {
        out.write_all(OWN)?;
        return out.write_all(ORDER);
    }
    out.write_all(b"(table_schema, table_name) IN (")?;
    let mut is_first = true;
    for (schema, table) in only.names() {
        if !is_first {
            out.write_all(b", ")?;
        }
        out.write_all(b"(")?;
        write_text(schema, out)?;
        out.write_all(b", ")?;
        write_text(table, out)?;
        out.write_all(b")")?;
        is_first = false;
    }
    out.write_all(b")")?;
    out.write_all(ORDER)
}

/// Writes a name as a text: in quotes where it is of letters, digits, `_`, `$` and `-`, else in hexadecimal digits.
pub(crate) fn write_text<W: Write>(name: &[u8], out: &mut W) -> io::Result<()> {
    if name.iter().all(|byte| is_plain(*byte)) {
        out.write_all(b"'")?;
        out.write_all(name)?;
        return out.write_all(b"'");
    }
    out.write_all(b"_utf8mb4 x'")?;
    write_digits(name, out)?;
    out.write_all(b"'")
}

/// Whether a byte stands for itself in quotes, in SQL and in a shell.
fn is_plain(byte: u8) -> bool {
    byte.is_ascii_alphanumeric() || matches!(byte, b'_' | b'$' | b'-')
}
