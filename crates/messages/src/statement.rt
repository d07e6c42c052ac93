//! What a statement of the log does, as far as its first word says.

/// The statements that change rows, which a source that logs rows does not log as statements.
const CHANGES: [&[u8]; 4] = [b"INSERT", b"UPDATE", b"DELETE", b"REPLACE"];

/// The statements about transactions.
const TRANSACTIONS: [&[u8]; 4] = [b"SAVEPOINT", b"ROLLBACK", b"RELEASE", b"XA"];

/// What a statement does.
#[derive(Clone, Copy, PartialEq, Eq)]
pub(crate) enum Statement {
    /// It changes rows.
    Rows,
    /// It is about a transaction, whose rows may be beside it.
    Transaction,
    /// It is another one: it defines or empties a table, say.
    Definition,
}

impl Statement {
    /// What the statement of this text does.
    pub(crate) fn of(text: &[u8]) -> Statement {
        let text = without_comments(text);
        if begins_with_one(text, &CHANGES) {
            return Statement::Rows;
        }
        if begins_with_one(text, &TRANSACTIONS) {
            return Statement::Transaction;
        }
        Statement::Definition
    }
}

/// A text after the blanks, parentheses and comments that it begins with (MySQL Reference Manual, "Comments"). What stands in
/// a comment that MySQL runs, `/*!` and a version, is none.
fn without_comments(text: &[u8]) -> &[u8] {
    let mut rest = text;
    for _ in text {
        rest = match rest {
            [b' ' | b'\t' | b'\n' | b'\r' | b'(', after @ ..] => after,
            [b'/', b'*', b'!', after @ ..] => without_digits(after),
            [b'/', b'*', after @ ..] => after_comment(after),
            [b'-', b'-', after @ ..] | [b'#', after @ ..] => after_line(after),
            _ => return rest,
        };
    }
    rest
}

/// A text after the digits that it begins with.
fn without_digits(text: &[u8]) -> &[u8] {
    let end = text.iter().position(|byte| !byte.is_ascii_digit());
    text.get(end.unwrap_or(0)..).unwrap_or(&[])
}

/// What stands after a comment.
fn after_comment(text: &[u8]) -> &[u8] {
    match text
        .windows(2)
        .position(|pair| matches!(pair, [b'*', b'/']))
    {
        Some(at) => text.get(at.saturating_add(2)..).unwrap_or(&[]),
        None => &[],
    }
}

/// What stands after a line.
fn after_line(text: &[u8]) -> &[u8] {
    match text.iter().position(|byte| *byte == b'\n') {
        Some(at) => text.get(at..).unwrap_or(&[]),
        None => &[],
    }
}

/// Whether a text begins with one of these words, in letters of either case.
fn begins_with_one(text: &[u8], words: &[&[u8]]) -> bool {
    for word in words {
        if let Some((head, rest)) = text.split_at_checked(word.len())
            && head.eq_ignore_ascii_case(word)
            && !matches!(rest, [b'0'..=b'9' | b'A'..=b'Z' | b'a'..=b'z' | b'_' | b'$', ..])
        {
            return true;
        }
    }
    false
}
