//! The chain of a feed: each line of a commit ends with the SHA-256 of what stands before it in the file, and of the one before.
//!
//! It is taken of what the file has, and not of what was written to it. So a line that a kill has cut is in it, and what was cut off
//! again is not.

ghost use Rattle.std.specs.Prelude.{◌≡◌, ◌<◌, ◌++◌, length, IfOk, IfSome};
ghost use Rattle.std.specs.String.{string_bytes};
ghost use Rattle.std.specs.Io.{ReadsAtMost};
ghost use Rattle.std.specs.Io.KnownBytes.{ReadConsumes};
ghost use Rattle.feed.specs.Chain.{chain_after};

use files::{FeedFile, FileFault};
use sha2::{Digest, Sha256};
use std::alloc::{AllocError, Global};
use std::io;
use std::io::{ErrorKind, Read};

/// How many bytes of a file are read at once.
const PIECE: usize = 1 << 13;

/// The most bytes of a line of a commit.
const LINE: usize = 1 << 11;

/// What a line of a commit begins with.
const COMMIT: &[u8] = b"{\"type\":\"commit\",";

/// What stands before the digits of a line, and what stands after them.
const BEFORE: &[u8] = b",\"chain\":\"";

const AFTER: &[u8] = b"\"}";

/// How many hexadecimal digits a SHA-256 has.
const DIGITS: usize = 64;

const HAS_CHAIN: &str =
    "the lines of its commits have a chain, which would end: go on with --chain, or name a new file";

const NO_FILE: &str =
    "it is a pipe or a device, and a chain is taken of what a file has: name a file";

/// The chain of a file, up to some line.
#[derive(Drop)]
pub(crate) struct Chain {
    /// The digits of that line, and none before the first.
    digits: Vec<u8>,
    /// Where the line ends.
    end: u64,
}

impl Chain {
    /// The chain of a file, if it is asked for: that which the file has, or a new one, from its beginning. A file that has one is
    /// refused where none is asked for.
    pub(crate) fn of(
        alloc: Global,
        file: &FeedFile,
        is_asked: bool,
    ) -> Result<Option<Chain>, FileFault> {
        if !file.can_cut() {
            return if is_asked {
                Err(FileFault::Unusable(NO_FILE))
            } else {
                Ok(None)
            };
        }
        match last_link(alloc, file, is_asked)? {
            Some(_) if !is_asked => Err(FileFault::Unusable(HAS_CHAIN)),
            None if !is_asked => Ok(None),
            Some(chain) => Ok(Some(chain)),
            None => Ok(Some(Chain {
                digits: Vec::new(alloc),
                end: 0,
            })),
        }
    }

    /// The digits of the next line, which begins so, and is to follow what the file has.
    pub(crate) fn next(&self, alloc: Global, file: &FeedFile, line: &[u8]) -> io::Result<String> {
        let mut reader = file.read_from(self.end)?;
        let mut piece = [0u8; PIECE];
        digits_after(alloc, &self.digits, &mut reader, line, &mut piece)
    }

    /// Goes on after a line with these digits, which ends there.
    pub(crate) fn go_on(
        &mut self,
        alloc: Global,
        digits: &str,
        end: u64,
    ) -> Result<(), AllocError> {
        self.digits = Vec::from_slice(alloc, digits.as_bytes())?;
        self.end = end;
        Ok(())
    }
}

/// The digits of a line that begins so, after a line with these digits, or none, and all that a reader still gives.
fn digits_after<R: Read>(
    alloc: Global,
    digits: &[u8],
    reader: &mut R,
    line: &[u8],
    piece: &mut [u8],
) -> io::Result<String>
    requires { 0 < length piece.old }
    ensures { IfOk result (λ next. IfSome (R.remaining reader.old)
        (λ bytes. string_bytes next ≡ chain_after digits.now (bytes ++ line.now))) }
{
    let mut hasher = Sha256::new_with_prefix(digits);
    // A `for`, since the prover asks that each loop ends.
    for _ in 0..u64::MAX {
        let count = read_some(reader, piece)?;
        if count == 0 {
            hasher.update(line);
            let text = hex::encode(alloc, hasher.finalize())?;
            return Ok(text);
        }
        hasher.update(&piece[..count]);
    }
    Err(io::Error::from(ErrorKind::FileTooLarge))
}

/// Reads some bytes, and tries again if a signal interrupted the read.
fn read_some<R: Read>(reader: &mut R, piece: &mut [u8]) -> io::Result<usize>
    ensures bound { ReadsAtMost result piece.new }
    ensures bytes { ReadConsumes (R.remaining reader.old)
        (R.remaining reader.new) result piece.new }
{
    // A `for`, since the prover asks that each loop ends.
    for _ in 0..u64::MAX {
        match reader.read(piece) {
            Ok(count) => return Ok(count),
            Err(cause) if cause.kind() == ErrorKind::Interrupted => {}
            Err(cause) => return Err(cause),
        }
    }
    Err(io::Error::from(ErrorKind::Interrupted))
}

/// The last line with a chain of a file, which is read from its end: of all lines, or, where none is asked for, that of the last
/// commit alone.
fn last_link(alloc: Global, file: &FeedFile, is_asked: bool) -> io::Result<Option<Chain>> {
    let mut room = [0u8; PIECE];
    let mut end = file.length()?;
    let mut is_last = true;
    // A `for`, since the prover asks that each loop ends.
    for _ in 0..u64::MAX {
        let begin = end.saturating_sub(PIECE as u64);
        let count = end.saturating_sub(begin) as usize;
        let Some(piece) = room.get_mut(..count) else {
            return Ok(None);
        };
        file.read_at(begin, piece)?;
        if let Some(commit) = last_commit(piece, begin == 0, is_last, is_asked) {
            return commit.chain(alloc, begin);
        }
        if begin == 0 {
            return Ok(None);
        }
        // A line that begins in the next piece and ends in this one is whole in the next.
        end = begin.saturating_add(LINE as u64);
        is_last = false;
    }
    Ok(None)
}

/// A line of a commit in a piece of a file.
#[derive(Clone, Copy)]
struct Commit<'p> {
    digits: Option<&'p [u8]>,
    /// Where it ends.
    end: usize,
}

impl Commit<'_> {
    /// The chain up to this line, if it has one, of a piece that begins there.
    fn chain(self, alloc: Global, begin: u64) -> io::Result<Option<Chain>> {
        let Some(digits) = self.digits else {
            return Ok(None);
        };
        Ok(Some(Chain {
            digits: Vec::from_slice(alloc, digits)?,
            end: begin.saturating_add(self.end as u64),
        }))
    }
}

/// The last line of a commit that is whole in a piece, which begins or ends with the file; or the last one with a chain. A line that
/// was cut at the end of the file gets a line feed before it goes on.
fn last_commit(
    piece: &[u8],
    is_first: bool,
    is_last: bool,
    with_chain: bool,
) -> Option<Commit<'_>> {
    let mut found = None;
    let mut end = 0usize;
    for line in piece.split(|byte| *byte == b'\n') {
        let is_begun = end > 0 || is_first;
        end = end.saturating_add(line.len()).saturating_add(1);
        let is_ended = end <= piece.len() || is_last;
        if is_begun && is_ended && line.starts_with(COMMIT) {
            let digits = digits_in(line);
            if digits.is_some() || !with_chain {
                found = Some(Commit { digits, end });
            }
        }
    }
    found
}

/// The digits of the chain of a line, which stands without its line feed.
fn digits_in(line: &[u8]) -> Option<&[u8]> {
    let rest = line.strip_suffix(AFTER)?;
    let (head, digits) = rest.split_at_checked(rest.len().checked_sub(DIGITS)?)?;
    if !head.ends_with(BEFORE) || !digits.iter().all(is_digit) {
        return None;
    }
    Some(digits)
}

/// Whether a byte is a digit, as the chain has them.
fn is_digit(byte: &u8) -> bool {
    matches!(*byte, b'0'..=b'9' | b'a'..=b'f')
}
