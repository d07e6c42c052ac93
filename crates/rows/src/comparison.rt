//! Lines that are compared with those of a text, in any order.

use formats::Shown;
use std::alloc::{AllocError, Global};
use std::io;
use std::io::Write;

/// The lines of a text, and how often each is left.
#[derive(Drop)]
struct TextLines<'t> {
    /// The lines that are not the same, in the order of their bytes, and for each how often it is left.
    lines: Vec<(&'t [u8], u64)>,
}

impl<'t> TextLines<'t> {
    /// The lines of a text. The last one may lack its line feed.
    fn of(alloc: Global, text: &'t [u8]) -> Result<TextLines<'t>, AllocError> {
        let mut all = split(alloc, text)?;
        all.sort_unstable();
        let mut lines = Vec::new(alloc);
        let mut run: Option<(&'t [u8], u64)> = None;
        for line in all.iter() {
            run = match run {
                Some((last, count)) if last == *line => Some((last, count.saturating_add(1))),
                Some(ended) => {
                    lines.push(ended)?;
                    Some((*line, 1))
                }
                None => Some((*line, 1)),
            };
        }
        if let Some(ended) = run {
            lines.push(ended)?;
        }
        Ok(TextLines { lines })
    }

    /// Takes a line out, if it is left.
    fn take(&mut self, line: &[u8]) -> bool {
        let Ok(place) = self.lines.binary_search_by(|(text, _)| (*text).cmp(line)) else {
            return false;
        };
        match self.lines.get_mut(place) {
            Some((_, count)) if *count > 0 => {
                *count -= 1;
                true
            }
            _ => false,
        }
    }
}

/// The lines of a text, in order.
fn split<'t>(alloc: Global, text: &'t [u8]) -> Result<Vec<&'t [u8]>, AllocError> {
    let mut lines = Vec::new(alloc);
    let mut begin = 0;
    for (at, byte) in text.iter().enumerate() {
        if *byte == b'\n' {
            lines.push(text.get(begin..at).unwrap_or(&[]))?;
            begin = at.saturating_add(1);
        }
    }
    match text.get(begin..) {
        Some([]) | None => {}
        Some(rest) => lines.push(rest)?,
    }
    Ok(lines)
}

/// How many lines one side has that the other one lacks.
#[derive(Clone, Copy)]
pub struct Differences {
    /// Lines of the text alone.
    of_text: u64,
    /// Lines that were written and that the text lacks.
    of_written: u64,
}

impl Differences {
    /// Whether each side has the lines of the other.
    pub fn are_none(self) -> bool {
        self.of_text == 0 && self.of_written == 0
    }

    /// Reports how many rows the text and the database of these names lack.
    pub fn note<E: Write>(self, text: &str, db: &str, err: &mut E) {
        let Differences {
            of_text,
            of_written,
        } = self;
        let _ = writeln!(
            err,
            "mrep: {of_text} rows of {} alone, {of_written} of {} alone",
            Shown(text),
            Shown(db)
        );
    }
}

/// Prints the lines that one text lacks of the other: those of the first one after `<`, those of the second after `>`.
pub fn compare<W: Write>(
    alloc: Global,
    text: &[u8],
    written: &[u8],
    out: &mut W,
) -> io::Result<Differences> {
    let mut comparer = Comparer::new(alloc, TextLines::of(alloc, text)?, out);
    comparer.write(written)?;
    comparer.finish()
}

/// What lines are written to, to be compared with those of a text: it writes each that the text lacks, after `>`.
#[derive(Drop)]
struct Comparer<'t, 'o, W> {
    expected: TextLines<'t>,
    line: Vec<u8>,
    out: &'o mut W,
    of_written: u64,
}

impl<'t, 'o, W: Write> Comparer<'t, 'o, W> {
    /// No line was written yet.
    fn new(alloc: Global, expected: TextLines<'t>, out: &'o mut W) -> Comparer<'t, 'o, W> {
        Comparer {
            expected,
            line: Vec::new(alloc),
            out,
            of_written: 0,
        }
    }

    /// Compares the line that has ended.
    fn end_line(&mut self) -> io::Result<()> {
        if !self.expected.take(&self.line) {
            self.of_written = self.of_written.saturating_add(1);
            write_line(b"> ", &self.line, self.out)?;
        }
        self.line.clear();
        Ok(())
    }

    /// Writes the lines that are left of the text, after `<`, and returns how many there are on each side.
    fn finish(self) -> io::Result<Differences> {
        let Comparer {
            expected,
            out,
            of_written,
            ..
        } = self;
        let mut of_text = 0u64;
        for (line, count) in expected.lines.iter() {
            for _ in 0..*count {
                of_text = of_text.saturating_add(1);
                write_line(b"< ", line, out)?;
            }
        }
        Ok(Differences {
            of_text,
            of_written,
        })
    }
}

/// Writes a line after the sign of its side.
fn write_line<W: Write>(side: &[u8], line: &[u8], out: &mut W) -> io::Result<()> {
    out.write_all(side)?;
    out.write_all(line)?;
    out.write_all(b"\n")
}

impl<W: Write> Write for Comparer<'_, '_, W> {
    fn write(&mut self, buf: &[u8]) -> io::Result<usize> {
        for byte in buf {
            if *byte == b'\n' {
                self.end_line()?;
            } else {
                self.line.push(*byte)?;
            }
        }
        Ok(buf.len())
    }

    fn flush(&mut self) -> io::Result<()> {
        Ok(())
    }
}
