//! Output that may be a terminal, to which no text of a source is a command.

use std::io;
use std::io::Write;

/// The first byte of the characters U+0080 to U+00BF in UTF-8, of which those up to U+009F are control characters.
const LEAD: u8 = 0xc2;

/// What is written to. On a terminal control characters are written as `\x` and two hexadecimal digits, but for tabs and line
/// feeds.
#[derive(Drop)]
pub struct Screen<W> {
    out: W,
    is_terminal: bool,
    /// Whether `LEAD` has come, and is not written yet.
    holds_lead: bool,
}

impl<W: Write> Screen<W> {
    /// What is written to, and whether it is a terminal.
    pub fn new(out: W, is_terminal: bool) -> Screen<W> {
        Screen {
            out,
            is_terminal,
            holds_lead: false,
        }
    }

    /// Writes a byte to a terminal.
    fn put(&mut self, byte: u8) -> io::Result<()> {
        if self.holds_lead {
            self.holds_lead = false;
            if matches!(byte, 0x80..=0x9f) {
                return write!(self.out, "\\x{:02x}", byte as u32);
            }
            self.out.write_all(&[LEAD])?;
        }
        match byte {
            LEAD => {
                self.holds_lead = true;
                Ok(())
            }
            b'\t' | b'\n' => self.out.write_all(&[byte]),
            0..=0x1f | 0x7f => write!(self.out, "\\x{:02x}", byte as u32),
            _ => self.out.write_all(&[byte]),
        }
    }
}

impl<W: Write> Write for Screen<W> {
    fn write(&mut self, buf: &[u8]) -> io::Result<usize> {
        if !self.is_terminal {
            return self.out.write(buf);
        }
        for byte in buf {
            self.put(*byte)?;
        }
        Ok(buf.len())
    }

    fn flush(&mut self) -> io::Result<()> {
        if self.holds_lead {
            self.holds_lead = false;
            self.out.write_all(&[LEAD])?;
        }
        self.out.flush()
    }
}
