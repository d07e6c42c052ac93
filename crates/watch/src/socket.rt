//! A socket as a stream of two directions.

ghost use Rattle.std.specs.Prelude.{None, IfSome};
ghost use Rattle.std.specs.Io.{ReadsAtMost};

use crate::progress::pause;
use crate::pulse::Pulse;
use replica::Duplex;
use std::io;
use std::io::{ErrorKind, Read, Write};
use std::net::TcpStream;

/// A TCP connection, and what is reported once nothing has come for a second. Nothing is specified about its bytes.
#[derive(Drop)]
pub struct Socket<'r> {
    rt: &'r HostRuntime,
    stream: TcpStream,
    pulse: &'r Pulse,
}

impl<'r> Socket<'r> {
    /// A connection, and what to report.
    pub fn new(rt: &'r HostRuntime, stream: TcpStream, pulse: &'r Pulse) -> Socket<'r> {
        Socket { rt, stream, pulse }
    }

    /// Reads what comes within a second. `None` if nothing does.
    fn read_soon(&mut self, buf: &mut [u8]) -> Option<io::Result<usize>>
        ensures bound { IfSome result (λ read. ReadsAtMost read buf.new) }
    {
        if self.stream.set_read_timeout(Some(pause())).is_err() {
            return None;
        }
        let read = self.stream.read(buf);
        let _ = self.stream.set_read_timeout(None);
        match read {
            Err(cause) if cause.kind() == ErrorKind::WouldBlock => None,
            other => Some(other),
        }
    }
}

impl Read for Socket<'_> {
    fn read(&mut self, buf: &mut [u8]) -> io::Result<usize> {
        self.stream.read(buf)
    }
}

impl Write for Socket<'_> {
    fn write(&mut self, buf: &[u8]) -> io::Result<usize> {
        self.stream.write(buf)
    }

    fn flush(&mut self) -> io::Result<()> {
        self.stream.flush()
    }
}

impl Duplex for Socket<'_> {
    ghost failures = { λ s. None };

    fn receive(&mut self, buf: &mut [u8]) -> io::Result<usize> {
        if self.pulse.has_news() {
            if let Some(read) = self.read_soon(buf) {
                return read;
            }
            self.pulse.report(self.rt, &mut self.rt.stderr());
        }
        self.stream.read(buf)
    }

    fn send(&mut self, buf: &[u8]) -> io::Result<usize> {
        self.stream.write(buf)
    }
}
