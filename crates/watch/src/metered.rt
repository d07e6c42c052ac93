//! A reader that reports how much of it was read.

use crate::pulse::Pulse;
use std::io;
use std::io::Read;

/// A reader, and what is reported once bytes come. Nothing is specified about its bytes.
#[derive(Drop)]
pub struct Metered<'r, R> {
    rt: &'r HostRuntime,
    reader: R,
    pulse: &'r Pulse,
}

impl<'r, R: Read> Metered<'r, R> {
    /// A reader of which nothing was read, and what to report.
    pub fn new(rt: &'r HostRuntime, reader: R, pulse: &'r Pulse) -> Metered<'r, R> {
        Metered { rt, reader, pulse }
    }
}

impl<R: Read> Read for Metered<'_, R> {
    fn read(&mut self, buf: &mut [u8]) -> io::Result<usize> {
        let count = self.reader.read(buf)?;
        self.pulse.received(self.rt, count, &mut self.rt.stderr());
        Ok(count)
    }
}
