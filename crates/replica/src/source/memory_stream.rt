//! A stream in memory as one of two directions, which reports its failures.

ghost use Rattle.std.specs.Prelude.{◌≡◌, Option};
ghost use Rattle.replica.specs.Failing.{failed_to_write, HaveFailed};

use crate::source::counted::Duplex;
use scripted_source::Stream;
use std::io;
use std::io::{Read, Write};

/// The counts of failed reads and writes after so many more.
fn counted(before: Option<(u64, u64)>, reads: u64, writes: u64) -> Option<(u64, u64)>
    ensures { HaveFailed before result reads writes }
{
    let (all_reads, all_writes) = before?;
    Some((
        all_reads.checked_add(reads)?,
        all_writes.checked_add(writes)?,
    ))
}

/// Whether a write that was given so many bytes has failed.
fn has_failed(outcome: &io::Result<usize>, given: usize) -> bool
    ensures { result ≡ failed_to_write outcome.now given }
{
    match outcome {
        Ok(taken) => *taken == 0 && given != 0,
        Err(_) => given != 0,
    }
}

impl<'a> Duplex for Stream<'a> {
    ghost failures = { λ s. s.failures };

    fn receive(&mut self, buf: &mut [u8]) -> io::Result<usize> {
        let result = self.read(buf);
        self.failures = counted(self.failures, u64::from(result.is_err()), 0);
        result
    }

    fn send(&mut self, buf: &[u8]) -> io::Result<usize> {
        let result = self.write(buf);
        let failed = has_failed(&result, buf.len());
        self.failures = counted(self.failures, 0, u64::from(failed));
        result
    }
}
