//! Times in seconds with six digits after the point.

use std::io;
use std::io::Write;
use std::time::{SystemTime, UNIX_EPOCH};

/// Microseconds in a second.
const MILLION: u64 = 1_000_000;

/// The time now, in microseconds since 1970-01-01 00:00:00 UTC; `None` where the clock fails.
pub fn micros_since_1970(clock: &HostRuntime) -> Option<u64> {
    let now = match SystemTime::now(clock) {
        Ok(now) => now,
        Err(_) => return None,
    };
    match now.duration_since(UNIX_EPOCH) {
        Ok(since) => u64::try_from(since.as_micros()).ok(),
        Err(_) => None,
    }
}

/// Writes a time in microseconds as seconds.
pub fn write_seconds<W: Write>(micros: u64, out: &mut W) -> io::Result<()> {
    let (seconds, rest) = (micros / MILLION, micros % MILLION);
    write!(out, "{seconds}.{rest:06}")
}
