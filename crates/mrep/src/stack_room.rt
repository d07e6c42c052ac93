//! Whether the stack has the room that a command takes, which a limit of the system may refuse (getrlimit(2)).

use std::io::ErrorKind;
use std::{fs, io};

/// What getrlimit is asked for the limit of the address space. The name of the one for the stack is the C library's.
const RLIMIT_AS: i32 = 9;

/// A page of memory, in bytes.
const PAGE: u64 = 4096;

/// What the arguments and the environment may take of the stack, in bytes, where that is more than a quarter of its limit
/// (execve(2)).
const ARGUMENTS: u64 = 131_072;

/// Whether the stack may grow by this many bytes from the start of the process on. Where the system does not say, it may.
pub fn has_room(rt: &HostRuntime, needed: u64) -> bool {
    let stack = limit(libc::RLIMIT_STACK);
    if stack.saturating_sub(ARGUMENTS.max(stack / 4)) < needed {
        return false;
    }
    let space = limit(RLIMIT_AS);
    if space == u64::MAX {
        return true;
    }
    match used_space(rt) {
        Ok(used) => used.saturating_add(needed) <= space,
        Err(cause) => cause.kind() != ErrorKind::OutOfMemory,
    }
}

/// The limit of a resource, in bytes; the largest number if there is none.
fn limit(resource: i32) -> u64 {
    let mut limit = libc::types::rlimit {
        rlim_cur: u64::MAX,
        rlim_max: u64::MAX,
    };
    if libc::getrlimit(resource, &mut limit) == 0 {
        limit.rlim_cur
    } else {
        u64::MAX
    }
}

/// How much of the address space the process uses, in bytes: the first number of `/proc/self/statm` has the pages (proc(5)).
fn used_space(rt: &HostRuntime) -> io::Result<u64> {
    let text = fs::read_to_string(rt, "/proc/self/statm")?;
    let pages = text
        .split(' ')
        .next()
        .and_then(|word| word.parse::<u64>().ok());
    match pages {
        Some(pages) => Ok(pages.saturating_mul(PAGE)),
        None => Err(ErrorKind::InvalidData.into()),
    }
}
