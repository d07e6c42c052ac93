//! `mrep`, a MySQL replication follower, with one command for each run.
//!
//! `command` does the work, with the arguments and the console that it is given; `main` gives it those of the process.
#![tactic(auto)]

mod commands;
mod database;
mod forge;
mod payloads;
mod report;
mod stack_room;

use crate::commands::command;
use crate::report::console::Console;
use crate::report::failure::{MEMORY, USAGE};
use crate::stack_room::has_room;
use formats::Screen;
use std::io::{BufWriter, IsTerminal};
use std::process::ExitCode;
use std::{env, fs, io};

/// How much of the stack is used at the start, in frames of some 4 KiB: twice what a command has been seen to use.
const FRAMES: u32 = 64;

const FRAME: usize = 4096;

/// What these frames take at most, in bytes: each has some words more than its room.
const STACK: u64 = 64 * (4096 + 512);

/// Uses the stack, so that the system gives it its room at the start: a stack that cannot grow later, when memory has
/// run out, would end the process by a signal, where an allocation that is refused ends it with a message. Answers 0 or
/// 1; that its frames are all there at once is why it looks into its own after the call.
#[inline(never)]
fn use_stack(frames: u32, at: usize) -> u8 {
    let mut room = [0u8; FRAME];
    room[at % FRAME] = 1;
    let below = if frames == 0 {
        0
    } else {
        use_stack(frames - 1, at)
    };
    room[at.wrapping_add(below as usize).wrapping_add(1) % FRAME]
}

/// Runs the command. It fails only if an argument is not UTF-8 or memory runs out.
fn run(rt: &HostRuntime) -> io::Result<u8> {
    // They take the place of standard streams that are closed, so that no file or socket that is opened does, and nothing
    // that is meant for these is written to it. A write to them fails.
    let held = [
        fs::open(rt, "/dev/null"),
        fs::open(rt, "/dev/null"),
        fs::open(rt, "/dev/null"),
    ];
    let status = run_words(rt);
    drop(held);
    status
}

/// Runs the command that the arguments name, with buffered output.
fn run_words(rt: &HostRuntime) -> io::Result<u8> {
    let words: Vec<String> = env::args(rt)?.collect(rt.alloc())?;
    if !has_room(rt, STACK) || use_stack(FRAMES, words.len()) > 1 {
        return Err(io::ErrorKind::OutOfMemory.into());
    }
    let is_terminal = rt.stdout().is_terminal();
    let mut console = Console {
        out: Screen::new(BufWriter::new(rt.alloc(), rt.stdout())?, is_terminal),
        err: rt.stderr(),
    };
    Ok(command(rt, words.as_slice(), &mut console))
}

fn main(rt: HostRuntime) -> ExitCode {
    let status = match run(&rt) {
        Ok(status) => status,
        Err(cause) if cause.kind() == io::ErrorKind::InvalidData => {
            let _ = eprintln!(rt; "mrep: an argument is not UTF-8");
            USAGE
        }
        Err(_) => {
            let _ = eprintln!(rt; "mrep: out of memory");
            MEMORY
        }
    };
    ExitCode::from(status)
}
