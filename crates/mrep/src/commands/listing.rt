//! `mrep packets` and `mrep events`: the payloads of a stream, one per line.

ghost use Rattle.std.specs.Prelude.{◌≤◌, IfOk};

use crate::payloads::lines::{Lines, ListFault, list_piece};
use crate::payloads::listing::Listing;
use crate::report::failure::{DONE, Failure, REFUSED, of_system};
use files::Input;
use replica::{PIECE, read_some};
use std::alloc::Global;
use std::io::{Read, Write};

/// Lists the payloads of a file or of standard input, and returns the status: 0 if the file ends with a payload, 1 if it ends inside one or
/// has a fault.
pub fn list<W: Write>(
    rt: &HostRuntime,
    name: &str,
    lines: Lines,
    out: &mut W,
) -> Result<u8, Failure>
    ensures { IfOk result (λ status. status ≤ REFUSED) }
{
    let mut file = match Input::open(rt, name) {
        Ok(file) => file,
        Err(cause) => return Err(of_system(rt.alloc(), name, cause)),
    };
    let mut piece = vec![in rt.alloc(); 0; PIECE]?;
    list_all(rt.alloc(), &mut file, name, lines, &mut piece, out)
}

/// Lists the payloads of a file that is open, which is read to its end or up to a fault.
fn list_all<F: Read, W: Write>(
    alloc: Global,
    file: &mut F,
    name: &str,
    lines: Lines,
    piece: &mut [u8],
    out: &mut W,
) -> Result<u8, Failure>
    ensures { IfOk result (λ status. status ≤ REFUSED) }
{
    let mut listing = Listing::new(alloc);
    // A `for`, since the prover asks that each loop ends.
    for _ in 0..u64::MAX {
        let count = match read_some(file, piece) {
            Ok(0) => break,
            Ok(count) => count,
            Err(cause) => return Err(of_system(alloc, name, cause)),
        };
        match list_piece(&mut listing, lines, &piece[..count], out) {
            Ok(true) => {}
            Ok(false) => return Ok(REFUSED),
            Err(ListFault::Output(cause)) => return Err(Failure::Output(cause)),
            Err(ListFault::Memory) => return Err(Failure::Memory),
        }
    }
    write_rest(listing.rest(), out)
}

/// Writes how many bytes of the last payload have come, and returns the status.
fn write_rest<W: Write>(rest: u64, out: &mut W) -> Result<u8, Failure>
    ensures { IfOk result (λ status. status ≤ REFUSED) }
{
    writeln!(out, "rest {rest}")?;
    Ok(if rest == 0 { DONE } else { REFUSED })
}
