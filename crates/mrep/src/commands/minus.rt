//! `mrep minus`: a GTID set without the members of another.

ghost use Rattle.std.specs.Prelude.{◌≡◌, [], string_bytes, IfOk};
ghost use Rattle.std.specs.FinSet as set;
ghost use Rattle.gtid.specs.Identifier.{Ids};
ghost use Rattle.gtid.specs.Text.{IsRead, AppendsText};

use crate::report::failure::{DONE, Failure, over_argument};
use clap::ArgMatches;
use command_line::{ArgumentFault, parse_set, word};
use formats::text_of;
use std::alloc::Global;
use std::io::Write;

/// Prints a set without the members of another. Both are given as texts.
pub fn minus<R: AllocGlobal, W: Write>(
    rt: &R,
    given: &ArgMatches<'_>,
    out: &mut W,
) -> Result<u8, Failure>
    ensures { IfOk result (λ status. status ≡ DONE) }
{
    let text = difference(rt.alloc(), word(given, "X"), word(given, "Y"));
    let text = over_argument(rt.alloc(), text)?;
    writeln!(out, "{text}")?;
    Ok(DONE)
}

/// The text of a set without the members of another.
///
/// Clauses:
/// - the text that `mrep minus` prints is that of the difference of the two sets
fn difference<'a>(alloc: Global, left: &str, right: &str) -> Result<String, ArgumentFault<'a>>
    ensures { IfOk result (λ text. (x y : Ids) → IsRead left.now x → IsRead right.now y
        → AppendsText (set.difference x y) [] (string_bytes text)) }
{
    let mut kept = parse_set(alloc, "X", left)?;
    let taken = parse_set(alloc, "Y", right)?;
    let Ok(()) = kept.subtract(&taken) else {
        return Err(ArgumentFault::Memory);
    };
    let text = text_of(alloc, &kept)?;
    Ok(text)
}
