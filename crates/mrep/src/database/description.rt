//! The description of columns that a command is given.

use crate::report::failure::{Failure, of_description, of_system, unusable};
use columns::Description;
use first_copy::bytes_digest;
use rows::DescribedTables;
use std::alloc::Global;
use std::io::Read;
use std::{fs, io};

/// How long a description may be, in bytes.
const LONGEST: u64 = 1 << 28;

const TOO_LONG: &str =
    "a description has at most 256 MiB: name the tables, each by an --only of `mrep columns`";

/// The tables whose description a file has.
pub fn read_tables(rt: &HostRuntime, name: &str) -> Result<DescribedTables, Failure> {
    let description = read_description(rt, name)?;
    Ok(DescribedTables::new(description))
}

/// The description that a file has.
pub fn read_description(rt: &HostRuntime, name: &str) -> Result<Description, Failure> {
    let text = text_in(rt, name)?;
    description_of(rt.alloc(), name, &text)
}

/// The description that a file has, and the SHA-1 of its text.
pub fn read_with_digest(rt: &HostRuntime, name: &str) -> Result<(Description, [u8; 20]), Failure> {
    let text = text_in(rt, name)?;
    let description = description_of(rt.alloc(), name, &text)?;
    Ok((description, bytes_digest(&text)))
}

/// The description that the text of a file of this name is.
fn description_of(alloc: Global, name: &str, text: &[u8]) -> Result<Description, Failure> {
    match Description::read(alloc, text) {
        Ok(description) => Ok(description),
        Err(fault) => Err(of_description(alloc, name, text, fault)),
    }
}

/// The text of a file, which is no longer than a description may be.
fn text_in(rt: &HostRuntime, name: &str) -> Result<Vec<u8>, Failure> {
    match read_text(rt, name) {
        Ok(text) if text.len() as u64 > LONGEST => Err(unusable(rt.alloc(), name, TOO_LONG)),
        Ok(text) => Ok(text),
        Err(cause) => Err(of_system(rt.alloc(), name, cause)),
    }
}

/// The bytes of a file, of which one more is read than a description may have.
fn read_text(rt: &HostRuntime, name: &str) -> io::Result<Vec<u8>> {
    let mut text = Vec::new(rt.alloc());
    let file = fs::open(rt, name)?;
    file.take(LONGEST + 1).read_to_end(&mut text)?;
    Ok(text)
}
