//! The file that has the password of an account.

use crate::fault::FileFault;
use crate::input::Input;
use std::fs;
use std::io::Read;
use std::os::unix::fs::MetadataExt;

/// How long a password may be, in bytes.
const LONGEST_PASSWORD: u64 = 65_536;

const NO_PASSWORD: &str = "a password has at most 65,536 bytes";

/// The bits of a file's mode by which its group and others may read it.
const OTHERS_READ: u32 = 0o044;

/// The bytes of a file with a password, or of standard input. More than a password and a line feed may have are refused.
pub fn read_password(rt: &HostRuntime, name: &str) -> Result<Vec<u8>, FileFault> {
    let mut bytes = Vec::new(rt.alloc());
    let most = LONGEST_PASSWORD + 1;
    let input = Input::open(rt, name)?;
    input.take(most + 1).read_to_end(&mut bytes)?;
    if bytes.len() as u64 > most {
        return Err(FileFault::Unusable(NO_PASSWORD));
    }
    Ok(bytes)
}

/// Whether a regular file may be read by others than its owner.
pub fn others_may_read(rt: &HostRuntime, name: &str) -> bool {
    match fs::metadata(rt, name) {
        Ok(metadata) => metadata.is_file() && metadata.mode() & OTHERS_READ != 0,
        Err(_) => false,
    }
}
