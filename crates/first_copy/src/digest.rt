//! The SHA-1 of a text.

ghost use Rattle.std.specs.Prelude.{◌≡◌, ◌<◌, length, IfOk, IfSome};
ghost use Rattle.sha1.specs.Sha1.{sha1};

use replica::read_some;
use sha1::Sha1;
use std::io;
use std::io::Read;

/// The SHA-1 of all that a reader still gives, a piece at a time.
///
/// Clauses: the above.
pub fn text_digest<R: Read>(reader: &mut R, piece: &mut [u8]) -> io::Result<[u8; 20]>
    requires { 0 < length piece.old }
    ensures { IfOk result (λ digest. IfSome (R.remaining reader.old)
        (λ text. digest ≡ sha1 text)) }
{
    let mut hasher = Sha1::new();
    // A `for`, since the prover asks that each loop ends.
    for _ in 0..u64::MAX {
        let count = read_some(reader, piece)?;
        if count == 0 {
            return Ok(hasher.finalize());
        }
        hasher.update(&piece[..count]);
    }
    Err(io::Error::from(io::ErrorKind::FileTooLarge))
}

/// The SHA-1 of bytes.
///
/// Clauses: the above.
pub fn bytes_digest(bytes: &[u8]) -> [u8; 20]
    ensures { result ≡ sha1 bytes.now }
{
    let mut hasher = Sha1::new();
    hasher.update(bytes);
    hasher.finalize()
}
