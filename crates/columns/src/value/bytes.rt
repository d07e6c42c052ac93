//! Bytes of cells.

ghost use Rattle.std.specs.Prelude.{◌≡◌, ◌<◌, ◌≤◌, ◌+◌, ◌++◌, ◌^◌, ℕ, length, vec_len, vec_capacity, OnOk, OnErr};
ghost use Rattle.byteorder.specs.Endian.{big_bytes};

use byteorder::{BigEndian, ByteOrder};
use std::alloc::AllocError;

/// The number that at most eight bytes are, the highest first; 0 of none.
pub(crate) fn read_big(bytes: &[u8]) -> u64
    requires { length bytes.now ≤ 8 }
    ensures bytes { bytes.now ≡ big_bytes (length bytes.now) result }
    ensures small { result < 256 ^ length bytes.now }
    ensures only { (n : ℕ) → n < 256 ^ length bytes.now → bytes.now ≡ big_bytes (length bytes.now) n
        → result ≡ n }
{
    if bytes.is_empty() {
        return 0;
    }
    BigEndian::read_uint(bytes, bytes.len())
}

/// Appends bytes. The only error is that the vector lacks the room and cannot grow. It leaves the vector as it was.
pub(crate) fn append(bytes: &[u8], out: &mut Vec<u8>) -> Result<(), AllocError>
    ensures ok { OnOk result (out.new.items ≡ out.old.items ++ bytes.now) }
    ensures err { OnErr result (out.new.items ≡ out.old.items) }
    ensures full { OnErr result (vec_capacity out.old < vec_len out.old + length bytes.now) }
{
    out.extend_from_slice(bytes)
}
