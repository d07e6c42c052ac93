//! The first bytes of length-encoded integers. MySQL Source Documentation, "Client/Server Protocol", the page "Integer
//! Types": `Protocol::LengthEncodedInteger`.

/// The greatest integer that is its own encoding, in one byte.
pub const MOST_IN_ONE_BYTE: u8 = 250;

/// The byte before an integer of two bytes.
pub const TWO_BYTES: u8 = 0xfc;

/// The byte before an integer of three bytes.
pub const THREE_BYTES: u8 = 0xfd;

/// The byte before an integer of eight bytes.
pub const EIGHT_BYTES: u8 = 0xfe;
