//! One GTID.

ghost use Rattle.std.specs.Prelude.{◌≡◌, ◌≤◌, ◌-◌, ◌^◌, ◌↔◌, IsSome, IfSome};

/// A global transaction identifier: a source and the number of one of its transactions.
#[derive(Clone, Copy, Debug, PartialEq, Eq)]
pub struct Gtid {
    /// The sixteen bytes of the source's UUID.
    pub source: [u8; 16],
    /// The transaction number, from 1 to [`Gtid::GREATEST`].
    pub number: u64,
    ghost at_least_one: { 1 ≤ number },
    ghost at_most: { number ≤ 2 ^ 63 - 2 },
}

impl Gtid {
    /// The greatest transaction number, 2^63 - 2.
    pub const GREATEST: u64 = 9_223_372_036_854_775_806;

    /// The GTID with this source and number, exactly where the number is from 1 to 2^63 - 2.
    ///
    /// Clauses: `in_range`, `parts`: the above.
    pub fn new(source: [u8; 16], number: u64) -> Option<Gtid>
        ensures in_range { IsSome result ↔ ((1 ≤ number) × (number ≤ Self.GREATEST)) }
        ensures parts { IfSome result (λ gtid. (gtid.source ≡ source) × (gtid.number ≡ number)) }
    {
        if number == 0 || number > Gtid::GREATEST {
            return None;
        }
        Some(Gtid { source, number })
    }
}
