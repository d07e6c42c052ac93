//! The spans next to a number.

ghost use Rattle.std.specs.Prelude.{◌≡◌};
ghost use Rattle.std.specs.Option.{option_map};
ghost use Rattle.gtid.specs.Identifier.{id};
ghost use Rattle.gtid.specs.Spans.{span};
ghost use Rattle.gtid.specs.Beside.{joined};

use crate::identifier::Gtid;
use crate::interval::Interval;
use crate::span::Span;

/// The neighbours of a GTID that is not in the set: the spans of its source that touch it. For a GTID in the set there
/// are none.
#[derive(Clone, Copy, Debug, PartialEq, Eq)]
pub struct Beside {
    /// The span that ends just before the number: its `hi` is the number.
    pub below: Option<Span>,
    /// The span that begins just after the number: its `lo` is the number + 1.
    pub above: Option<Span>,
}

impl Beside {
    /// The neighbours as spans of the source.
    pub(crate) fn of(source: [u8; 16], below: Option<Interval>, above: Option<Interval>) -> Beside
        ensures below { result.below ≡ option_map (span source) below }
        ensures above { result.above ≡ option_map (span source) above }
    {
        Beside {
            below: span_of(source, below),
            above: span_of(source, above),
        }
    }

    /// The one span that the number and its neighbours make together.
    ///
    /// Clauses: the above.
    pub fn joined(&self, gtid: Gtid) -> Span
        ensures { result ≡ joined (id gtid) self.now.below self.now.above }
    {
        let source = gtid.source;
        let lo = match self.below {
            Some(below) => below.lo,
            None => gtid.number,
        };
        let hi = match self.above {
            Some(above) => above.hi,
            None => gtid.number + 1,
        };
        Span { source, lo, hi }
    }
}

/// The span of an interval of the source.
fn span_of(source: [u8; 16], interval: Option<Interval>) -> Option<Span>
    ensures { result ≡ option_map (span source) interval }
{
    let interval = interval?;
    Some(Span {
        source,
        lo: interval.lo,
        hi: interval.hi,
    })
}
