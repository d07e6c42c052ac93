//! Groups made of spans in any order.

ghost use Rattle.std.specs.Prelude.{◌≡◌, ◌<◌, ◌≤◌, ◌||◌, ◌∷◌, length, IfOk, IfErr, OnErr, IfSome, IfNone};
ghost use Rattle.std.specs.List.{list_any, AllByRecursion};
ghost use Rattle.gtid.specs.Identifier.{Id, id_cmp};
ghost use Rattle.gtid.specs.Span.{is_in, IsLawfulSpan};
ghost use Rattle.gtid.specs.Group.{Ascend, sources, is_of, is_listed};
ghost use Rattle.gtid.specs.Gathering.{start, SpansRise, AreAbove, IsFirst, IsOtherSource};

use crate::fault::GtidFault;
use crate::group::Group;
use crate::interval::Interval;
use crate::span::Span;
use std::alloc::Global;
use std::cmp::Ordering;

/// The groups of the GTIDs that are in at least one span.
///
/// The sort takes linear time if the spans ascend already, as those of a printed text do.
pub(crate) fn gather(alloc: Global, spans: Vec<Span>) -> Result<Vec<Group>, GtidFault>
    requires { AllByRecursion IsLawfulSpan spans.items }
    ensures ascend { IfOk result (λ groups. Ascend (sources groups.items)) }
    ensures ok { IfOk result (λ groups. (q : Id)
        → is_listed q groups.items ≡ list_any (is_in q) spans.items) }
    ensures some { OnErr result (0 < length spans.items) }
    ensures err { IfErr result (λ fault. fault ≡ GtidFault.Memory) }
{
    let mut spans = spans;
    spans.sort_unstable_by(|a, b| order(a, b));
    gather_rising(alloc, &spans)
}

/// Compares two spans by where they begin.
fn order(a: &Span, b: &Span) -> Ordering
    ensures { result ≡ id_cmp (start a.now) (start b.now) }
{
    if a.source == b.source {
        return a.lo.cmp(&b.lo);
    }
    a.source.cmp(&b.source)
}

/// The groups of the GTIDs that are in at least one span, for spans in the order of their beginnings.
fn gather_rising(alloc: Global, spans: &[Span]) -> Result<Vec<Group>, GtidFault>
    requires lawful { AllByRecursion IsLawfulSpan spans.now }
    requires rise { SpansRise spans.now }
    ensures ascend { IfOk result (λ groups. Ascend (sources groups.items)) }
    ensures ok { IfOk result (λ groups. (q : Id)
        → is_listed q groups.items ≡ list_any (is_in q) spans.now) }
    ensures some { OnErr result (0 < length spans.now) }
    ensures err { IfErr result (λ fault. fault ≡ GtidFault.Memory) }
{
    let mut groups = Vec::new(alloc);
    let mut left = spans;
    while let [first, after @ ..] = left {
        let (group, others) = join(alloc, *first, after)?;
        left = others;
        groups.push(group)?;
    }
    Ok(groups)
}

/// The group of the first span's source, and the spans after that source. `after` are the spans after the first.
fn join<'a>(alloc: Global, first: Span, after: &'a [Span]) -> Result<(Group, &'a [Span]), GtidFault>
    requires lawful { AllByRecursion IsLawfulSpan (first ∷ after.now) }
    requires rise { SpansRise (first ∷ after.now) }
    ensures source { IfOk result (λ joined. joined.0.source ≡ first.source) }
    ensures listed { IfOk result (λ joined. (q : Id)
        → list_any (is_in q) (first ∷ after.now) ≡
        (is_of q joined.0 || list_any (is_in q) joined.1.now)) }
    ensures lawful { IfOk result (λ joined. AllByRecursion IsLawfulSpan joined.1.now) }
    ensures rise { IfOk result (λ joined. SpansRise joined.1.now) }
    ensures above { IfOk result (λ joined. AreAbove first.source joined.1.now) }
    ensures fewer { IfOk result (λ joined. length joined.1.now ≤ length after.now) }
    ensures err { IfErr result (λ fault. fault ≡ GtidFault.Memory) }
{
    let source = first.source;
    let mut joined = Vec::new(alloc);
    let mut last = Interval {
        lo: first.lo,
        hi: first.hi,
    };
    let mut left = after;
    while let Some((next, others)) = first_of(&source, left) {
        left = others;
        if next.lo <= last.hi {
            last.hi = last.hi.max(next.hi);
        } else {
            joined.push(last)?;
            last = next;
        }
    }
    joined.push(last)?;
    let group = Group {
        source,
        intervals: joined,
    };
    Ok((group, left))
}

/// The interval of the first span and the spans after it, if the first span is the source's.
fn first_of<'a>(source: &[u8; 16], spans: &'a [Span]) -> Option<(Interval, &'a [Span])>
    ensures some { IfSome result (λ taken. IsFirst source.now spans.now taken.0 taken.1.now) }
    ensures none { IfNone result (IsOtherSource source.now spans.now) }
{
    match spans {
        [span, others @ ..] if span.source == *source => {
            let interval = Interval {
                lo: span.lo,
                hi: span.hi,
            };
            Some((interval, others))
        }
        _ => None,
    }
}
