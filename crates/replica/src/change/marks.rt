//! The marks of first copies in an executed set.

ghost use Rattle.std.specs.Prelude.{◌≡◌, ◌/◌, ◌==◌, ◌&&◌, ◌||◌, Bool, true, false, not, IfSome, IfNone, slice_index};
ghost use Rattle.std.specs.FinSet as set;
ghost use Rattle.std.specs.List.{list_all};
ghost use Rattle.std.specs.Str.{bytes_eq};
ghost use Rattle.replica.specs.Marks.{is_of_copy, begun_number, ended_number, given_up_number, marks_copy, is_unfinished, NoneUnfinished, NoOtherUnfinished, is_left_open};

use gtid::{Gtid, GtidSet, Spans};

/// The number of the GTID that is executed as a copy begins: none of its transactions with rows has it.
const BEGUN: u64 = Gtid::GREATEST - 1;
/// The number of the GTID that is executed once all rows of a copy are there.
const ENDED: u64 = Gtid::GREATEST;
/// The number of the GTID that is executed where a copy is given up, before its rows are taken out.
const GIVEN_UP: u64 = Gtid::GREATEST - 2;
/// The source of no copy.
const NO_COPY: [u8; 16] = [0; 16];

/// Whether the UUID of a source is that of a copy.
pub(crate) fn is_of_copy(source: &[u8; 16]) -> bool
    ensures { result ≡ is_of_copy source.now }
{
    source[6] / 16 == 5
}

/// The GTID that is executed as a copy of this source begins.
pub(crate) fn begun_mark(source: [u8; 16]) -> Gtid
    ensures source { result.source ≡ source }
    ensures number { result.number ≡ begun_number }
{
    Gtid {
        source,
        number: BEGUN,
    }
}

/// The GTID that is executed once all rows of a copy of this source are there.
pub fn ended_mark(source: [u8; 16]) -> Gtid
    ensures source { result.source ≡ source }
    ensures number { result.number ≡ ended_number }
{
    Gtid {
        source,
        number: ENDED,
    }
}

/// The GTID that is executed where a copy of this source is given up: it is not loaded again.
pub fn given_up_mark(source: [u8; 16]) -> Gtid
    ensures source { result.source ≡ source }
    ensures number { result.number ≡ given_up_number }
{
    Gtid {
        source,
        number: GIVEN_UP,
    }
}

/// Whether a GTID says of a copy that it has begun, has ended or is given up. Such a one is not skipped: rows would be missing.
pub fn is_mark(gtid: Gtid) -> bool
    ensures { result ≡ marks_copy gtid.source gtid.number }
{
    is_of_copy(&gtid.source)
        && (gtid.number == BEGUN || gtid.number == ENDED || gtid.number == GIVEN_UP)
}

/// Whether a set says that a copy of this source has begun, and neither it nor the other one says that it has ended.
fn is_left_open(gtids: &GtidSet, more: &GtidSet, source: &[u8; 16]) -> bool
    ensures { result ≡ is_left_open gtids.now more.now source.now }
{
    let ended = ended_mark(*source);
    is_of_copy(source)
        && gtids.contains(begun_mark(*source))
        && !(gtids.contains(ended) || more.contains(ended))
}

/// The source of one of these spans, but this one, of which a copy has begun by a set and not ended by it or the other one.
fn first_left_open(
    spans: Spans<'_>,
    gtids: &GtidSet,
    more: &GtidSet,
    but: &[u8; 16],
) -> Option<[u8; 16]>
    ensures some { IfSome result (λ source. (is_left_open gtids.now more.now source ≡ true)
        × (bytes_eq source but.now ≡ false)) }
    ensures none { IfNone result (list_all (λ span. not (is_left_open gtids.now more.now span.source
        && not (bytes_eq span.source but.now))) spans.entry ≡ true) }
{
    for span in spans {
        if is_left_open(gtids, more, &span.source) && span.source != *but {
            return Some(span.source);
        }
    }
    None
}

/// The source of a first copy that has begun by an executed set and not ended; if there are several, of one of them.
///
/// Clauses: `some`, `none`: the above.
pub fn unfinished_copy(executed: &GtidSet) -> Option<[u8; 16]>
    ensures some { IfSome result (λ source. is_unfinished executed.now source ≡ true) }
    ensures none { IfNone result (NoneUnfinished executed.now) }
{
    first_left_open(executed.spans(), executed, executed, &NO_COPY)
}

/// The source of another copy than this one that has begun and not ended.
pub(crate) fn other_unfinished(executed: &GtidSet, source: &[u8; 16]) -> Option<[u8; 16]>
    ensures some { IfSome result (λ other. (is_unfinished executed.now other ≡ true)
        × (bytes_eq other source.now ≡ false)) }
    ensures none { IfNone result (NoOtherUnfinished executed.now source.now) }
{
    first_left_open(executed.spans(), executed, executed, source)
}

/// The source of a copy that would be unfinished if this set were executed too, where none is by now.
pub(crate) fn unfinished_with(executed: &GtidSet, gtids: &GtidSet) -> Option<[u8; 16]>
    ensures some { IfSome result (λ source. is_unfinished (set.union executed.now gtids.now) source
        ≡ true) }
    ensures none { IfNone result (NoneUnfinished executed.now
        → NoneUnfinished (set.union executed.now gtids.now)) }
{
    first_left_open(gtids.spans(), gtids, executed, &NO_COPY)
}

/// Whether a copy of this source has begun and not ended.
pub(crate) fn is_unfinished(executed: &GtidSet, source: &[u8; 16]) -> bool
    ensures { result ≡ is_unfinished executed.now source.now }
{
    is_left_open(executed, executed, source)
}
