//! The transaction numbers of one source, as intervals.

ghost use Rattle.std.specs.Prelude.{◌≡◌, ◌≢◌, ℕ, ◌≤◌, ◌<◌, ◌-◌, ◌^◌, ◌||◌, ◌↔◌, true, false, not, nat_eq, length, slice_index_or, vec_len, vec_capacity, None, IsTrue, IsOk, IfSome, IfNone, IfOk, OnOk, OnErr, Ok, Err};
ghost use Rattle.std.specs.List.{AllWithin};
ghost use Rattle.gtid.specs.Interval.{has, is_within, AreLeast, LastReaches, GoesAt, IsNear, HasNear};
ghost use Rattle.gtid.specs.Beside.{Touches};
ghost use Rattle.gtid.specs.declared.interval.Interval.{Interval};

use crate::fault::GtidFault;

/// The numbers from `lo` up to but not including `hi`.
#[derive(Clone, Copy, Debug, PartialEq, Eq)]
pub(crate) struct Interval {
    pub(crate) lo: u64,
    pub(crate) hi: u64,
}

impl Interval {
    ghost use Rattle.std.specs.Prelude.{◌≡◌, ◌+◌, ◌-◌, ◌≤◌, ◌^◌};

    /// The interval of one number.
    pub(crate) fn of(number: u64) -> Interval
        requires { number ≤ 2 ^ 63 - 2 }
        ensures { result ≡ record { lo = number; hi = number + 1 } }
    {
        Interval {
            lo: number,
            hi: number + 1,
        }
    }
}

/// Whether a number is in one of the intervals.
pub(crate) fn contains(intervals: &[Interval], number: u64) -> bool
    requires { AreLeast 0 intervals.now }
    ensures { result ≡ has intervals.now number }
{
    place(intervals, number).is_none()
}

/// Whether each number of the first is in the second.
pub(crate) fn is_subset(intervals: &[Interval], of: &[Interval]) -> bool
    requires intervals { AreLeast 0 intervals.now }
    requires of { AreLeast 0 of.now }
    ensures { IsTrue result ↔ ((n : ℕ) → has intervals.now n ≡ true → has of.now n ≡ true) }
{
    for interval in intervals {
        if !lies_in(*interval, of) {
            return false;
        }
    }
    true
}

/// Does what `is_subset` does in one pass over both, which takes linear time however many there are of either.
pub(crate) fn is_subset_in_one_pass(intervals: &[Interval], of: &[Interval]) -> bool
    requires intervals { AreLeast 0 intervals.now }
    requires of { AreLeast 0 of.now }
    ensures { IsTrue result ↔ ((n : ℕ) → has intervals.now n ≡ true → has of.now n ≡ true) }
{
    let mut parts = intervals;
    let mut left = of;
    while let [part, rest @ ..] = parts {
        let [first, others @ ..] = left else {
            return false;
        };
        if first.hi < part.hi {
            left = others;
            continue;
        }
        if part.lo < first.lo {
            return false;
        }
        parts = rest;
    }
    true
}

/// Whether no number is in both, in one pass over both.
pub(crate) fn are_apart_in_one_pass(intervals: &[Interval], of: &[Interval]) -> bool
    requires intervals { AreLeast 0 intervals.now }
    requires of { AreLeast 0 of.now }
    ensures { IsTrue result ↔ ((n : ℕ) → has intervals.now n ≡ true → has of.now n ≡ false) }
{
    let mut parts = intervals;
    let mut left = of;
    while let [part, rest @ ..] = parts {
        let [first, others @ ..] = left else {
            return true;
        };
        if first.hi <= part.lo {
            left = others;
            continue;
        }
        if first.lo < part.hi {
            return false;
        }
        parts = rest;
    }
    true
}

/// Whether each number of an interval is in the others.
fn lies_in(interval: Interval, of: &[Interval]) -> bool
    requires some { interval.lo < interval.hi }
    requires of { AreLeast 0 of.now }
    ensures { IsTrue result ↔ ((n : ℕ) → is_within n interval ≡ true → has of.now n ≡ true) }
{
    let at = of.partition_point(|other| other.hi < interval.hi);
    match of.get(at) {
        Some(other) => other.lo <= interval.lo,
        None => false,
    }
}

/// How many intervals have a `hi` below a number that is in none of them; `None` for a number that is in one. Numbers
/// mostly come in order, so the last interval is looked at first.
pub(crate) fn place(intervals: &[Interval], number: u64) -> Option<usize>
    requires { AreLeast 0 intervals.now }
    ensures some { IfSome result (GoesAt intervals.now number) }
    ensures none { IfNone result (has intervals.now number ≡ true) }
{
    if !reaches(intervals, number) {
        return Some(intervals.len());
    }
    let at = place_within(intervals, number);
    let next = intervals[at];
    if next.hi == number {
        return Some(at);
    }
    if next.lo <= number {
        return None;
    }
    Some(at)
}

/// The neighbours of a number that goes to this place: the interval that ends just before it, and the one that begins just
/// after it.
pub(crate) fn beside(
    intervals: &[Interval],
    at: usize,
    number: u64,
) -> (Option<Interval>, Option<Interval>)
    requires least { AreLeast 0 intervals.now }
    requires number { (1 ≤ number) × (number ≤ 2 ^ 63 - 2) }
    requires goes { GoesAt intervals.now number at }
    ensures { Touches number result.0 result.1 intervals.now }
{
    let Some(first) = intervals.get(at).copied() else {
        return (None, None);
    };
    if first.hi == number {
        return (Some(first), begins_at(intervals, at + 1, number + 1));
    }
    if first.lo == number + 1 {
        return (None, Some(first));
    }
    (None, None)
}

/// Whether a number that goes to this place touches an interval there, so that adding it takes no memory.
pub(crate) fn touches(intervals: &[Interval], at: usize, number: u64) -> bool
    requires least { AreLeast 0 intervals.now }
    requires number { (1 ≤ number) × (number ≤ 2 ^ 63 - 2) }
    requires goes { GoesAt intervals.now number at }
    ensures beside { IsTrue result → HasNear number intervals.now }
    ensures apart { result ≡ false → (n : ℕ) → IsNear n number → has intervals.now n ≡ false }
{
    let Some(first) = intervals.get(at).copied() else {
        return false;
    };
    if first.hi == number {
        return true;
    }
    first.lo == number + 1
}

/// The interval at an index, if it begins at the number.
fn begins_at(intervals: &[Interval], at: usize, number: u64) -> Option<Interval>
    ensures some { IfSome result (λ i. (at < length intervals.now) × (i.lo ≡ number)
        × ((d : Interval) → i ≡ slice_index_or intervals.now at d)) }
    ensures none { IfNone result ((d : Interval) → at < length intervals.now
        → (slice_index_or intervals.now at d).lo ≢ number) }
{
    let Some(first) = intervals.get(at).copied() else {
        return None;
    };
    if first.lo != number {
        return None;
    }
    Some(first)
}

/// Adds a number, and returns whether it is new. The only error is `Memory`, and only for a new number with
/// neither neighbour in the intervals.
pub(crate) fn insert(intervals: &mut Vec<Interval>, number: u64) -> Result<bool, GtidFault>
    requires least { AreLeast 0 intervals.old.items }
    requires number { (1 ≤ number) × (number ≤ 2 ^ 63 - 2) }
    ensures least { AreLeast 0 intervals.new.items }
    ensures answer { IfOk result (λ new. new ≡ not (has intervals.old.items number)) }
    ensures ok { OnOk result ((n : ℕ) → has intervals.new.items n
        ≡ (nat_eq n number || has intervals.old.items n)) }
    ensures there { has intervals.old.items number ≡ true → result ≡ Ok false }
    ensures err { OnErr result ((result ≡ Err GtidFault.Memory)
        × (intervals.new.items ≡ intervals.old.items)) }
    ensures near { (n : ℕ) → IsNear n number → has intervals.old.items n ≡ true → IsOk result }
{
    let Some(at) = place(intervals, number) else {
        return Ok(false);
    };
    insert_at(intervals, at, number)?;
    Ok(true)
}

/// Adds a number at the place to which it goes. The only error is `Memory`, and only for a number with neither neighbour
/// in the intervals.
pub(crate) fn insert_at(
    intervals: &mut Vec<Interval>,
    at: usize,
    number: u64,
) -> Result<(), GtidFault>
    requires least { AreLeast 0 intervals.old.items }
    requires number { (1 ≤ number) × (number ≤ 2 ^ 63 - 2) }
    requires goes { GoesAt intervals.old.items number at }
    ensures least { AreLeast 0 intervals.new.items }
    ensures ok { OnOk result ((n : ℕ) → has intervals.new.items n
        ≡ (nat_eq n number || has intervals.old.items n)) }
    ensures err { OnErr result ((result ≡ Err GtidFault.Memory)
        × (intervals.new.items ≡ intervals.old.items)) }
    ensures room { vec_len intervals.old < vec_capacity intervals.old → IsOk result }
    ensures near { (n : ℕ) → IsNear n number → has intervals.old.items n ≡ true → IsOk result }
{
    if at == intervals.len() {
        intervals.push(Interval::of(number))?;
        return Ok(());
    }
    let next = intervals[at];
    if next.hi == number {
        extend(intervals, at, number);
        return Ok(());
    }
    if next.lo == number + 1 {
        intervals[at].lo = number;
        return Ok(());
    }
    intervals.insert(at, Interval::of(number))?;
    Ok(())
}

/// Whether some interval's `hi` is the number or above.
fn reaches(intervals: &[Interval], number: u64) -> bool
    requires { AreLeast 0 intervals.now }
    ensures ends { IsTrue result → LastReaches intervals.now number }
    ensures before { result ≡ false → AllWithin (λ i. i.hi
        < number) intervals.now 0 (length intervals.now) }
{
    match intervals {
        [.., last] => number <= last.hi,
        [] => false,
    }
}

/// Does the work of `place` if some interval's `hi` is the number or above, whether or not the number is in one. Not
/// inlined, so that the code without it stays short.
#[inline(never)]
fn place_within(intervals: &[Interval], number: u64) -> usize
    requires least { AreLeast 0 intervals.now }
    requires reaches { LastReaches intervals.now number }
    ensures within { result < length intervals.now }
    ensures before { AllWithin (λ i. i.hi < number) intervals.now 0 result }
    ensures after { AllWithin (λ i. number ≤ i.hi) intervals.now result (length intervals.now) }
{
    let last = intervals.len() - 1;
    if intervals[last].lo <= number {
        return last;
    }
    intervals.partition_point(|interval| interval.hi < number)
}

/// Adds the number at which an interval's `hi` is, and joins the interval with the next one if they now touch.
fn extend(intervals: &mut Vec<Interval>, at: usize, number: u64)
    requires least { AreLeast 0 intervals.old.items }
    requires number { number ≤ 2 ^ 63 - 2 }
    requires within { at < vec_len intervals.old }
    requires end { (d : Interval) → (slice_index_or intervals.old.items at d).hi ≡ number }
    ensures least { AreLeast 0 intervals.new.items }
    ensures new { has intervals.old.items number ≡ false }
    ensures adds { (n : ℕ) → has intervals.new.items n
        ≡ (nat_eq n number || has intervals.old.items n) }
{
    let joined = match intervals.get(at + 1).copied() {
        Some(following) if following.lo == number + 1 => {
            intervals.remove(at + 1);
            following.hi
        }
        _ => number + 1,
    };
    intervals[at].hi = joined;
}
