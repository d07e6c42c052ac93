//! Two lists of intervals combined into one.

ghost use Rattle.std.specs.Prelude.{◌≡◌, ℕ, ◌+◌, ◌≤◌, ◌<◌, ◌^◌, ◌||◌, ◌&&◌, not, length, [], IfOk, OnOk, IfErr, IfNone, IfSome, nat_le, nat_lt};
ghost use Rattle.gtid.specs.Interval.{is_within, has, AreLeast};
ghost use Rattle.gtid.specs.Combination.{keeps};
ghost use Rattle.gtid.specs.Merged.{AreLeastBefore, has_left, IsFrom};

use crate::fault::GtidFault;
use crate::interval::Interval;
use std::alloc::Global;

/// Which numbers of two sets are kept.
#[derive(Clone, Copy, Debug, PartialEq, Eq)]
pub(crate) enum Combination {
    /// Those of either.
    Union,
    /// Those of the first that are not in the second.
    Difference,
}

/// The intervals of two lists in the order of their beginnings.
#[derive(Drop)]
struct Merged<'a> {
    left: &'a [Interval],
    right: &'a [Interval],
}

impl Merged<'_> {
    /// Takes the interval that begins first.
    fn next(&mut self) -> Option<Interval>
        ensures none { IfNone result ((self.old.left.now ≡ []) × (self.old.right.now ≡ [])) }
        ensures same { IfSome result (λ first. (n : ℕ)
            → has_left self.old n ≡ (is_within n first || has_left self.new n)) }
        ensures first { IfSome result (λ first. (place : ℕ) → IsFrom place self.old
            → (place ≤ first.lo) × (first.lo < first.hi) × (first.hi < 2 ^ 63)
            × IsFrom first.lo self.new) }
        ensures fewer { IfSome result (λ _. length self.new.left.now + length self.new.right.now
            < length self.old.left.now + length self.old.right.now) }
    {
        match (self.left, self.right) {
            ([], []) => None,
            ([first, rest @ ..], []) => {
                self.left = rest;
                Some(*first)
            }
            ([first, rest @ ..], [other, ..]) if first.lo <= other.lo => {
                self.left = rest;
                Some(*first)
            }
            (_, [first, rest @ ..]) => {
                self.right = rest;
                Some(*first)
            }
        }
    }
}

/// The least intervals of the numbers of either list.
fn union(alloc: Global, left: &[Interval], right: &[Interval]) -> Result<Vec<Interval>, GtidFault>
    requires left { AreLeast 0 left.now }
    requires right { AreLeast 0 right.now }
    ensures least { IfOk result (λ joined. AreLeast 0 joined.items) }
    ensures ok { IfOk result (λ joined. (n : ℕ)
        → has joined.items n ≡ (has left.now n || has right.now n)) }
    ensures err { IfErr result (λ fault. fault ≡ GtidFault.Memory) }
{
    let most = left.len().saturating_add(right.len());
    let mut joined = Vec::with_capacity(alloc, most)?;
    let mut merged = Merged { left, right };
    let Some(mut last) = merged.next() else {
        return Ok(joined);
    };
    while let Some(next) = merged.next() {
        if next.lo <= last.hi {
            last.hi = last.hi.max(next.hi);
        } else {
            joined.push(last)?;
            last = next;
        }
    }
    joined.push(last)?;
    Ok(joined)
}

/// Appends the interval from `lo` to `hi`, unless it is empty.
fn push_some(intervals: &mut Vec<Interval>, lo: u64, hi: u64) -> Result<(), GtidFault>
    requires { hi < 2 ^ 63 }
    ensures least { OnOk result ((before after : ℕ) → before ≤ lo → before ≤ after
        → (lo < hi → hi < after) → AreLeastBefore 0 before intervals.old.items
        → AreLeastBefore 0 after intervals.new.items) }
    ensures ok { OnOk result ((n : ℕ) → has intervals.new.items n
        ≡ (has intervals.old.items n || (nat_le lo n && nat_lt n hi))) }
    ensures err { IfErr result (λ fault. fault ≡ GtidFault.Memory) }
{
    if lo < hi {
        intervals.push(Interval { lo, hi })?;
    }
    Ok(())
}

/// The least intervals of the numbers of the first list that are not in the second.
fn difference(
    alloc: Global,
    left: &[Interval],
    right: &[Interval],
) -> Result<Vec<Interval>, GtidFault>
    requires left { AreLeast 0 left.now }
    requires right { AreLeast 0 right.now }
    ensures least { IfOk result (λ kept. AreLeast 0 kept.items) }
    ensures ok { IfOk result (λ kept. (n : ℕ) → has kept.items n
        ≡ (has left.now n && not (has right.now n))) }
    ensures err { IfErr result (λ fault. fault ≡ GtidFault.Memory) }
{
    let most = left.len().saturating_add(right.len());
    let mut kept = Vec::with_capacity(alloc, most)?;
    let mut pieces = left;
    let mut cuts = right;
    let mut done = 0;
    while let [piece, rest @ ..] = pieces {
        let lo = piece.lo.max(done);
        match cuts {
            [cut, others @ ..] if cut.lo < piece.hi => {
                push_some(&mut kept, lo, cut.lo)?;
                done = cut.hi;
                cuts = others;
            }
            _ => {
                push_some(&mut kept, lo, piece.hi)?;
                pieces = rest;
            }
        }
    }
    Ok(kept)
}

/// The least intervals of the numbers that are kept, in one pass over both lists.
pub(crate) fn combine(
    alloc: Global,
    combination: Combination,
    left: &[Interval],
    right: &[Interval],
) -> Result<Vec<Interval>, GtidFault>
    requires left { AreLeast 0 left.now }
    requires right { AreLeast 0 right.now }
    ensures least { IfOk result (λ combined. AreLeast 0 combined.items) }
    ensures ok { IfOk result (λ combined. (n : ℕ)
        → has combined.items n ≡ keeps combination (has left.now n) (has right.now n)) }
    ensures err { IfErr result (λ fault. fault ≡ GtidFault.Memory) }
{
    if right.is_empty() {
        return Ok(Vec::from_slice(alloc, left)?);
    }
    match combination {
        Combination::Union => union(alloc, left, right),
        Combination::Difference => difference(alloc, left, right),
    }
}
