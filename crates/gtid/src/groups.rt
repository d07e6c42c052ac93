//! The groups of a set, in the order of the bytes of their sources.

ghost use Rattle.std.specs.Prelude.{◌≡◌, ℕ, ◌⊎◌, ◌↔◌, ◌||◌, [], None, true, false, not, IsTrue, OnOk, OnErr, Ok, Err, IfOk, IfErr, IfSome, IfNone, IsOk, vec_capacity};
ghost use Rattle.gtid.specs.Identifier.{Id, id, is_one};
ghost use Rattle.gtid.specs.Interval.{has, AreLeast, IsNear};
ghost use Rattle.gtid.specs.Combination.{keeps};
ghost use Rattle.gtid.specs.Group.{Ascend, sources, is_listed, IsNext, IsNoHigher, Splits, IsGroupAt, IsGap};
ghost use Rattle.gtid.specs.Beside.{Among, TouchesAmong};
ghost use Rattle.gtid.specs.Reserved.{HasRoom};

use crate::combination::{Combination, combine};
use crate::fault::GtidFault;
use crate::group::Group;
use crate::identifier::Gtid;
use crate::interval;
use crate::interval::{Interval, is_subset, is_subset_in_one_pass};
use std::alloc::Global;
use std::cmp::Ordering;

/// The lowest source in two lists of groups.
fn lowest(left: &[Group], right: &[Group]) -> Option<[u8; 16]>
    ensures none { IfNone result ((left.now ≡ []) × (right.now ≡ [])) }
    ensures some { IfSome result (λ source. (IsNext source left.now × IsNoHigher source right.now)
        ⊎ (IsNoHigher source left.now × IsNext source right.now)) }
{
    match (left, right) {
        ([], []) => None,
        ([group, ..], []) | ([], [group, ..]) => Some(group.source),
        ([a, ..], [b, ..]) => match a.source.cmp(&b.source) {
            Ordering::Greater => Some(b.source),
            _ => Some(a.source),
        },
    }
}

/// The intervals of a source, and the groups after it. No group may be of a lower source.
fn split<'a>(groups: &'a [Group], source: &[u8; 16]) -> (&'a [Interval], &'a [Group])
    ensures { Splits groups.now source.now result.0.now result.1.now }
{
    match groups {
        [first, rest @ ..] if first.source == *source => (first.intervals.as_slice(), rest),
        _ => (&[], groups),
    }
}

/// The index of a source's group, or the index where it would be inserted. The last group is looked at first, since
/// most sets have one source.
fn find(groups: &[Group], source: &[u8; 16]) -> Result<usize, usize>
    requires { Ascend (sources groups.now) }
    ensures found { IfOk result (IsGroupAt source.now groups.now) }
    ensures absent { IfErr result (IsGap source.now groups.now) }
{
    match groups {
        [.., last] if last.source == *source => Ok(groups.len() - 1),
        _ => search(groups, source),
    }
}

/// Does the work of `find` by binary search. Not inlined, so that the code without it stays short.
#[inline(never)]
fn search(groups: &[Group], source: &[u8; 16]) -> Result<usize, usize>
    requires { Ascend (sources groups.now) }
    ensures found { IfOk result (IsGroupAt source.now groups.now) }
    ensures absent { IfErr result (IsGap source.now groups.now) }
{
    groups.binary_search_by(|group| group.source.cmp(source))
}

/// The intervals of a source, none if it has no group.
pub(crate) fn intervals_of<'a>(groups: &'a [Group], source: &[u8; 16]) -> &'a [Interval]
    requires { Ascend (sources groups.now) }
    ensures least { AreLeast 0 result.now }
    ensures listed { (n : ℕ) → has result.now n ≡ is_listed (source.now, n) groups.now }
    ensures among { Among source.now result.now groups.now }
{
    match find(groups, source) {
        Ok(at) => &groups[at].intervals,
        Err(_) => &[],
    }
}

/// Whether each GTID of the first groups is in the second ones.
pub(crate) fn are_subset(groups: &[Group], of: &[Group]) -> bool
    requires groups { Ascend (sources groups.now) }
    requires of { Ascend (sources of.now) }
    ensures { IsTrue result ↔ ((q : Id) → is_listed q groups.now ≡ true
        → is_listed q of.now ≡ true) }
{
    for group in groups {
        if !is_subset(&group.intervals, intervals_of(of, &group.source)) {
            return false;
        }
    }
    true
}

/// Does what `are_subset` does in one pass over both, which takes linear time however many there are of either.
pub(crate) fn are_subset_in_one_pass(groups: &[Group], of: &[Group]) -> bool
    requires groups { Ascend (sources groups.now) }
    requires of { Ascend (sources of.now) }
    ensures { IsTrue result ↔ ((q : Id) → is_listed q groups.now ≡ true
        → is_listed q of.now ≡ true) }
{
    let (mut left, mut right) = (groups, of);
    while let Some(source) = lowest(left, right) {
        let (of_left, left_rest) = split(left, &source);
        let (of_right, right_rest) = split(right, &source);
        if !is_subset_in_one_pass(of_left, of_right) {
            return false;
        }
        left = left_rest;
        right = right_rest;
    }
    true
}

/// Whether no GTID is in both, in one pass over both.
pub(crate) fn are_apart_in_one_pass(groups: &[Group], of: &[Group]) -> bool
    requires groups { Ascend (sources groups.now) }
    requires of { Ascend (sources of.now) }
    ensures { IsTrue result ↔ ((q : Id) → is_listed q groups.now ≡ true
        → is_listed q of.now ≡ false) }
{
    let (mut left, mut right) = (groups, of);
    while let Some(source) = lowest(left, right) {
        let (of_left, left_rest) = split(left, &source);
        let (of_right, right_rest) = split(right, &source);
        if !interval::are_apart_in_one_pass(of_left, of_right) {
            return false;
        }
        left = left_rest;
        right = right_rest;
    }
    true
}

/// Adds a GTID, and returns whether it is new. The only error is `Memory`, and only for a new GTID.
pub(crate) fn insert(groups: &mut Vec<Group>, gtid: Gtid) -> Result<bool, GtidFault>
    requires ascend { Ascend (sources groups.old.items) }
    ensures ascend { Ascend (sources groups.new.items) }
    ensures answer { IfOk result (λ new. new ≡ not (is_listed (id gtid) groups.old.items)) }
    ensures ok { OnOk result ((q : Id) → is_listed q groups.new.items
        ≡ (is_one q (id gtid) || is_listed q groups.old.items)) }
    ensures there { is_listed (id gtid) groups.old.items ≡ true → result ≡ Ok false }
    ensures near { (n : ℕ) → IsNear n gtid.number
        → is_listed (gtid.source, n) groups.old.items ≡ true → IsOk result }
    ensures err { OnErr result ((result ≡ Err GtidFault.Memory)
        × ((q : Id) → is_listed q groups.new.items ≡ is_listed q groups.old.items)) }
{
    match find(groups, &gtid.source) {
        Ok(at) => groups[at].insert(gtid.number),
        Err(at) => {
            let group = Group::of(*groups.allocator(), gtid)?;
            groups.insert(at, group)?;
            Ok(true)
        }
    }
}

/// Where a GTID goes: to a place among the intervals of the group at an index, or as a group of its own before the one
/// at an index.
#[derive(Debug, Drop)]
pub(crate) enum Place {
    Within(usize, usize),
    Before(usize, Group),
}

/// Makes room for a GTID, unless it is in one of the groups. The only error is `Memory`, and only for a new GTID with
/// neither neighbour in the groups.
pub(crate) fn reserve(groups: &mut Vec<Group>, gtid: Gtid) -> Result<Option<Place>, GtidFault>
    requires ascend { Ascend (sources groups.old.items) }
    ensures ascend { Ascend (sources groups.new.items) }
    ensures same { (q : Id) → is_listed q groups.new.items ≡ is_listed q groups.old.items }
    ensures room { IfOk result (λ place. IfSome place
        (HasRoom gtid groups.new.items (vec_capacity groups.new))) }
    ensures there { IfOk result (λ place. IfNone place (is_listed (id gtid) groups.old.items
        ≡ true)) }
    ensures known { is_listed (id gtid) groups.old.items ≡ true → result ≡ Ok None }
    ensures near { (n : ℕ) → IsNear n gtid.number
        → is_listed (gtid.source, n) groups.old.items ≡ true → IsOk result }
    ensures err { IfErr result (λ fault. fault ≡ GtidFault.Memory) }
{
    match find(groups, &gtid.source) {
        Ok(at) => {
            let Some(place) = interval::place(&groups[at].intervals, gtid.number) else {
                return Ok(None);
            };
            groups[at].reserve(place, gtid.number)?;
            Ok(Some(Place::Within(at, place)))
        }
        Err(at) => {
            let group = Group::of(*groups.allocator(), gtid)?;
            groups.reserve(1)?;
            Ok(Some(Place::Before(at, group)))
        }
    }
}

/// The neighbours of a GTID for which room was made, as intervals of its source.
pub(crate) fn beside(
    groups: &Vec<Group>,
    gtid: Gtid,
    place: &Place,
) -> (Option<Interval>, Option<Interval>)
    requires ascend { Ascend (sources groups.now.items) }
    requires room { HasRoom gtid groups.now.items (vec_capacity groups.now) place.now }
    ensures { TouchesAmong gtid result.0 result.1 groups.now.items }
{
    match place {
        Place::Within(at, place) => interval::beside(&groups[*at].intervals, *place, gtid.number),
        Place::Before(..) => (None, None),
    }
}

/// Adds a GTID for which room was made.
pub(crate) fn insert_reserved(groups: &mut Vec<Group>, gtid: Gtid, place: Place)
    requires ascend { Ascend (sources groups.old.items) }
    requires room { HasRoom gtid groups.old.items (vec_capacity groups.old) place }
    ensures ascend { Ascend (sources groups.new.items) }
    ensures adds { (q : Id) → is_listed q groups.new.items
        ≡ (is_one q (id gtid) || is_listed q groups.old.items) }
{
    match place {
        Place::Within(at, place) => groups[at].insert_at(place, gtid.number),
        Place::Before(at, group) => {
            let _inserted = groups.insert(at, group);
        }
    }
}

/// The groups of the GTIDs that are kept, in one pass over both lists.
pub(crate) fn combine_groups(
    alloc: Global,
    combination: Combination,
    left: &[Group],
    right: &[Group],
) -> Result<Vec<Group>, GtidFault>
    requires left { Ascend (sources left.now) }
    requires right { Ascend (sources right.now) }
    ensures ascend { IfOk result (λ combined. Ascend (sources combined.items)) }
    ensures ok { IfOk result (λ combined. (q : Id)
        → is_listed q combined.items ≡ keeps combination (is_listed q left.now)
        (is_listed q right.now)) }
    ensures err { IfErr result (λ fault. fault ≡ GtidFault.Memory) }
{
    let mut combined = Vec::new(alloc);
    let (mut left, mut right) = (left, right);
    while let Some(source) = lowest(left, right) {
        let (of_left, left_rest) = split(left, &source);
        let (of_right, right_rest) = split(right, &source);
        let intervals = combine(alloc, combination, of_left, of_right)?;
        left = left_rest;
        right = right_rest;
        if intervals.is_empty() {
            continue;
        }
        combined.push(Group { source, intervals })?;
    }
    Ok(combined)
}
