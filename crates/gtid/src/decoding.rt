//! Sets read from bytes.

ghost use Rattle.std.specs.Prelude.{◌≡◌, ◌≢◌, ◌<◌, ◌≤◌, ◌^◌, ◌⊎◌, ◌++◌, true, length, take, drop, map, flat_map, [], ◌∷◌, Some, None, IfSome, IfNone, IfOk, IfErr};
ghost use Rattle.byteorder.specs.Endian.{little_bytes, little_number};
ghost use Rattle.gtid.specs.Interval.{AreLeast};
ghost use Rattle.gtid.specs.Encoding.{interval_bytes, block_bytes, blocks_bytes, interval_fault, is_above, source_fault, AreSidBlocks, IsDecodeFault, HasInterval, HasSource, HasFirstInterval};
ghost use Rattle.gtid.specs.Blocks.{pair, of_group, blocks};
ghost use Rattle.gtid.specs.Decoding.{FaultsInIntervals, IsBlockFault};

use crate::fault::GtidFault;
use crate::group::Group;
use crate::identifier::Gtid;
use crate::interval::Interval;
use byteorder::{ByteOrder, LittleEndian};
use std::alloc::Global;

/// A source, the number of its intervals, and the bytes after them.
#[derive(Drop)]
struct Heading<'a> {
    source: [u8; 16],
    size: u64,
    rest: &'a [u8],
}

/// The number in the first eight bytes, the lowest first, and the bytes after it.
fn read_number(bytes: &[u8]) -> Option<(u64, &[u8])>
    ensures enough { IfSome result (λ read. 8 ≤ length bytes.now) }
    ensures number { IfSome result (λ read. read.0 ≡ little_number 8 bytes.now) }
    ensures rest { IfSome result (λ read. read.1.now ≡ drop 8 bytes.now) }
    ensures split { IfSome result (λ read. bytes.now ≡ little_bytes 8 read.0 ++ read.1.now) }
    ensures none { IfNone result (length bytes.now < 8) }
{
    if bytes.len() < 8 {
        return None;
    }
    Some((LittleEndian::read_u64(bytes), &bytes[8..]))
}

/// The first sixteen bytes.
fn source_of(bytes: &[u8]) -> [u8; 16]
    requires { 16 ≤ length bytes.now }
    ensures { result ≡ take 16 bytes.now }
{
    let mut source = [0; 16];
    source.copy_from_slice(&bytes[..16]);
    source
}

/// Whether a source is above the one before it, if there is one.
fn ascends(before: Option<[u8; 16]>, source: &[u8; 16]) -> bool
    ensures { result ≡ is_above before source.now }
{
    match before {
        Some(before) => before.cmp(source).is_lt(),
        None => true,
    }
}

/// The interval at the front of the bytes, and the bytes after it. The interval before it ended at `after`, 0 if there
/// is none.
fn read_interval(after: u64, bytes: &[u8]) -> Result<(Interval, &[u8]), GtidFault>
    ensures above { IfOk result (λ read. after < read.0.lo) }
    ensures some { IfOk result (λ read. read.0.lo < read.0.hi) }
    ensures in_range { IfOk result (λ read. read.0.hi < 2 ^ 63) }
    ensures split { IfOk result (λ read. bytes.now ≡ interval_bytes (pair read.0) ++ read.1.now) }
    ensures err { IfErr result (λ fault. interval_fault after bytes.now ≡ Some fault) }
    ensures no_memory { IfErr result (λ fault. fault ≢ GtidFault.Memory) }
{
    let Some((lo, beyond)) = read_number(bytes) else {
        return Err(GtidFault::Truncated);
    };
    let Some((hi, rest)) = read_number(beyond) else {
        return Err(GtidFault::Truncated);
    };
    if lo == 0 || hi > Gtid::GREATEST + 1 {
        return Err(GtidFault::Number);
    }
    if hi <= lo {
        return Err(GtidFault::Interval);
    }
    if lo <= after {
        return Err(GtidFault::Order);
    }
    Ok((Interval { lo, hi }, rest))
}

/// The source at the front of the bytes and the number of its intervals. `before` is the source before it, if there is
/// one.
fn read_source(before: Option<[u8; 16]>, bytes: &[u8]) -> Result<Heading<'_>, GtidFault>
    ensures long { IfOk result (λ heading. length heading.source ≡ 16) }
    ensures above { IfOk result (λ heading. is_above before heading.source ≡ true) }
    ensures some { IfOk result (λ heading. (0 < heading.size) × (heading.size < 2 ^ 64)) }
    ensures split { IfOk result (λ heading. bytes.now
        ≡ heading.source ++ little_bytes 8 heading.size ++ heading.rest.now) }
    ensures err { IfErr result (λ fault. source_fault before bytes.now ≡ Some fault) }
    ensures no_memory { IfErr result (λ fault. fault ≢ GtidFault.Memory) }
{
    if bytes.len() < 16 {
        return Err(GtidFault::Truncated);
    }
    let source = source_of(bytes);
    if !ascends(before, &source) {
        return Err(GtidFault::Order);
    }
    let Some((size, rest)) = read_number(&bytes[16..]) else {
        return Err(GtidFault::Truncated);
    };
    if size == 0 {
        return Err(GtidFault::Interval);
    }
    Ok(Heading { source, size, rest })
}

/// The `size` intervals at the front of the bytes, and the bytes after them.
fn read_intervals(
    alloc: Global,
    size: u64,
    bytes: &[u8],
) -> Result<(Vec<Interval>, &[u8]), GtidFault>
    ensures least { IfOk result (λ read. AreLeast 0 read.0.items) }
    ensures count { IfOk result (λ read. length read.0.items ≡ size) }
    ensures split { IfOk result (λ read. bytes.now
        ≡ flat_map interval_bytes (map pair read.0.items) ++ read.1.now) }
    ensures err { IfErr result (λ fault. (fault ≡ GtidFault.Memory)
        ⊎ FaultsInIntervals size bytes.now fault) }
    ensures memory { IfErr result (λ fault. fault ≡ GtidFault.Memory → HasInterval bytes.now) }
{
    let mut intervals = Vec::new(alloc);
    let mut after = 0;
    let mut rest = bytes;
    for _done in 0..size {
        let (interval, beyond) = read_interval(after, rest)?;
        intervals.push(interval)?;
        after = interval.hi;
        rest = beyond;
    }
    Ok((intervals, rest))
}

/// The group at the front of the bytes, and the bytes after it. `before` is the source before it, if there is one.
fn read_group(
    alloc: Global,
    before: Option<[u8; 16]>,
    bytes: &[u8],
) -> Result<(Group, &[u8]), GtidFault>
    ensures lawful { IfOk result (λ read. AreSidBlocks before (of_group read.0 ∷ [])) }
    ensures split { IfOk result (λ read. bytes.now ≡ block_bytes (of_group read.0) ++ read.1.now) }
    ensures err { IfErr result (λ fault. (fault ≡ GtidFault.Memory)
        ⊎ IsBlockFault before bytes.now fault) }
    ensures memory { IfErr result (λ fault. fault ≡ GtidFault.Memory → HasSource bytes.now) }
{
    let heading = read_source(before, bytes)?;
    let (intervals, rest) = read_intervals(alloc, heading.size, heading.rest)?;
    let source = heading.source;
    Ok((Group { source, intervals }, rest))
}

/// The groups of the set at the front of the bytes, and the bytes after the set.
pub(crate) fn read_groups(alloc: Global, bytes: &[u8]) -> Result<(Vec<Group>, &[u8]), GtidFault>
    ensures lawful { IfOk result (λ read. AreSidBlocks None (blocks read.0.items)) }
    ensures split { IfOk result (λ read. bytes.now
        ≡ blocks_bytes (blocks read.0.items) ++ read.1.now) }
    ensures err { IfErr result (λ fault. (fault ≡ GtidFault.Memory)
        ⊎ IsDecodeFault bytes.now fault) }
    ensures memory { IfErr result (λ fault. fault ≡ GtidFault.Memory → HasFirstInterval bytes.now) }
{
    let Some((count, beyond)) = read_number(bytes) else {
        return Err(GtidFault::Truncated);
    };
    let mut groups = Vec::new(alloc);
    let mut before = None;
    let mut rest = beyond;
    for _done in 0..count {
        let (group, after) = read_group(alloc, before, rest)?;
        before = Some(group.source);
        groups.push(group)?;
        rest = after;
    }
    Ok((groups, rest))
}
