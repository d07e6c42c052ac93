//! Sets as bytes.

ghost use Rattle.std.specs.Prelude.{◌≤◌, ◌+◌, length, vec_len, vec_capacity};
ghost use Rattle.gtid.specs.Appending.{AppendsBytes, IsCapped};
ghost use Rattle.gtid.specs.Encoding.{interval_bytes, block_bytes, blocks_bytes};
ghost use Rattle.gtid.specs.Blocks.{pair, of_group, blocks};

use crate::group::Group;
use crate::interval::Interval;

/// How many bytes the number of sources and the sources take, or `usize::MAX` if that is less.
pub(crate) fn encoded_length(groups: &[Group]) -> usize
    ensures { IsCapped result (length (blocks_bytes (blocks groups.now))) }
{
    let mut sum: usize = 8;
    for group in groups {
        sum = sum.saturating_add(group_length(group));
    }
    sum
}

/// How many bytes a source, the number of its intervals and the intervals take, or `usize::MAX` if that is less.
fn group_length(group: &Group) -> usize
    ensures { IsCapped result (length (block_bytes (of_group group.now))) }
{
    group.intervals.len().saturating_mul(16).saturating_add(24)
}

/// Appends the number of sources, and each of them.
pub(crate) fn write_groups(groups: &[Group], out: &mut Vec<u8>)
    requires { vec_len out.old + length (blocks_bytes (blocks groups.now)) ≤ vec_capacity out.old }
    ensures { AppendsBytes out.old out.new (blocks_bytes (blocks groups.now)) }
{
    out.extend_from_slice(&(groups.len() as u64).to_le_bytes())
        .unwrap();
    for group in groups {
        write_group(group, out);
    }
}

/// Appends a source, the number of its intervals, and the intervals.
fn write_group(group: &Group, out: &mut Vec<u8>)
    requires { vec_len out.old + length (block_bytes (of_group group.now)) ≤ vec_capacity out.old }
    ensures { AppendsBytes out.old out.new (block_bytes (of_group group.now)) }
{
    out.extend_from_slice(&group.source).unwrap();
    out.extend_from_slice(&(group.intervals.len() as u64).to_le_bytes())
        .unwrap();
    for interval in &group.intervals {
        write_interval(*interval, out);
    }
}

/// Appends the first number of an interval, and one past its last number.
fn write_interval(interval: Interval, out: &mut Vec<u8>)
    requires { vec_len out.old + length (interval_bytes (pair interval)) ≤ vec_capacity out.old }
    ensures { AppendsBytes out.old out.new (interval_bytes (pair interval)) }
{
    out.extend_from_slice(&interval.lo.to_le_bytes()).unwrap();
    out.extend_from_slice(&interval.hi.to_le_bytes()).unwrap();
}
