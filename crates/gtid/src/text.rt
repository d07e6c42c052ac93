//! Sets as text.

ghost use Rattle.std.specs.Prelude.{◌≡◌, ◌<◌, ◌≤◌, ◌+◌, length, string_len, string_capacity, codes, decimal};
ghost use Rattle.std.specs.String.{string_vec};
ghost use Rattle.std.specs.List.{join_by, AllByRecursion};
ghost use Rattle.uuid.specs.Text.{hyphenated_text, lower};
ghost use Rattle.gtid.specs.Appending.{AppendsBytes, IsCapped};
ghost use Rattle.gtid.specs.Identifier.{IsSource};
ghost use Rattle.gtid.specs.Text.{interval_text, block_text};
ghost use Rattle.gtid.specs.Blocks.{pair, of_group, blocks};

use crate::group::Group;
use crate::interval::Interval;
use itoa::Buffer;
use uuid::Uuid;

/// How many bytes the sources with their intervals take, with commas between, or `usize::MAX` if that is less.
pub(crate) fn text_length(groups: &[Group]) -> usize
    ensures { IsCapped result (length (join_by block_text (codes ",") (blocks groups.now))) }
{
    let [first, rest @ ..] = groups else {
        return 0;
    };
    let mut sum = group_length(first);
    for group in rest {
        sum = sum.saturating_add(1).saturating_add(group_length(group));
    }
    sum
}

/// How many bytes a source and its intervals take, or `usize::MAX` if that is less.
fn group_length(group: &Group) -> usize
    ensures { IsCapped result (length (block_text (of_group group.now))) }
{
    let mut sum: usize = 36;
    for interval in &group.intervals {
        sum = sum.saturating_add(interval_length(*interval));
    }
    sum
}

/// How many bytes an interval takes.
fn interval_length(interval: Interval) -> usize
    requires { interval.lo < interval.hi }
    ensures { result ≡ length (interval_text (pair interval)) }
{
    let first = 1 + decimal_length(interval.lo);
    let last = interval.hi - 1;
    if last != interval.lo {
        first + 1 + decimal_length(last)
    } else {
        first
    }
}

/// How many digits a number has.
fn decimal_length(number: u64) -> usize
    ensures exact { result ≡ length (decimal number) }
    ensures short { result ≤ 20 }
{
    Buffer::new().format(number).len()
}

/// Appends the sources with their intervals, with commas between.
pub(crate) fn print_groups(groups: &[Group], out: &mut String)
    requires { string_len out.old + length (join_by block_text (codes ",") (blocks groups.now))
        ≤ string_capacity out.old }
    ensures text { AppendsBytes (string_vec out.old) (string_vec out.new)
        (join_by block_text (codes ",") (blocks groups.now)) }
    ensures sources { AllByRecursion (λ g. IsSource g.source) groups.now }
{
    let [first, rest @ ..] = groups else {
        return;
    };
    print_group(first, out);
    for group in rest {
        out.push_str(",").unwrap();
        print_group(group, out);
    }
}

/// Appends a source and its intervals.
fn print_group(group: &Group, out: &mut String)
    requires { string_len out.old + length (block_text (of_group group.now))
        ≤ string_capacity out.old }
    ensures text { AppendsBytes (string_vec out.old) (string_vec out.new)
        (block_text (of_group group.now)) }
    ensures source { IsSource group.now.source }
{
    print_source(&group.source, out);
    for interval in &group.intervals {
        print_interval(*interval, out);
    }
}

/// Appends a source as a hyphenated UUID in lower case.
fn print_source(source: &[u8; 16], out: &mut String)
    requires { string_len out.old + length (hyphenated_text lower source.now)
        ≤ string_capacity out.old }
    ensures text { AppendsBytes (string_vec out.old) (string_vec out.new)
        (hyphenated_text lower source.now) }
    ensures source { IsSource source.now }
{
    let mut buffer = Uuid::encode_buffer();
    out.push_str(
        Uuid::from_bytes(*source)
            .hyphenated()
            .encode_lower(&mut buffer),
    )
    .unwrap();
}

/// Appends an interval: its first number and, if it has more than one, its last.
fn print_interval(interval: Interval, out: &mut String)
    requires some { interval.lo < interval.hi }
    requires room { string_len out.old + length (interval_text (pair interval))
        ≤ string_capacity out.old }
    ensures { AppendsBytes (string_vec out.old) (string_vec out.new)
        (interval_text (pair interval)) }
{
    let mut digits = Buffer::new();
    out.push_str(":").unwrap();
    out.push_str(digits.format(interval.lo)).unwrap();
    let last = interval.hi - 1;
    if last != interval.lo {
        out.push_str("-").unwrap();
        out.push_str(digits.format(last)).unwrap();
    }
}
