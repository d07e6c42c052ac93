//! Iteration over the intervals of a set.

ghost use Rattle.std.specs.Prelude.{◌≡◌};
ghost use Rattle.std.specs.Iterator.{YieldsFirst, item_count};
ghost use Rattle.gtid.specs.Spans.{spans_of};

use crate::group::Group;
use crate::interval::Interval;
use crate::span::Span;
use std::marker::Model;

/// An iterator over the least intervals of a set, in order. In contracts it is the list of those that are still to
/// come.
#[derive(Debug, Drop)]
pub struct Spans<'a> {
    source: [u8; 16],
    intervals: &'a [Interval],
    groups: &'a [Group],
}

impl<'a> Model for Spans<'a> {
    ghost use Rattle.std.specs.Prelude.{List};
    ghost use Rattle.gtid.specs.declared.span.Span.{Span};

    ghost Value = { List Span };

    ghost use Rattle.gtid.specs.Spans.{spans_left};

    ghost view = { λ s. spans_left s.source s.intervals.now s.groups.now };
}

impl<'a> Spans<'a> {
    /// The spans of the groups.
    pub(crate) fn new(groups: &'a [Group]) -> Spans<'a>
        ensures { result ≡ spans_of groups.now }
    {
        Spans {
            source: [0; 16],
            intervals: &[],
            groups,
        }
    }
}

impl<'a> Iterator for Spans<'a> {
    type Item = Span;

    ghost next_gives = { YieldsFirst (λ rest. rest) };

    ghost remaining = { item_count (λ rest. rest) };

    fn next(&mut self) -> Option<Span> {
        if self.intervals.is_empty() {
            let (group, groups) = self.groups.split_first()?;
            self.source = group.source;
            self.intervals = group.intervals.as_slice();
            self.groups = groups;
        }
        let (interval, intervals) = self.intervals.split_first()?;
        self.intervals = intervals;
        Some(Span {
            source: self.source,
            lo: interval.lo,
            hi: interval.hi,
        })
    }
}
