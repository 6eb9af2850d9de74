// The calls that are inlined at one place, the outermost first.
ghost use Rattle.std.specs.Prelude.{◌≡◌, ◌≤◌, []};
ghost use Rattle.inlining.specs.Choice.{greater};
ghost use Rattle.inlining.specs.Ranges.{range_start, inlined, inlined_at};

use crate::cover::is_over;
use crate::list::Ranges;
use frames::range::InlineRange;

pub const MOST_OPEN: usize = 32;

// The first `count` rows. At most one for each depth.
#[derive(Drop)]
pub struct InlineCalls {
    pub rows: [InlineRange; MOST_OPEN],
    pub count: usize,
    ghost few: { count ≤ 32 },
}

impl InlineCalls {
    ghost use Rattle.ranges.specs.Held.{calls};

    pub fn empty() -> InlineCalls
        ensures { calls result ≡ [] }
    {
        InlineCalls {
            rows: [InlineRange::default(); MOST_OPEN],
            count: 0,
        }
    }

    pub fn used(&self) -> &[InlineRange]
        ensures { result.now ≡ calls self.now }
    {
        &self.rows[..self.count]
    }
}

impl Ranges {
    ghost use Rattle.ranges.specs.Held.{held, calls};

    // The calls that are inlined at a place.
    pub fn calls_at(&self, place: u32) -> InlineCalls
        ensures { calls result ≡ inlined_at place (held self.now) }
    {
        let mut rows = [InlineRange::default(); MOST_OPEN];
        let mut count = 0;
        while count < MOST_OPEN {
            let Some(range) = self.inlined(count, place) else {
                break;
            };
            rows[count] = range;
            count += 1;
        }
        InlineCalls { rows, count }
    }

    // Of the ranges at some depth that contain a place the one that starts last, the first written among equals.
    fn inlined(&self, depth: usize, place: u32) -> Option<InlineRange>
        ensures { result ≡ inlined depth place (held self.now) }
    {
        self.used()
            .iter()
            .filter(|range| is_over(range, depth, place))
            .copied()
            .reduce(later)
    }
}

// Of two ranges the one that starts later, the first of them if they start at one place.
fn later(range: InlineRange, other: InlineRange) -> InlineRange
    ensures { result ≡ greater range_start range other }
{
    if range.start < other.start {
        other
    } else {
        range
    }
}
