// Which places ranges cover.
ghost use Rattle.std.specs.Prelude.{◌≡◌, ◌+◌, min, max};
ghost use Rattle.std.specs.List.{list_any, filter_map, reduce};
ghost use Rattle.inlining.specs.Ranges.{over, covered};
ghost use Rattle.ranges.specs.Uncovered.{uncovered_at, at_next_depth, end_over, edge_above, Steady};

use frames::range::InlineRange;
use table::contains;

// Whether a range of some depth contains a place.
pub(crate) fn is_over(range: &InlineRange, depth: usize, place: u32) -> bool
    ensures { result ≡ over depth place range.now }
{
    range.depth == depth && contains(range, place)
}

fn at_next_depth(range: &InlineRange, depth: usize) -> bool
    ensures { result ≡ at_next_depth depth range.now }
{
    range.depth.checked_sub(1) == Some(depth)
}

pub(crate) fn any_at_next_depth(ranges: &[InlineRange], depth: usize) -> bool
    ensures { result ≡ list_any (at_next_depth depth) ranges.now }
{
    ranges.iter().any(|range| at_next_depth(range, depth))
}

fn is_covered(ranges: &[InlineRange], depth: usize, place: u32) -> bool
    ensures { result ≡ covered depth place ranges.now }
{
    ranges.iter().any(|range| is_over(range, depth, place))
}

fn is_covered_at_next_depth(ranges: &[InlineRange], depth: usize, place: u32) -> bool
    ensures { result ≡ covered (depth + 1) place ranges.now }
{
    ranges.iter().any(|range| at_next_depth(range, depth) && contains(range, place))
}

// Whether a place is covered at the next depth, and not at this one.
pub(crate) fn is_uncovered(ranges: &[InlineRange], depth: usize, place: u32) -> bool
    ensures { result ≡ uncovered_at depth ranges.now place }
{
    is_covered_at_next_depth(ranges, depth, place) && !is_covered(ranges, depth, place)
}

// Up to which place a range of some depth reaches that contains another.
fn end_over(range: &InlineRange, depth: usize, place: u32) -> Option<u32>
    ensures { result ≡ end_over depth place range.now }
{
    is_over(range, depth, place).then_some(range.end)
}

// The furthest of these: all places from `place` up to it are covered.
fn covered_upto(ranges: &[InlineRange], depth: usize, place: u32) -> Option<u32>
    ensures { result ≡ reduce max (filter_map (end_over depth place) ranges.now) }
{
    ranges
        .iter()
        .filter_map(|range| end_over(range, depth, place))
        .max()
}

// From which place above another on a range contains the places, or contains them no more.
fn edge_above(range: &InlineRange, place: u32) -> Option<u32>
    ensures { result ≡ edge_above place range.now }
{
    if place < range.start {
        Some(range.start)
    } else if place < range.end {
        Some(range.end)
    } else {
        None
    }
}

// The nearest of these: below it each range contains all places from `place` on, or none.
fn next_edge(ranges: &[InlineRange], place: u32) -> Option<u32>
    ensures { result ≡ reduce min (filter_map (edge_above place) ranges.now) }
{
    ranges
        .iter()
        .filter_map(|range| edge_above(range, place))
        .min()
}

// A place up to which all from `place` on are uncovered, or none is. Where this depth covers places, no edge within them counts.
pub(crate) fn next_place(ranges: &[InlineRange], depth: usize, place: u32) -> Option<u32>
    ensures { Steady (uncovered_at depth ranges.now) place result }
{
    match covered_upto(ranges, depth, place) {
        Some(end) => Some(end),
        None => next_edge(ranges, place),
    }
}
