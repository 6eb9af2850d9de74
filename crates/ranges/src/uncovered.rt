// What a site adds that closes: from edge to edge of the ranges since it opened.
ghost use Rattle.std.specs.Prelude.{◌≡◌, ◌≤◌, length, take, drop};
ghost use Rattle.inlining.specs.Ranges.{most_ranges, fitting, completed};
ghost use Rattle.inlining.specs.Steps.{leaves};
ghost use Rattle.ranges.specs.Held.{held};
ghost use Rattle.ranges.specs.Uncovered.{uncovered_at, First, FirstStretch};

use crate::cover::{any_at_next_depth, is_uncovered, next_place};
use crate::list::Ranges;
use base::refusal::Refusal;
use frames::range::{InlineRange, OpenSite};

impl Ranges {
    // What the calls within a site cover and it does not, as a site adds it that closes.
    pub fn add_uncovered(
        &mut self,
        module: u16,
        depth: usize,
        site: &OpenSite,
    ) -> Result<(), Refusal>
        ensures added { leaves result (held self.new) ≡ fitting «module» (completed depth site.now (held self.old)) }
        ensures left { held self.new ≡ take most_ranges (completed depth site.now (held self.old)) }
    {
        // the ranges that are added come after these
        let upto = self.count;
        if !any_at_next_depth(self.between(site.from, upto), depth) {
            return Ok(());
        }
        let mut place = 0;
        while let Some((start, end)) = first_stretch(self.between(site.from, upto), depth, place) {
            self.push(
                module,
                InlineRange {
                    depth,
                    start,
                    end,
                    inlinee: site.inlinee,
                    file: site.file,
                    line: None,
                },
            )?;
            place = end;
        }
        Ok(())
    }

    // The ranges from number `from` up to number `upto`, none if that comes first.
    fn between(&self, from: usize, upto: usize) -> &[InlineRange]
        ensures { upto ≤ length (held self.now) → result.now ≡ drop from (take upto (held self.now)) }
    {
        self.used().get(from..upto).unwrap_or(&[])
    }
}

// The first stretch from a place on that is covered at the next depth and not at this one.
fn first_stretch(ranges: &[InlineRange], depth: usize, from: u32) -> Option<(u32, u32)>
    ensures { FirstStretch (uncovered_at depth ranges.now) from result }
{
    let start = first_place(ranges, depth, true, from)?;
    let end = first_place(ranges, depth, false, start)?;
    Some((start, end))
}

// The first place from `from` on that is uncovered, or the first that is not, as is wanted.
fn first_place(ranges: &[InlineRange], depth: usize, wanted: bool, from: u32) -> Option<u32>
    ensures { First (uncovered_at depth ranges.now) wanted from result }
{
    let mut place = from;
    while is_uncovered(ranges, depth, place) != wanted {
        place = next_place(ranges, depth, place)?;
    }
    Some(place)
}
