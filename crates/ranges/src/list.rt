// At most 1,024 ranges.
ghost use Rattle.std.specs.Prelude.{◌≡◌, ◌≤◌, [], ◌∷◌, ◌++◌, is_ok, false};
ghost use Rattle.inlining.specs.Ranges.{range_of, with_range, fitting};
ghost use Rattle.inlining.specs.Steps.{leaves};

use base::refusal::Refusal;
use frames::range::InlineRange;
use provider::symbols::SiteRow;

pub const MOST_RANGES: usize = 1024;

// The first `count` rows are written.
#[derive(Drop)]
pub struct Ranges {
    pub rows: [InlineRange; MOST_RANGES],
    pub count: usize,
    ghost few: { count ≤ 1024 },
}

impl Ranges {
    ghost use Rattle.ranges.specs.Held.{held};

    pub fn empty() -> Ranges
        ensures { held result ≡ [] }
    {
        Ranges {
            rows: [InlineRange::default(); MOST_RANGES],
            count: 0,
        }
    }

    pub fn used(&self) -> &[InlineRange]
        ensures { result.now ≡ held self.now }
    {
        &self.rows[..self.count]
    }

    // What a row of the site at number `item` covers.
    pub fn add_row(
        &mut self,
        module: u16,
        item: u32,
        depth: usize,
        inlinee: u32,
        row: SiteRow,
    ) -> Result<(), Refusal>
        ensures added { leaves result (held self.new) ≡ with_range «module» item (held self.old) (range_of depth inlinee row) }
        ensures refused { is_ok result ≡ false → held self.new ≡ held self.old }
    {
        let Some(length) = row.length.filter(|length| *length != 0) else {
            return Ok(());
        };
        let Some(end) = row.offset.checked_add(length) else {
            return Err(Refusal::RangeOutside { module, item });
        };
        self.push(
            module,
            InlineRange {
                depth,
                start: row.offset,
                end,
                inlinee,
                file: Some(row.file),
                line: Some(row.line),
            },
        )
    }

    pub(crate) fn push(&mut self, module: u16, range: InlineRange) -> Result<(), Refusal>
        ensures pushed { leaves result (held self.new) ≡ fitting «module» (held self.old ++ range ∷ []) }
        ensures refused { is_ok result ≡ false → held self.new ≡ held self.old }
    {
        if self.count == MOST_RANGES {
            return Err(Refusal::TooManyRanges { module });
        }
        self.rows[self.count] = range;
        self.count += 1;
        Ok(())
    }
}
