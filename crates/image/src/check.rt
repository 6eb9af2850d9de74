// What every table has to pass before a provider is opened on it.
ghost use Rattle.std.specs.Prelude.{◌≡◌, ℕ, Bool, not};
ghost use Rattle.std.specs.List.{position};
ghost use Rattle.std.specs.Result.{result_err};
ghost use Rattle.image.specs.Checks.{name_within, crowded, outside};

use base::image::{PublicSymbol, TextPart};
use base::refusal::{Refusal, RowTable};

// A row that names a part of a text, or of another table.
pub trait Part {
    ghost within: { ℕ → Self → Bool };

    // Whether it lies inside something that is so long.
    fn is_within(&self, long: usize) -> bool
        ensures { result ≡ within long self.now };
}

impl Part for TextPart {
    ghost within = { name_within };

    fn is_within(&self, long: usize) -> bool {
        u64::from(self.start) + u64::from(self.length) <= long as u64
    }
}

impl Part for PublicSymbol {
    ghost within = { λ long s. name_within long s.name };

    fn is_within(&self, long: usize) -> bool {
        self.name.is_within(long)
    }
}

// Of a table of too many rows the first one too many is refused.
pub fn check_count<T>(rows: &[T], table: RowTable, most: usize) -> Result<(), Refusal>
    ensures { result_err result ≡ crowded table most rows.now }
{
    if rows.len() > most {
        return Err(Refusal::BadRow {
            table,
            row: most as u64,
        });
    }
    Ok(())
}

// The first row that does not lie within the length is refused.
#[tactic(auto, using(crate::proofs::Checks::outside_position))]
pub fn check_parts<R: Part>(rows: &[R], table: RowTable, long: usize) -> Result<(), Refusal>
    ensures { result_err result ≡ outside R.Part.within table long 0 rows.now }
{
    match first_outside(rows, long) {
        Some(row) => Err(Refusal::BadRow {
            table,
            row: row as u64,
        }),
        None => Ok(()),
    }
}

fn first_outside<R: Part>(rows: &[R], long: usize) -> Option<usize>
    ensures { result ≡ position (λ row. not (R.Part.within long row)) rows.now }
{
    rows.iter().position(|row| !row.is_within(long))
}
