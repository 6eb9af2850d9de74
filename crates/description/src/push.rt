// How a list grows.
ghost use Rattle.std.specs.Prelude.{◌≡◌, ◌^◌, ◌<◌, ◌≤◌, vec_len, vec_capacity, OnOk};
ghost use Rattle.words.specs.Quotes.{complete};
ghost use Rattle.description.specs.Lists.{appended, pushed, once, newest, grown, part_at};
ghost use Rattle.description.specs.Mistakes.{Adds, AddsAs};

use crate::mistake::{AddError, Mistake};
use base::image::TextPart;
use modules::tables::RowRange;
use words::quote::unquote;

// The most rows of a list.
const LIST_LIMIT: usize = u32::MAX as usize;

// Appends what the bytes between two quotes stand for, and says where it stands.
pub fn append(text: &mut Vec<u8>, raw: &[u8]) -> Result<TextPart, AddError>
    ensures { AddsAs (0 < complete raw.now) (λ p. (text.new.items, p)) result (appended raw.now text.old.items) }
{
    let start = text.len();
    unquote(raw, text)?;
    let end = u32::try_from(text.len()).or(Err(Mistake::TextTooLong))?;
    Ok(TextPart {
        start: start as u32,
        length: end - start as u32,
    })
}

pub fn push_row<T: Drop>(rows: &mut Vec<T>, row: T) -> Result<(), AddError>
    ensures added { Adds (vec_capacity rows.old ≤ vec_len rows.old) result (pushed rows.old.items row) rows.new.items }
    ensures few { vec_len rows.old < 2 ^ 32 → vec_len rows.new < 2 ^ 32 }
{
    if rows.len() >= LIST_LIMIT {
        return Err(AddError::Wrong(Mistake::TooManyRows));
    }
    Ok(rows.push(row)?)
}

#[tactic(auto, using(crate::proofs::Growing::newest_end))]
pub fn take_last<T: Drop>(rows: &mut Vec<T>, none: Mistake) -> Result<T, AddError>
    ensures last { AddsAs ⊥ (λ x. (rows.new.items, x)) result (newest none rows.old.items) }
    ensures room { OnOk result (vec_len rows.new < vec_capacity rows.new) }
    ensures len { vec_len rows.new ≤ vec_len rows.old }
{
    rows.pop().ok_or(AddError::Wrong(none))
}

pub fn set_once<T: Drop>(slot: &mut Option<T>, value: T, twice: Mistake) -> Result<(), AddError>
    ensures { Adds ⊥ result (once twice slot.old value) slot.new }
{
    if slot.is_some() {
        return Err(AddError::Wrong(twice));
    }
    *slot = Some(value);
    Ok(())
}

// A part of a table, with the row that comes next.
pub fn one_more(part: RowRange) -> Result<RowRange, Mistake>
    ensures { result ≡ grown part }
{
    let count = part.count.checked_add(1).ok_or(Mistake::TooManyRows)?;
    Ok(RowRange { count, ..part })
}

// The part of no rows at a table's end.
pub fn part_at_end<T>(rows: &Vec<T>) -> RowRange
    requires { vec_len rows.now < 2 ^ 32 }
    ensures { result ≡ part_at rows.now.items }
{
    RowRange {
        first: rows.len() as u32,
        count: 0,
    }
}
