// File and line of a place.
#![tactic(auto)]

ghost use Rattle.std.specs.Prelude.{◌≡◌, List, [], ◌∷◌, ◌++◌};
ghost use Rattle.provider.specs.Modules.{content};
ghost use Rattle.provider.specs.declared.symbols.LineRow.{LineRow as Row};
ghost use Rattle.inlining.specs.Choice.{line_of, line_at};

use base::image::SectionOffset;
use base::refusal::{FaultyList, Refusal};
use provider::ModuleProvider;
use provider::symbols::LineRow;

// The row that tells file and line of a place in the function that starts at `start`. The rows may stand in any order, and all are
// read, since a fault at the end of their list refuses.
pub fn line_at<P: ModuleProvider>(
    provider: &P,
    module: u16,
    start: SectionOffset,
    place: u32,
) -> Result<Option<LineRow>, Refusal>
    ensures { result ≡ line_at «module» ((content ((P.ModuleProvider.modules provider.now).at «module»)).line_rows start) place }
{
    let list = FaultyList::LineRows { module };
    let mut best = None;
    for item in 0..=u32::MAX {
        let Some(row) = list.refuse(provider.line_row(module, start, item))? else {
            break;
        };
        best = better(best, row, place);
    }
    Ok(best)
}

// The best row after one more: that one, if it stands at or below the place and further on than the best before it.
fn better(best: Option<LineRow>, row: LineRow, place: u32) -> Option<LineRow>
    ensures { (rows : List Row) → best ≡ line_of place rows → result ≡ line_of place (rows ++ row ∷ []) }
{
    let further = best.is_none_or(|held| held.offset < row.offset);
    if row.offset <= place && further {
        Some(row)
    } else {
        best
    }
}
