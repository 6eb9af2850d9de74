// The names of functions.
ghost use Rattle.std.specs.Prelude.{◌≡◌};
ghost use Rattle.order.specs.Rank.{at};
ghost use Rattle.base.specs.Rows.{offset_rank, start_rank};
ghost use Rattle.context.specs.Context.{meaning};
ghost use Rattle.lookup.specs.Finding.{decorated as has_mark, decorated_name, procedure_name};

use base::context::KnownStart;
use base::image::{SectionOffset, TextPart};
use context::tables::Context;
use procedures::name::{NameRow, part_of};
use procedures::row::Procedure;
use table::Sorted;

// Whether a name begins with "?", as decorated names do.
fn decorated(text: &[u8], name: TextPart) -> bool
    ensures { result ≡ has_mark text.now name }
{
    part_of(text, name).is_some_and(|bytes| bytes.starts_with(b"?"))
}

// The name of the known start at an offset, if it begins with "?".
fn decorated_at(
    text: &[u8],
    starts: &Sorted<'_, KnownStart>,
    offset: SectionOffset,
) -> Option<TextPart>
    ensures { result ≡ decorated_name text.now (at start_rank (offset_rank offset) starts.now.rows.now) }
{
    let name = starts.find(&offset.into())?.name?;
    decorated(text, name).then_some(name)
}

// A procedure without a type, whose name is not decorated, takes the decorated name of the known start at its offset.
pub(crate) fn procedure_name(
    text: &[u8],
    context: &Context<'_>,
    module: u16,
    procedure: &Procedure,
) -> NameRow
    ensures { result ≡ procedure_name text.now (meaning context.now).starts «module» procedure.now }
{
    let typed = NameRow::Typed(procedure.name, module, procedure.type_number);
    if procedure.type_number != 0 || decorated(text, procedure.name) {
        return typed;
    }
    decorated_at(text, &context.starts.used(), procedure.offset).map_or(typed, NameRow::Raw)
}
