// Which spans contain a place.
ghost use Rattle.std.specs.Prelude.{◌≡◌};
ghost use Rattle.base.specs.Rows.{in_section};

use base::image::{InSection, SectionOffset};
use table::contains;

// A span contains a place of its own section only.
pub(crate) fn holds<S: InSection>(span: &S, offset: SectionOffset) -> bool
    ensures { result ≡ in_section (S.InSection.section span.now) (S.Span.low span.now) (S.Span.high span.now) offset }
{
    span.section() == offset.section && contains(span, offset.offset)
}
