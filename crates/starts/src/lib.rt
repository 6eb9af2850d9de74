// The table of known starts, and the two steps of building that only add to it: public symbols and section ends.
#![tactic(auto)]

ghost use Rattle.std.specs.Prelude.{◌≡◌, true, false, List, [], ◌∷◌, ◌++◌, length, take, is_ok, if◌then◌else◌, Some, None};
ghost use Rattle.std.specs.Result.{result_err};
ghost use Rattle.base.specs.declared.context.KnownStart.{KnownStart as Start};
ghost use Rattle.base.specs.declared.refusal.Step.TheVariants.{ReadPublicSymbols, AddSectionEnds};
ghost use Rattle.base.specs.declared.refusal.FaultyList.TheVariants.{PublicSymbols};
ghost use Rattle.order.specs.Rank.{InOrder};
ghost use Rattle.order.specs.Placed.{Settled};
ghost use Rattle.base.specs.Rows.{start_rank, start_meets};
ghost use Rattle.table.specs.Slice.{SameSlice};
ghost use Rattle.building.specs.Starts.{symbol_starts, section_ends, or_else};
ghost use Rattle.building.specs.Outcome.{fault, starts_full};
ghost use Rattle.building.specs.Filling.{Holds};
ghost use Rattle.sections.specs.Used.{used};
ghost use Rattle.starts.specs.Order.{StaysOrdered};

use base::context::KnownStart;
use base::image::SectionOffset;
use base::refusal::{FaultyList, Refusal, Step};
use image::ImageSource;
use sections::Sections;
use table::Table;

// Here and in the two steps below, a table that is in order stays in order, refused or not.
#[tactic(auto, using(crate::proofs::Adding::start_refused, crate::proofs::Order::insert_ordered))]
pub fn add_start(
    starts: &mut Table<KnownStart>,
    start: KnownStart,
    step: Step,
) -> Result<(), Refusal>
    ensures refused { (cs old : List Start) → Holds cs old starts.old.rows.now starts.old.count → result_err result ≡ starts_full (length old) (cs ++ start ∷ []) step }
    ensures added { (cs old : List Start) → Holds cs old starts.old.rows.now starts.old.count → is_ok result ≡ true → Holds (cs ++ start ∷ []) old starts.new.rows.now starts.new.count }
    ensures outcome { InOrder start_rank (take starts.old.count starts.old.rows.now) → Settled start_rank start_meets starts.old.rows.now starts.old.count start (if is_ok result then Some starts.new.count else None) starts.new.rows.now }
    ensures full { is_ok result ≡ false → starts.new.count ≡ starts.old.count }
    ensures slice { SameSlice starts.old starts.new }
    ensures ordered { StaysOrdered start_rank starts.old starts.new }
{
    starts
        .insert(start)
        .map_err(|_| Refusal::StartTableFull { step })
}

// The named starts of the public symbols.
pub fn read_public_symbols<S: ImageSource>(
    source: &S,
    sections: &Sections,
    starts: &mut Table<KnownStart>,
) -> Result<(), Refusal>
    ensures refused { (old : List Start) → Holds [] old starts.old.rows.now starts.old.count → result_err result ≡ or_else (starts_full (length old) (symbol_starts (used sections.now) (S.ImageSource.image source.now).symbols) ReadPublicSymbols) (fault PublicSymbols (S.ImageSource.image source.now).symbols_end) }
    ensures read { (old : List Start) → Holds [] old starts.old.rows.now starts.old.count → is_ok result ≡ true → Holds (symbol_starts (used sections.now) (S.ImageSource.image source.now).symbols) old starts.new.rows.now starts.new.count }
    ensures slice { SameSlice starts.old starts.new }
    ensures ordered { StaysOrdered start_rank starts.old starts.new }
{
    for item in 0..=u32::MAX {
        let answer = FaultyList::PublicSymbols.refuse(source.public_symbol(item));
        let Some(symbol) = answer? else {
            break;
        };
        if sections.executable(symbol.offset.section) {
            add_start(starts, KnownStart::from(symbol), Step::ReadPublicSymbols)?;
        }
    }
    Ok(())
}

// An unnamed start at the end of each executable section.
pub fn add_section_ends(sections: &Sections, starts: &mut Table<KnownStart>) -> Result<(), Refusal>
    ensures refused { (cs old : List Start) → Holds cs old starts.old.rows.now starts.old.count → result_err result ≡ starts_full (length old) (cs ++ section_ends 1 (used sections.now)) AddSectionEnds }
    ensures added { (cs old : List Start) → Holds cs old starts.old.rows.now starts.old.count → is_ok result ≡ true → Holds (cs ++ section_ends 1 (used sections.now)) old starts.new.rows.now starts.new.count }
    ensures slice { SameSlice starts.old starts.new }
    ensures ordered { StaysOrdered start_rank starts.old starts.new }
{
    for (index, section) in sections.used().iter().enumerate() {
        if section.executable {
            let end = SectionOffset {
                section: index as u16 + 1,
                offset: section.size,
            };
            add_start(starts, KnownStart::from(end), Step::AddSectionEnds)?;
        }
    }
    Ok(())
}
