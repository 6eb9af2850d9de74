// The addresses of known starts and of procedures, as they come into a table.
ghost use Rattle.std.specs.Prelude.{◌≡◌, ◌≤◌, [], ◌∷◌, map};
ghost use Rattle.table.specs.Slice.{SameOrdered};
ghost use Rattle.sections.specs.Used.{used as used_sections};
ghost use Rattle.listing.specs.Listing.{rva_of as address_of, start_offset, procedure_offset};
ghost use Rattle.base.specs.declared.image.SectionOffset.{SectionOffset as Place};
ghost use Rattle.functions.specs.Adding.{Adds};

use addresses::Address;
use base::context::KnownStart;
use base::image::{Section, SectionOffset};
use base::refusal::Refusal;
use procedures::row::Procedure;
use sections::Sections;
use table::OrderedTable;

// What starts at a place of the image.
pub(crate) trait HasOffset {
    ghost offset_of: { Self → Place };

    fn offset(&self) -> SectionOffset
        ensures { result ≡ offset_of self.now };
}

impl HasOffset for KnownStart {
    ghost offset_of = { start_offset };

    fn offset(&self) -> SectionOffset {
        self.offset
    }
}

impl HasOffset for Procedure {
    ghost offset_of = { procedure_offset };

    fn offset(&self) -> SectionOffset {
        self.offset
    }
}

// The address of a place. Sections are counted from 1.
fn rva_of(sections: &[Section], offset: SectionOffset) -> Option<u32>
    ensures { result ≡ address_of sections.now offset }
{
    let index = usize::from(offset.section).checked_sub(1)?;
    let section = sections.get(index)?;
    section.address.checked_add(offset.offset)
}

// A place without an address is left out.
#[tactic(auto, using(crate::proofs::Adding::grown))]
fn add(
    addresses: &mut OrderedTable<Address>,
    sections: &[Section],
    offset: SectionOffset,
) -> Result<(), Refusal>
    ensures added { Adds sections.now (offset ∷ []) addresses.old addresses.new result }
    ensures grows { addresses.old.count ≤ addresses.new.count }
    ensures slice { SameOrdered addresses.old addresses.new }
{
    let Some(rva) = rva_of(sections, offset) else {
        return Ok(());
    };
    addresses
        .insert(Address { rva })
        .map_err(|_| Refusal::AddressTableFull)
}

// Adds the addresses of all rows.
pub(crate) fn add_all<T: HasOffset>(
    addresses: &mut OrderedTable<Address>,
    sections: &Sections,
    rows: &[T],
) -> Result<(), Refusal>
    ensures added { Adds (used_sections sections.now) (map T.offset_of rows.now) addresses.old addresses.new result }
    ensures grows { addresses.old.count ≤ addresses.new.count }
    ensures slice { SameOrdered addresses.old addresses.new }
{
    let sections = sections.used();
    for row in rows {
        add(addresses, sections, row.offset())?;
    }
    Ok(())
}
