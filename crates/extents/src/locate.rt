// Where an address lies.
ghost use Rattle.std.specs.Prelude.{◌≡◌, ◌-◌, ◌<◌, IfSome, IsTrue};
ghost use Rattle.std.specs.List.{position};
ghost use Rattle.sections.specs.Used.{used};
ghost use Rattle.context.specs.Context.{meaning};
ghost use Rattle.lookup.specs.Places.{locate as located, here, spot, contribution_at};

use crate::holds::holds;
use base::context::Contribution;
use base::image::{Section, SectionOffset};
use context::tables::Context;
use procedures::function::{Location, Spot};
use sections::Sections;
use table::contains;

// The place in the first section that contains the address. Section numbers count from 1.
#[tactic(auto, using(lookup::proofs::Searching::spot_position))]
fn spot_of(sections: &Sections, address: u32) -> Option<Spot>
    ensures spot { result ≡ spot 1 (used sections.now) address }
    ensures below { IfSome result (λ s. s.offset.offset < 4294967295) }
{
    let rows = sections.used();
    let index = section_of(rows, address)?;
    Some(place_in(index as u16 + 1, rows[index], address))
}

// The first section that contains the address, by its place in the list.
fn section_of(sections: &[Section], address: u32) -> Option<usize>
    ensures { result ≡ position (here address) sections.now }
{
    sections
        .iter()
        .position(|section| contains(section, address))
}

// The place in one section, which contains the address.
fn place_in(number: u16, section: Section, address: u32) -> Spot
    requires { IsTrue (here address section) }
    ensures spot { result ≡ record { base = section.address; offset = record { section = number; offset = address - section.address } } }
    ensures below { result.offset.offset < 4294967295 }
{
    Spot {
        base: section.address,
        offset: SectionOffset {
            section: number,
            offset: address - section.address,
        },
    }
}

// The contribution that contains a place. Contributions lie apart, so only the last that starts at or below the place can. The bound of the place
// goes along from the section, since the row above it lies one place further.
fn contribution_at(context: &Context<'_>, offset: SectionOffset) -> Option<Contribution>
    requires { offset.offset < 4294967295 }
    ensures { result ≡ contribution_at (meaning context.now).contributions offset }
{
    let above = Contribution {
        section: offset.section,
        start: offset.offset + 1,
        end: 0,
        module: 0,
    };
    let contributions = context.contributions.used();
    let place = contributions.position(&above).checked_sub(1)?;
    let candidate = *contributions.rows.get(place)?;
    holds(&candidate, offset).then_some(candidate)
}

// An address lies nowhere if no section contains it, or no contribution the place in that section. `let .. else` at both steps is a rule of the
// project.
pub fn locate(context: &Context<'_>, address: u32) -> Option<Location>
    ensures { result ≡ located (meaning context.now) address }
{
    let Some(spot) = spot_of(&context.sections, address) else {
        return None;
    };
    let Some(contribution) = contribution_at(context, spot.offset) else {
        return None;
    };
    Some(Location {
        base: spot.base,
        offset: spot.offset,
        contribution,
    })
}
