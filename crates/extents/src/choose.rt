// The function at a location.
ghost use Rattle.std.specs.Prelude.{◌≡◌, ◌+◌, ◌^◌, ◌<◌, ◌≤◌, length, take, Some, IfSome, IsTrue};
ghost use Rattle.order.specs.Rank.{first, last};
ghost use Rattle.order.specs.Placed.{Reach};
ghost use Rattle.base.specs.Rows.{offset_rank, start_rank};
ghost use Rattle.context.specs.Context.{meaning};
ghost use Rattle.lookup.specs.Finding.{covers, chosen, reaches, follows, capped as at_most_top, of_procedure, of_start, by_choice};

use crate::holds::holds;
use crate::name::procedure_name;
use base::context::KnownStart;
use base::image::SectionOffset;
use context::tables::Context;
use procedures::function::{Function, Location};
use procedures::name::NameRow;
use procedures::row::Procedure;
use shelf::shelf::Procedures;
use shelf::stretches::along;
use table::{Sorted, reach};

// Of the procedures that contain a place, the one that starts last. They may overlap and nest.
#[tactic(auto, using(lookup::proofs::Searching::chosen_reach))]
pub fn choose(procedures: &Procedures<'_>, offset: SectionOffset) -> Option<Procedure>
    ensures chosen { result ≡ chosen offset procedures.now.rows.now }
    ensures covers { IfSome result (λ p. IsTrue (covers offset p)) }
{
    let here = Procedure {
        offset,
        ..Procedure::empty()
    };
    last_holding(procedures, reach(procedures.rows, &here), offset)
}

// The last of the first rows, up to `upto`, that contains a place. A stretch that ends at or below it is left out whole.
fn last_holding(
    procedures: &Procedures<'_>,
    mut upto: usize,
    offset: SectionOffset,
) -> Option<Procedure>
    requires { upto ≤ length procedures.now.rows.now }
    ensures { result ≡ chosen offset (take upto procedures.now.rows.now) }
{
    let place = along(offset.section, offset.offset);
    while let Some(row) = upto.checked_sub(1) {
        let procedure = procedures.rows[row];
        let stretch = procedures.stretches[row];
        if stretch.end <= place {
            upto = stretch.from;
        } else if holds(&procedure, offset) {
            return Some(procedure);
        } else {
            upto = row;
        }
    }
    None
}

// An address above the top is none.
fn capped(address: u64) -> Option<u32>
    ensures { result ≡ at_most_top address }
{
    u32::try_from(address).ok()
}

fn of_procedure(
    text: &[u8],
    context: &Context<'_>,
    location: &Location,
    procedure: &Procedure,
) -> Function
    ensures { location.now.base + procedure.now.offset.offset < 2 ^ 32 → result ≡ of_procedure text.now (meaning context.now).starts location.now procedure.now }
{
    let start = procedure.offset.offset;
    // of `end()` no bound is known
    let end = u64::from(start) + u64::from(procedure.length);
    Function {
        start_rva: location.base.saturating_add(start),
        end_rva: capped(u64::from(location.base) + end),
        name: procedure_name(text, context, location.contribution.module, procedure),
    }
}

// The last start at or below a place, in its section; `upto` starts do not come after the place.
fn start_below(
    starts: &Sorted<'_, KnownStart>,
    upto: usize,
    offset: SectionOffset,
) -> Option<KnownStart>
    ensures { Reach start_rank starts.now.rows.now (offset_rank offset) upto → result ≡ last (reaches offset) starts.now.rows.now }
{
    let start = *starts.rows.get(upto.checked_sub(1)?)?;
    (start.offset.section == offset.section).then_some(start)
}

// The first start above it.
fn start_above(
    starts: &Sorted<'_, KnownStart>,
    upto: usize,
    offset: SectionOffset,
) -> Option<KnownStart>
    ensures { Reach start_rank starts.now.rows.now (offset_rank offset) upto → result ≡ first (follows offset) starts.now.rows.now }
{
    let start = *starts.rows.get(upto)?;
    (start.offset.section == offset.section).then_some(start)
}

// From a start up to the next one. A start before the contribution says nothing of it.
fn between(location: &Location, start: KnownStart, next: KnownStart) -> Option<Function>
    ensures { location.now.base + start.offset.offset < 2 ^ 32 → result ≡ of_start location.now (Some start) (Some next) }
{
    if start.offset.offset < location.contribution.start {
        return None;
    }
    Some(Function {
        start_rva: location.base.saturating_add(start.offset.offset),
        end_rva: capped(u64::from(location.base) + u64::from(next.offset.offset)),
        name: start.name.map_or(NameRow::None, NameRow::Raw),
    })
}

// The extent of the last start at or below the location's place.
fn of_start(starts: &Sorted<'_, KnownStart>, location: &Location) -> Option<Function>
    ensures { location.now.base + location.now.offset.offset < 2 ^ 32 → result ≡ of_start location.now (last (reaches location.now.offset) starts.now.rows.now) (first (follows location.now.offset) starts.now.rows.now) }
{
    let upto = starts.reach(&location.offset.into());
    let start = start_below(starts, upto, location.offset)?;
    let next = start_above(starts, upto, location.offset)?;
    between(location, start, next)
}

// The function at a location: the procedure that was chosen for it, or else what the known starts tell. A procedure that contains the
// place starts at or below it, so that its address fits too. The text is the provider's and the context the caller's: a struct of both
// would be made for this call alone.
pub fn by_choice(
    text: &[u8],
    context: &Context<'_>,
    location: &Location,
    choice: Option<Procedure>,
) -> Option<Function>
    ensures { location.now.base + location.now.offset.offset < 2 ^ 32 → IfSome choice (λ p. IsTrue (covers location.now.offset p)) → result ≡ by_choice text.now (meaning context.now).starts location.now choice }
{
    match choice {
        Some(procedure) => Some(of_procedure(text, context, location, &procedure)),
        None => of_start(&context.starts.used(), location),
    }
}
