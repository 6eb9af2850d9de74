// How far procedures reach, many at a time: what a search for the one that contains a place leaves out.
ghost use Rattle.std.specs.Prelude.{◌≡◌, ℕ, ◌≤◌, ◌<◌, List, length, slice_index_or, IfSome};
ghost use Rattle.procedures.specs.declared.row.Procedure.{Procedure as Row};
ghost use Rattle.shelf.specs.Stretches.{along as place_along, end_of as procedure_end, Bounds, FirstStretched, Stretched};

use procedures::row::Procedure;

// How far a section's places are from those of the next, where sections are laid one after the other. No end lies further.
const SECTION_SPAN: u64 = 0x2_0000_0000;

// The procedures from row `from` on, up to the one whose stretch this is. None of them ends after `end`, by sections laid one after the other.
#[derive(Clone, Copy, Default)]
pub struct Stretch {
    pub from: usize,
    pub end: u64,
}

// A place by one number, with the sections laid one after the other.
pub fn along(section: u16, offset: u32) -> u64
    ensures { result ≡ place_along section offset }
{
    u64::from(section) * SECTION_SPAN + u64::from(offset)
}

// Fills in the stretch of each procedure.
pub(crate) fn fill_stretches(procedures: &[Procedure], stretches: &mut [Stretch])
    requires { length procedures.now ≤ length stretches.old }
    ensures length { length stretches.new ≡ length stretches.old }
    ensures stretched { Stretched procedures.now stretches.new }
{
    for row in 0..procedures.len() {
        stretches[row] = stretch_up_to(procedures, stretches, row);
    }
}

// The stretch that ends with one row.
fn stretch_up_to(procedures: &[Procedure], stretches: &[Stretch], row: usize) -> Stretch
    requires { FirstStretched row procedures.now stretches.now × ((row < length procedures.now) × (length procedures.now ≤ length stretches.now)) }
    ensures { Bounds procedures.now row result }
{
    let alone = Stretch {
        from: row,
        end: end_of(&procedures[row]),
    };
    joined(stretches, alone).unwrap_or(alone)
}

// A row makes one stretch with the two before it where these have the same length: so a search leaves out all but a few of any number of rows.
#[tactic(auto, using(crate::proofs::Joining::joins))]
fn joined(stretches: &[Stretch], alone: Stretch) -> Option<Stretch>
    requires { (k : ℕ) (d : Stretch) → k < alone.from → (slice_index_or stretches.now k d).from ≤ k }
    ensures { (ps : List Row) → FirstStretched alone.from ps stretches.now → Bounds ps alone.from alone → IfSome result (λ s. Bounds ps alone.from s) }
{
    let right = stretches.get(alone.from.checked_sub(1)?)?;
    let left = stretches.get(right.from.checked_sub(1)?)?;
    if alone.from - right.from != right.from - left.from {
        return None;
    }
    Some(Stretch {
        from: left.from,
        end: alone.end.max(right.end).max(left.end),
    })
}

fn end_of(procedure: &Procedure) -> u64
    ensures { result ≡ procedure_end procedure.now }
{
    along(procedure.offset.section, procedure.offset.offset) + u64::from(procedure.length)
}
