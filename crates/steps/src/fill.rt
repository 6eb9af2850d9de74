// The five steps, one after the other.
ghost use Rattle.std.specs.Prelude.{List, length, IfOk, IfErr, Err};
ghost use Rattle.base.specs.declared.context.KnownStart.{KnownStart as Start};
ghost use Rattle.base.specs.declared.context.Contribution.{Contribution as Row};
ghost use Rattle.building.specs.Outcome.{Outcome};
ghost use Rattle.steps.specs.Tables.{SameSlices, StayOrdered, Fresh, Fills};

use crate::tables::Filling;
use base::refusal::Refusal;
use image::ImageSource;
use sections::{Sections, read_sections};
use starts::{add_section_ends, read_public_symbols};

impl Filling<'_> {
    // Fills the tables, of which no row is used yet; answers the sections. Tables that are in order stay in order, whichever step refuses.
    pub fn fill<S: ImageSource>(&mut self, source: &S) -> Result<Sections, Refusal>
        ensures refused { (old : List Start) (rows : List Row) → Fresh old rows self.old → IfErr result (λ e. Outcome (S.ImageSource.image source.now) (length old) (length rows) (Err e)) }
        ensures filled { (old : List Start) (rows : List Row) → Fresh old rows self.old → IfOk result (λ s. Fills (S.ImageSource.image source.now) s old rows self.new) }
        ensures slices { SameSlices self.old self.new }
        ensures ordered { StayOrdered self.old self.new }
    {
        let sections = read_sections(source)?;
        read_public_symbols(source, &sections, &mut self.starts)?;
        self.read_contributions(source, &sections)?;
        self.check_overlaps()?;
        add_section_ends(&sections, &mut self.starts)?;
        Ok(sections)
    }
}
