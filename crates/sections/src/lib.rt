// The sections that a context keeps: what is asked of them, and the first step of building, which reads them.
#![tactic(auto)]

ghost use Rattle.std.specs.Prelude.{◌≡◌, ◌+◌, ◌||◌, [], ◌∷◌, ◌++◌, IfOk, OnOk, nat_le, nat_lt};
ghost use Rattle.std.specs.Result.{result_err};
ghost use Rattle.building.specs.Starts.{executable, keeps};
ghost use Rattle.building.specs.Outcome.{top, most_sections, first_refusal, section_refusal};
ghost use Rattle.sections.specs.Used.{used};

mod list;

use base::image::{Section, SectionContribution};
use base::refusal::Refusal;
use image::ImageSource;
pub use list::{MOST_SECTIONS, Sections};
use order::Span;

impl Sections {
    pub fn empty() -> Sections
        ensures count { result.count ≡ 0 }
        ensures none { used result ≡ [] }
    {
        Sections {
            rows: [Section::default(); MOST_SECTIONS],
            count: 0,
        }
    }

    pub fn used(&self) -> &[Section]
        ensures { result.now ≡ used self.now }
    {
        &self.rows[0..self.count]
    }

    // Numbers count from 1.
    pub fn executable(&self, number: u16) -> bool
        ensures { result ≡ executable (used self.now) number }
    {
        let Some(index) = usize::from(number).checked_sub(1) else {
            return false;
        };
        self.used()
            .get(index)
            .is_some_and(|section| section.executable)
    }

    pub fn keeps(&self, contribution: &SectionContribution) -> bool
        ensures { result ≡ keeps (used self.now) contribution.now }
    {
        contribution.size != 0 && self.executable(contribution.offset.section)
    }

    fn push(&mut self, section: Section) -> Result<(), Refusal>
        ensures refused { result_err result ≡ section_refusal self.old.count section }
        ensures pushed { OnOk result (used self.new ≡ used self.old ++ section ∷ []) }
        ensures counted { OnOk result (self.new.count ≡ self.old.count + 1) }
    {
        let item = self.count as u32;
        if is_outside(item, &section) {
            return Err(Refusal::SectionOutside { item });
        }
        self.rows[self.count] = section;
        self.count += 1;
        Ok(())
    }
}

pub fn read_sections<S: ImageSource>(source: &S) -> Result<Sections, Refusal>
    ensures refused { result_err result ≡ first_refusal section_refusal 0 (S.ImageSource.image source.now).sections }
    ensures read { IfOk result (λ s. used s ≡ (S.ImageSource.image source.now).sections) }
{
    let mut sections = Sections::empty();
    while let Some(section) = source.section(sections.count as u32) {
        sections.push(section)?;
    }
    Ok(sections)
}

// Past the last section that is taken, or ending above the top.
fn is_outside(item: u32, section: &Section) -> bool
    ensures { result ≡ (nat_le most_sections item || nat_lt top (section.now.address + section.now.size)) }
{
    item as usize >= MOST_SECTIONS || section.end() > u64::from(u32::MAX)
}
