// Which addresses are asked.
use base::image::{Section, SectionContribution};
use std::alloc::{AllocError, Global};

// Addresses within contributions, by a linear congruential generator.
#[derive(Drop)]
pub struct Places<'i> {
    sections: &'i [Section],
    state: u64,
}

impl<'i> Places<'i> {
    pub fn over(sections: &'i [Section]) -> Places<'i> {
        Places { sections, state: 1 }
    }

    fn next_number(&mut self) -> u32 {
        self.state = self
            .state
            .wrapping_mul(6_364_136_223_846_793_005)
            .wrapping_add(1_442_695_040_888_963_407);
        (self.state >> 32) as u32
    }

    // One address, if there are contributions.
    fn next_address(&mut self, rows: &[SectionContribution]) -> Option<u32> {
        let chosen = (self.next_number() as usize).checked_rem(rows.len())?;
        let row = *rows.get(chosen)?;
        let place = self.next_number().checked_rem(row.size).unwrap_or(0);
        let address = self.section_address(row.offset.section);
        Some(address.wrapping_add(row.offset.offset).wrapping_add(place))
    }

    // Sections are counted from 1.
    fn section_address(&self, number: u16) -> u32 {
        usize::from(number)
            .checked_sub(1)
            .and_then(|index| self.sections.get(index))
            .map_or(0, |section| section.address)
    }

    pub fn addresses(
        &mut self,
        heap: Global,
        rows: &[SectionContribution],
        count: usize,
    ) -> Result<Vec<u32>, AllocError> {
        let mut addresses = Vec::new(heap);
        for _ in 0..count {
            if let Some(address) = self.next_address(rows) {
                addresses.push(address)?;
            }
        }
        Ok(addresses)
    }
}

// The contributions of the module that the contribution in the middle is of.
pub fn of_one_module(
    heap: Global,
    rows: &[SectionContribution],
) -> Result<Vec<SectionContribution>, AllocError> {
    let mut chosen = Vec::new(heap);
    if let Some(middle) = rows.get(rows.len() / 2) {
        for row in rows {
            if row.module == middle.module {
                chosen.push(*row)?;
            }
        }
    }
    Ok(chosen)
}
