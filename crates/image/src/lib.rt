// An image, by its meaning: the questions that building asks, each answered from the meaning alone.
#![tactic(auto)]

ghost use Rattle.std.specs.Prelude.{◌≡◌};
ghost use Rattle.std.specs.List.{slice_get};
ghost use Rattle.image.specs.Image.{Image, Lawful, entry};

pub mod check;

use base::image::{Entry, PublicSymbol, Section, SectionContribution};

pub trait ImageSource {
    // What the source means.
    ghost image: { Self → Image };

    // Its lists have at most 4,294,967,295 items, and its names are parts of its text.
    ghost lawful: { (s : Self) → Lawful (image s) };

    fn text(&self) -> &[u8]
        ensures { result.now ≡ (image self.now).text };

    // Items are counted from 0. Past the last one there is no section, and the other lists answer with their ending.
    fn section(&self, item: u32) -> Option<Section>
        ensures { result ≡ slice_get (image self.now).sections item };

    fn public_symbol(&self, item: u32) -> Entry<PublicSymbol>
        ensures { result ≡ entry (image self.now).symbols (image self.now).symbols_end item };

    fn contribution(&self, item: u32) -> Entry<SectionContribution>
        ensures { result ≡ entry (image self.now).contributions (image self.now).contributions_end item };
}
