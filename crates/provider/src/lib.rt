// An image with its modules, by its meaning: the questions that lookup asks, each answered from the meaning alone.
#![tactic(auto)]

ghost use Rattle.std.specs.Prelude.{◌≡◌};
ghost use Rattle.image.specs.Image.{entry};
ghost use Rattle.provider.specs.Modules.{Modules, Regular, content, state_of};

pub mod symbols;

use base::image::{Ending, Entry, SectionOffset, TextPart};
use image::ImageSource;
use symbols::{LineRow, ModuleState, SiteRow, SymbolRecord};

// A question about a module that is absent or broken is answered as by one that has nothing.
pub trait ModuleProvider: ImageSource {
    // What the modules mean.
    ghost modules: { Self → Modules };

    // At most 65,536 modules, whose records' indices rise and whose lists have at most 4,294,967,295 items.
    ghost regular: { (p : Self) → Regular (modules p) };

    fn module_count(&self) -> u32
        ensures { result ≡ (modules self.now).count };

    fn module_state(&self, number: u16) -> ModuleState
        ensures { result ≡ state_of ((modules self.now).at number) };

    fn symbol(&self, number: u16, item: u32) -> Entry<SymbolRecord>
        ensures { result ≡ entry (content ((modules self.now).at number)).symbols (content ((modules self.now).at number)).symbols_end item };

    // The line program and the inlinees: clean where they can be read.
    fn extras(&self, number: u16) -> Ending
        ensures { result ≡ (content ((modules self.now).at number)).extras };

    // The rows of the site whose record has the index `site`, for a walk from `start`.
    fn site_row(&self, number: u16, site: u32, start: SectionOffset, item: u32) -> Entry<SiteRow>
        ensures { result ≡ entry ((content ((modules self.now).at number)).site_rows site start).items ((content ((modules self.now).at number)).site_rows site start).ending item };

    // The line rows of the function that starts at `start`.
    fn line_row(&self, number: u16, start: SectionOffset, item: u32) -> Entry<LineRow>
        ensures { result ≡ entry ((content ((modules self.now).at number)).line_rows start).items ((content ((modules self.now).at number)).line_rows start).ending item };

    fn file_name(&self, number: u16, file: u32) -> Option<TextPart>
        ensures { result ≡ (content ((modules self.now).at number)).file file };
}
