// A provider with some of its modules hidden.
#![tactic(auto)]

ghost use Rattle.std.specs.Prelude.{◌≡◌, ◌≤◌, true, false, [], take, Some, None, Ok, Err, MatchOption};
ghost use Rattle.base.specs.declared.refusal.Refusal.TheVariants.{TooManyHidden};
ghost use Rattle.hiding.specs.Hidden.{among, apart, hide, hide_regular, with};

use base::image::{
    Ending, Entry, PublicSymbol, Section, SectionContribution, SectionOffset, TextPart,
};
use base::refusal::Refusal;
use image::ImageSource;
use provider::ModuleProvider;
use provider::symbols::{LineRow, ModuleState, SiteRow, SymbolRecord};

// The most modules that one layer hides.
const MOST_HIDDEN: usize = 64;

// The first `count` numbers are those of the hidden modules, each once. It has no model, so that `≡` compares whole layers.
#[derive(Drop)]
pub struct Hiding<P> {
    below: P,
    // an array with a count: the list lives inside the layer, and nothing is allocated
    numbers: [u16; MOST_HIDDEN],
    count: usize,
    ghost few: { count ≤ 64 },
    ghost once: { apart (take count numbers) ≡ true },
}

impl<P> Hiding<P> {
    ghost use Rattle.hiding.specs.Layer.{below, hidden};

    // Hides nothing yet.
    pub fn over(provider: P) -> Hiding<P>
        ensures below { below result ≡ provider }
        ensures numbers { hidden result ≡ [] }
    {
        Hiding {
            below: provider,
            numbers: [0; MOST_HIDDEN],
            count: 0,
        }
    }

    // Hides one module more. A 65th is refused, and the layer is as it was.
    pub fn hide(&mut self, number: u16) -> Result<(), Refusal>
        ensures below { below self.new ≡ below self.old }
        ensures again { among (hidden self.old) number ≡ true → self.new ≡ self.old }
        ensures numbers { elim result [ Ok v ↦ with (hidden self.old) number ≡ Some (hidden self.new) | Err e ↦ (with (hidden self.old) number ≡ None) × (e ≡ TooManyHidden) × (self.new ≡ self.old) ] }
    {
        if self.hides(number) {
            return Ok(());
        }
        if self.count >= MOST_HIDDEN {
            return Err(Refusal::TooManyHidden);
        }
        self.numbers[self.count] = number;
        self.count += 1;
        Ok(())
    }

    // The provider below, where the module is not hidden.
    fn shown(&self, number: u16) -> Option<&P>
        ensures { MatchOption result (among (hidden self.now) number ≡ true) (λ p. (among (hidden self.now) number ≡ false) × (p.now ≡ below self.now)) }
    {
        if self.hides(number) {
            return None;
        }
        Some(&self.below)
    }

    fn hides(&self, number: u16) -> bool
        ensures { result ≡ among (hidden self.now) number }
    {
        is_among(&self.numbers[0..self.count], number)
    }
}

// A loop, and not `contains`: docs/DECISIONS.md wants the layer's list looped over.
fn is_among(numbers: &[u16], number: u16) -> bool
    ensures { result ≡ among numbers.now number }
{
    for used in numbers {
        if *used == number {
            return true;
        }
    }
    false
}

impl<P: ImageSource> ImageSource for Hiding<P> {
    ghost use Rattle.hiding.specs.Layer.{below};

    ghost image = { λ h. P.ImageSource.image (below h) };

    ghost lawful = { λ h. P.ImageSource.lawful (below h) };

    fn text(&self) -> &[u8] {
        self.below.text()
    }

    fn section(&self, item: u32) -> Option<Section> {
        self.below.section(item)
    }

    fn public_symbol(&self, item: u32) -> Entry<PublicSymbol> {
        self.below.public_symbol(item)
    }

    fn contribution(&self, item: u32) -> Entry<SectionContribution> {
        self.below.contribution(item)
    }
}

impl<P: ModuleProvider> ModuleProvider for Hiding<P> {
    ghost use Rattle.hiding.specs.Layer.{below, hidden};

    ghost modules = { λ h. hide (hidden h) (P.ModuleProvider.modules (below h)) };

    ghost regular = { λ h. hide_regular (hidden h) (P.ModuleProvider.modules (below h)) (P.ModuleProvider.regular (below h)) };

    fn module_count(&self) -> u32 {
        self.below.module_count()
    }

    fn module_state(&self, number: u16) -> ModuleState {
        self.shown(number)
            .map_or(ModuleState::Absent, |below| below.module_state(number))
    }

    fn symbol(&self, number: u16, item: u32) -> Entry<SymbolRecord> {
        self.shown(number)
            .map_or(Ok(None), |below| below.symbol(number, item))
    }

    fn extras(&self, number: u16) -> Ending {
        self.shown(number)
            .map_or(Ok(()), |below| below.extras(number))
    }

    fn site_row(&self, number: u16, site: u32, start: SectionOffset, item: u32) -> Entry<SiteRow> {
        self.shown(number).map_or(Ok(None), |below| below.site_row(number, site, start, item))
    }

    fn line_row(&self, number: u16, start: SectionOffset, item: u32) -> Entry<LineRow> {
        self.shown(number)
            .map_or(Ok(None), |below| below.line_row(number, start, item))
    }

    fn file_name(&self, number: u16, file: u32) -> Option<TextPart> {
        self.shown(number)?.file_name(number, file)
    }
}
