// A provider with a shelf.
ghost use Rattle.std.specs.Prelude.{◌≡◌};
ghost use Rattle.procedures.specs.Names.{spelled, name_of};
ghost use Rattle.lookup.specs.Reading.{empty_shelf};
ghost use Rattle.lookup.specs.Comparing.{same_extent};
ghost use Rattle.lookup.specs.Laws.{Extents, StartsLast};
ghost use Rattle.base.specs.declared.image.SectionOffset.{SectionOffset as Offset};
ghost use Rattle.context.specs.Context.{meaning};
ghost use Rattle.shelf.specs.Shelf.{shelved};
ghost use Rattle.resolver.specs.Resolving.{found, compared};

use base::refusal::Refusal;
use context::tables::Context;
use extents::choose::{by_choice, choose};
use extents::locate::locate;
use image::ImageSource;
use procedures::function::Function;
use procedures::name::{Name, NameRow};
use provider::ModuleProvider;
use shelf::shelf::Shelf;

// The shelf holds what was read of a module last, so that the next address of that module needs no reading.
#[derive(Drop)]
pub struct Resolver<P> {
    pub provider: P,
    pub shelf: Shelf,
}

impl<P: ModuleProvider> Resolver<P> {
    pub fn open(provider: P) -> Resolver<P>
        ensures provider { result.provider ≡ provider }
        ensures shelf { shelved result.shelf ≡ empty_shelf }
    {
        let shelf = Shelf::empty();
        Resolver { provider, shelf }
    }

    // The function that an address belongs to, or none.
    pub fn find_function(
        &mut self,
        context: &Context<'_>,
        address: u32,
    ) -> Result<Option<Function>, Refusal>
        ensures answer { result ≡ (found (P.ImageSource.image self.old.provider) (P.ModuleProvider.modules self.old.provider) context.now address self.old.shelf).answer }
        ensures shelf { shelved self.new.shelf ≡ (found (P.ImageSource.image self.old.provider) (P.ModuleProvider.modules self.old.provider) context.now address self.old.shelf).shelf }
        ensures provider { self.new.provider ≡ self.old.provider }
    {
        let Some(location) = locate(context, address) else {
            return Ok(None);
        };
        self.shelf
            .want(&self.provider, location.contribution.module)?;
        let choice = choose(&self.shelf.procedures(), location.offset);
        Ok(by_choice(self.provider.text(), context, &location, choice))
    }

    // Whether two addresses have the same extent; none where one of them has no function.
    pub fn same_function(
        &mut self,
        context: &Context<'_>,
        first: u32,
        second: u32,
    ) -> Result<Option<bool>, Refusal>
        ensures answer { result ≡ (compared (P.ImageSource.image self.old.provider) (P.ModuleProvider.modules self.old.provider) context.now first second self.old.shelf).answer }
        ensures shelf { shelved self.new.shelf ≡ (compared (P.ImageSource.image self.old.provider) (P.ModuleProvider.modules self.old.provider) context.now first second self.old.shelf).shelf }
        ensures provider { self.new.provider ≡ self.old.provider }
        ensures extents { Extents (P.ImageSource.image self.old.provider).text (P.ModuleProvider.modules self.old.provider) (meaning context.now) (shelved self.old.shelf) }
        ensures chosen { (o : Offset) → StartsLast o (shelved self.old.shelf).procedures }
    {
        let first = self.find_function(context, first)?;
        let second = self.find_function(context, second)?;
        Ok(same_extent(first, second))
    }

    // A name in the provider's text.
    pub fn name(&self, name: NameRow) -> Name<'_>
        ensures { spelled result ≡ name_of (P.ImageSource.image self.now.provider).text name }
    {
        name.name(self.provider.text())
    }
}

fn same_extent(first: Option<Function>, second: Option<Function>) -> Option<bool>
    ensures { result ≡ same_extent first second }
{
    let (first, second) = first.zip(second)?;
    Some(first.start_rva == second.start_rva && first.end_rva == second.end_rva)
}
