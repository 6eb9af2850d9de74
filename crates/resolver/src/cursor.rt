// From function to function along a list.
ghost use Rattle.std.specs.Prelude.{◌≡◌};
ghost use Rattle.shelf.specs.Shelf.{shelved};
ghost use Rattle.resolver.specs.Listing.{stepped};

use crate::resolver::Resolver;
use addresses::Address;
use context::tables::Context;
use image::ImageSource;
use procedures::function::Function;
use provider::ModuleProvider;

// The addresses of a list that are still to come. The resolver is lent to each step.
#[derive(Clone, Copy)]
pub struct Cursor<'t> {
    pub addresses: &'t [Address],
}

impl<'t> Cursor<'t> {
    pub fn over(addresses: &'t [Address]) -> Cursor<'t>
        ensures { result.addresses.now ≡ addresses.now }
    {
        Cursor { addresses }
    }

    // The next function. Addresses that lie in none, and those that are refused, are passed over. None at the end.
    pub fn next<P: ModuleProvider>(
        &mut self,
        resolver: &mut Resolver<P>,
        context: &Context<'_>,
    ) -> Option<Function>
        ensures function { result ≡ (stepped (P.ImageSource.image resolver.old.provider) (P.ModuleProvider.modules resolver.old.provider) context.now self.old.addresses.now resolver.old.shelf).function }
        ensures rest { self.new.addresses.now ≡ (stepped (P.ImageSource.image resolver.old.provider) (P.ModuleProvider.modules resolver.old.provider) context.now self.old.addresses.now resolver.old.shelf).rest }
        ensures shelf { shelved resolver.new.shelf ≡ (stepped (P.ImageSource.image resolver.old.provider) (P.ModuleProvider.modules resolver.old.provider) context.now self.old.addresses.now resolver.old.shelf).shelf }
        ensures provider { resolver.new.provider ≡ resolver.old.provider }
    {
        while let Some((first, rest)) = self.addresses.split_first() {
            self.addresses = rest;
            if let Ok(Some(function)) = resolver.find_function(context, first.rva) {
                return Some(function);
            }
        }
        None
    }
}
