// The list of all known functions.
ghost use Rattle.std.specs.Prelude.{◌≡◌};
ghost use Rattle.context.specs.Context.{meaning};
ghost use Rattle.listing.specs.Laws.{Lists};
ghost use Rattle.shelf.specs.Shelf.{shelved};
ghost use Rattle.resolver.specs.Listing.{listing};

use crate::resolver::Resolver;
use addresses::Address;
use base::refusal::Refusal;
use context::tables::Context;
use functions::list::list_functions;
use provider::ModuleProvider;

impl<P: ModuleProvider> Resolver<P> {
    // Lists the addresses of all known functions in the table's first rows, and answers how many there are. Refused, every row of the table
    // is the empty row.
    pub fn functions(
        &mut self,
        context: &Context<'_>,
        addresses: &mut [Address],
    ) -> Result<usize, Refusal>
        ensures answer { result ≡ (listing (P.ModuleProvider.modules self.old.provider) context.now addresses.old self.old.shelf).answer }
        ensures table { addresses.new ≡ (listing (P.ModuleProvider.modules self.old.provider) context.now addresses.old self.old.shelf).table }
        ensures shelf { shelved self.new.shelf ≡ (listing (P.ModuleProvider.modules self.old.provider) context.now addresses.old self.old.shelf).shelf }
        ensures provider { self.new.provider ≡ self.old.provider }
        ensures lists { Lists (P.ModuleProvider.modules self.old.provider) (meaning context.now) }
    {
        list_functions(&self.provider, &mut self.shelf, context, addresses)
    }
}
