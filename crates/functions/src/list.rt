// The list of all known functions.
ghost use Rattle.std.specs.Prelude.{◌≡◌, length, OnOk};
ghost use Rattle.context.specs.Context.{meaning};
ghost use Rattle.shelf.specs.Shelf.{shelved};
ghost use Rattle.listing.specs.Listing.{functions, listed, count_of, table_of};

use crate::add::add_all;
use addresses::Address;
use base::refusal::Refusal;
use context::tables::Context;
use provider::ModuleProvider;
use shelf::shelf::Shelf;
use table::OrderedTable;

// Lists the addresses of all known functions in the table's first rows: of the known starts and then, module by module, of the procedures.
// Answers how many rows there are. Refused, every row of the table is the empty row.
pub fn list_functions<P: ModuleProvider>(
    provider: &P,
    shelf: &mut Shelf,
    context: &Context<'_>,
    addresses: &mut [Address],
) -> Result<usize, Refusal>
    ensures answer { result ≡ (functions (P.ModuleProvider.modules provider.now) (meaning context.now) addresses.old (shelved shelf.old)).answer }
    ensures table { addresses.new ≡ (functions (P.ModuleProvider.modules provider.now) (meaning context.now) addresses.old (shelved shelf.old)).table }
    ensures shelf { shelved shelf.new ≡ (functions (P.ModuleProvider.modules provider.now) (meaning context.now) addresses.old (shelved shelf.old)).shelf }
{
    let count = fill(provider, shelf, context, addresses);
    if count.is_err() {
        addresses.fill(Address::default());
    }
    count
}

// Refused, the rows hold what came until then.
fn fill<P: ModuleProvider>(
    provider: &P,
    shelf: &mut Shelf,
    context: &Context<'_>,
    addresses: &mut [Address],
) -> Result<usize, Refusal>
    ensures answer { result ≡ count_of (listed (P.ModuleProvider.modules provider.now) (meaning context.now) (length addresses.old) (shelved shelf.old)).answer }
    ensures table { OnOk result (addresses.new ≡ table_of addresses.old (listed (P.ModuleProvider.modules provider.now) (meaning context.now) (length addresses.old) (shelved shelf.old)).answer) }
    ensures shelf { shelved shelf.new ≡ (listed (P.ModuleProvider.modules provider.now) (meaning context.now) (length addresses.old) (shelved shelf.old)).shelf }
    ensures length { length addresses.new ≡ length addresses.old }
{
    let mut addresses = OrderedTable::over(addresses);
    add_all(
        &mut addresses,
        &context.sections,
        context.starts.used().rows,
    )?;
    for module in 0..provider.module_count() {
        // a provider has at most 65,536 modules
        shelf.want(provider, module as u16)?;
        add_all(&mut addresses, &context.sections, shelf.procedures().rows)?;
    }
    Ok(addresses.count)
}
