// A succession of addresses.
ghost use Rattle.std.specs.Prelude.{◌≡◌, List, ◌++◌, map, length, take, drop};
ghost use Rattle.context.specs.Context.{meaning};
ghost use Rattle.lookup.specs.Reading.{empty_shelf};
ghost use Rattle.lookup.specs.Finding.{find_function};
ghost use Rattle.lookup.specs.Laws.{FirstsInOrder};
ghost use Rattle.listing.specs.Calls.{History};
ghost use Rattle.procedures.specs.declared.row.Procedure.{Procedure as Row};

use base::refusal::Refusal;
use context::tables::Context;
use image::ImageSource;
use procedures::function::Function;
use provider::ModuleProvider;
use resolver::resolver::Resolver;

// Opens a resolver and looks up one address after the other, as far as there are rows for the answers. What was looked up before makes no
// difference: each answer is that of a fresh resolver.
pub fn answer_all<P: ModuleProvider>(
    provider: P,
    context: &Context<'_>,
    addresses: &[u32],
    answers: &mut [Result<Option<Function>, Refusal>],
) -> Resolver<P>
    ensures answers { answers.new ≡ map (λ a. (find_function (P.ImageSource.image provider).text (P.ModuleProvider.modules provider) (meaning context.now) a empty_shelf).answer) (take (length answers.old) addresses.now) ++ drop (length addresses.now) answers.old }
    ensures provider { result.provider ≡ provider }
    ensures history { History (P.ImageSource.image provider).text (P.ModuleProvider.modules provider) (meaning context.now) }
    ensures firsts { (ps : List Row) → FirstsInOrder ps }
{
    let mut resolver = Resolver::open(provider);
    // By index: what is written through a zip of `iter_mut` is not known afterwards.
    let count = addresses.len().min(answers.len());
    for k in 0..count {
        answers[k] = resolver.find_function(context, addresses[k]);
    }
    resolver
}
