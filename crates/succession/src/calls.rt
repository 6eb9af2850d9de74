// Successions of calls.
ghost use Rattle.std.specs.Prelude.{◌≡◌};
ghost use Rattle.context.specs.Context.{meaning};
ghost use Rattle.shelf.specs.Shelf.{shelved};
ghost use Rattle.lookup.specs.Reading.{empty_shelf};
ghost use Rattle.listing.specs.Calls.{answer, shelf_left, History};
ghost use Rattle.example.specs.Marked.{Marked};
ghost use Rattle.succession.specs.Succession.{rows_of, given, replied, left, rows_after};

use addresses::Address;
use base::refusal::Refusal;
use context::tables::Context;
use frames::frame::{Frame, FunctionFrames};
use image::ImageSource;
use procedures::function::Function;
use provider::ModuleProvider;
use resolver::resolver::Resolver;

// A call, without its table.
#[derive(Clone, Copy)]
pub enum Call {
    FindFunction(u32),
    FindFrames(u32),
    Functions,
}

#[derive(Clone, Copy)]
pub enum Answer {
    Function(Result<Option<Function>, Refusal>),
    Frames(Result<Option<FunctionFrames>, Refusal>),
    Functions(Result<usize, Refusal>),
}

// The tables of a succession of calls: each call is given the one of its kind, with the rows that the calls before it left.
#[derive(Drop)]
pub struct CallTables<'t> {
    pub frames: &'t mut [Frame],
    pub addresses: &'t mut [Address],
}

impl Call {
    // Makes the call, with the table of its kind.
    pub fn answer<P: ModuleProvider>(
        self,
        resolver: &mut Resolver<P>,
        context: &Context<'_>,
        tables: &mut CallTables<'_>,
    ) -> Answer
        ensures answer { replied result (rows_of tables.new) ≡ answer (P.ImageSource.image resolver.old.provider).text (P.ModuleProvider.modules resolver.old.provider) (meaning context.now) (given self (rows_of tables.old)) (shelved resolver.old.shelf) }
        ensures tables { rows_of tables.new ≡ left (answer (P.ImageSource.image resolver.old.provider).text (P.ModuleProvider.modules resolver.old.provider) (meaning context.now) (given self (rows_of tables.old)) (shelved resolver.old.shelf)) (rows_of tables.old) }
        ensures shelf { shelved resolver.new.shelf ≡ shelf_left (P.ImageSource.image resolver.old.provider).text (P.ModuleProvider.modules resolver.old.provider) (meaning context.now) (given self (rows_of tables.old)) (shelved resolver.old.shelf) }
        ensures provider { resolver.new.provider ≡ resolver.old.provider }
    {
        match self {
            Call::FindFunction(address) => {
                Answer::Function(resolver.find_function(context, address))
            }
            Call::FindFrames(address) => Answer::Frames(resolver.find_frames(
                context,
                address,
                tables.frames,
            )),
            Call::Functions => Answer::Functions(resolver.functions(context, tables.addresses)),
        }
    }
}

// Makes calls one after another on a new resolver, and then one more. The calls before it make no difference: it answers as on a new resolver.
pub fn answer_after<P: ModuleProvider>(
    provider: P,
    context: &Context<'_>,
    calls: &[Call],
    last: Call,
    tables: &mut CallTables<'_>,
) -> (Resolver<P>, Answer)
    ensures answer { replied result.1 (rows_of tables.new) ≡ answer (P.ImageSource.image provider).text (P.ModuleProvider.modules provider) (meaning context.now) (given last (rows_after (P.ImageSource.image provider).text (P.ModuleProvider.modules provider) (meaning context.now) calls.now (rows_of tables.old) empty_shelf)) empty_shelf }
    ensures tables { rows_of tables.new ≡ left (replied result.1 (rows_of tables.new)) (rows_after (P.ImageSource.image provider).text (P.ModuleProvider.modules provider) (meaning context.now) calls.now (rows_of tables.old) empty_shelf) }
    ensures provider { result.0.provider ≡ provider }
    ensures history { History (P.ImageSource.image provider).text (P.ModuleProvider.modules provider) (meaning context.now) }
    ensures example { Marked }
{
    let mut resolver = Resolver::open(provider);
    for call in calls {
        let _answer = call.answer(&mut resolver, context, tables);
    }
    let answer = last.answer(&mut resolver, context, tables);
    (resolver, answer)
}
