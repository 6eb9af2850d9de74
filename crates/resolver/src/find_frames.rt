// The frames of an address.
ghost use Rattle.std.specs.Prelude.{◌≡◌, ℕ, Bool, List};
ghost use Rattle.context.specs.Context.{meaning};
ghost use Rattle.shelf.specs.Shelf.{shelved};
ghost use Rattle.provider.specs.Modules.{Module};
ghost use Rattle.provider.specs.declared.symbols.LineRow.{LineRow as Row};
ghost use Rattle.procedures.specs.declared.row.Procedure.{Procedure as Chosen};
ghost use Rattle.frames.specs.declared.range.InlineRange.{InlineRange as Range};
ghost use Rattle.inlining.specs.Choice.{line_place};
ghost use Rattle.inlining.specs.Ranges.{range_start};
ghost use Rattle.inlining.specs.Laws.{Depth, Agrees, Covers, Longest, FirstGreatest};
ghost use Rattle.resolver.specs.Resolving.{framed};

use crate::resolver::Resolver;
use base::refusal::Refusal;
use context::tables::Context;
use frames::frame::{Frame, FunctionFrames};
use image::ImageSource;
use provider::ModuleProvider;
use stack::find::find_frames;

impl<P: ModuleProvider> Resolver<P> {
    // The function that an address belongs to, and its frames: the calls that are inlined there, the innermost first, and the function
    // last. They come into the first rows of the table. Refused, or without a function, the table stays as it is.
    pub fn find_frames(
        &mut self,
        context: &Context<'_>,
        address: u32,
        frames: &mut [Frame],
    ) -> Result<Option<FunctionFrames>, Refusal>
        ensures answer { result ≡ (framed (P.ImageSource.image self.old.provider) (P.ModuleProvider.modules self.old.provider) context.now address frames.old self.old.shelf).answer }
        ensures table { frames.new ≡ (framed (P.ImageSource.image self.old.provider) (P.ModuleProvider.modules self.old.provider) context.now address frames.old self.old.shelf).table }
        ensures shelf { shelved self.new.shelf ≡ (framed (P.ImageSource.image self.old.provider) (P.ModuleProvider.modules self.old.provider) context.now address frames.old self.old.shelf).shelf }
        ensures provider { self.new.provider ≡ self.old.provider }
        ensures depth { Depth (P.ImageSource.image self.old.provider).text (P.ModuleProvider.modules self.old.provider) (meaning context.now) (shelved self.old.shelf) }
        ensures agrees { Agrees (P.ImageSource.image self.old.provider).text (P.ModuleProvider.modules self.old.provider) (meaning context.now) (shelved self.old.shelf) }
        ensures covers { (m : ℕ) (x : Module) (p : Chosen) → Covers m x p }
        ensures longest { (test : ℕ → Bool) (n : ℕ) → Longest test n }
        ensures greatest { ((rows : List Row) → FirstGreatest line_place rows) × ((ranges : List Range) → FirstGreatest range_start ranges) }
    {
        find_frames(&self.provider, &mut self.shelf, context, address, frames)
    }
}
