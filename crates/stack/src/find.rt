// The frames of an address, given a provider and a shelf.
ghost use Rattle.std.specs.Prelude.{◌≡◌, ◌+◌, ◌^◌, ◌<◌, None, Ok};
ghost use Rattle.context.specs.Context.{meaning};
ghost use Rattle.shelf.specs.Shelf.{shelved};
ghost use Rattle.inlining.specs.Steps.{then};
ghost use Rattle.inlining.specs.Finding.{find_frames as frames_found, shelved_frames, written, frames_of};
ghost use Rattle.stack.specs.Known.{told, known_at};

use crate::stack::Stack;
use base::image::SectionOffset;
use base::refusal::Refusal;
use context::tables::Context;
use extents::choose::{by_choice, choose};
use extents::locate::locate;
use frames::frame::{Frame, FunctionFrames};
use image::ImageSource;
use procedures::function::{Function, Location};
use procedures::row::Procedure;
use provider::ModuleProvider;
use shelf::shelf::Shelf;

// The function that an address belongs to, and its frames, the innermost call first. They come into the first rows of the table. Refused, or
// without a function, the table stays as it is.
pub fn find_frames<P: ModuleProvider>(
    provider: &P,
    shelf: &mut Shelf,
    context: &Context<'_>,
    address: u32,
    frames: &mut [Frame],
) -> Result<Option<FunctionFrames>, Refusal>
    ensures answer { result ≡ (frames_found (P.ImageSource.image provider.now).text (P.ModuleProvider.modules provider.now) (meaning context.now) address frames.old (shelved shelf.old)).answer }
    ensures table { frames.new ≡ (frames_found (P.ImageSource.image provider.now).text (P.ModuleProvider.modules provider.now) (meaning context.now) address frames.old (shelved shelf.old)).table }
    ensures shelf { shelved shelf.new ≡ (frames_found (P.ImageSource.image provider.now).text (P.ModuleProvider.modules provider.now) (meaning context.now) address frames.old (shelved shelf.old)).shelf }
{
    let Some(location) = locate(context, address) else {
        return Ok(None);
    };
    shelf.want(provider, location.contribution.module)?;
    frames_at(provider, shelf, context, &location, frames)
}

// The module of the location has been wanted.
fn frames_at<P: ModuleProvider>(
    provider: &P,
    shelf: &Shelf,
    context: &Context<'_>,
    location: &Location,
    frames: &mut [Frame],
) -> Result<Option<FunctionFrames>, Refusal>
    ensures answer { location.now.base + location.now.offset.offset < 2 ^ 32 → result ≡ (shelved_frames (P.ImageSource.image provider.now).text (P.ModuleProvider.modules provider.now) (meaning context.now) location.now frames.old None (shelved shelf.now)).answer }
    ensures table { location.now.base + location.now.offset.offset < 2 ^ 32 → frames.new ≡ (shelved_frames (P.ImageSource.image provider.now).text (P.ModuleProvider.modules provider.now) (meaning context.now) location.now frames.old None (shelved shelf.now)).table }
{
    let choice = choose(&shelf.procedures(), location.offset);
    match by_choice(provider.text(), context, location, choice) {
        Some(function) => {
            write_frames(provider, shelf, location, &function, choice, frames).map(Some)
        }
        None => Ok(None),
    }
}

#[tactic(auto, using(crate::proofs::Telling::written_told, crate::proofs::Telling::written_refused))]
fn write_frames<P: ModuleProvider>(
    provider: &P,
    shelf: &Shelf,
    location: &Location,
    function: &Function,
    choice: Option<Procedure>,
    frames: &mut [Frame],
) -> Result<FunctionFrames, Refusal>
    ensures answer { result ≡ (written frames.old function.now (frames_of (P.ModuleProvider.modules provider.now) location.now (shelved shelf.now) choice function.now)).answer }
    ensures table { frames.new ≡ (written frames.old function.now (frames_of (P.ModuleProvider.modules provider.now) location.now (shelved shelf.now) choice function.now)).table }
{
    let stack = stack_at(provider, shelf, location, function, choice)?;
    stack.write(provider, location.contribution.module, function, frames)
}

// What the module tells of the location. One without information is not on the shelf.
fn stack_at<P: ModuleProvider>(
    provider: &P,
    shelf: &Shelf,
    location: &Location,
    function: &Function,
    choice: Option<Procedure>,
) -> Result<Stack, Refusal>
    ensures { then result (λ s. Ok (told s)) ≡ known_at (P.ModuleProvider.modules provider.now) location.now function.now choice (shelved shelf.now) }
{
    let module = location.contribution.module;
    if shelf.module != Some(module) {
        return Ok(Stack::unknown());
    }
    let start = SectionOffset {
        section: location.offset.section,
        offset: function.start_rva.saturating_sub(location.base),
    };
    Stack::read(provider, module, start, location.offset.offset, choice)
}
