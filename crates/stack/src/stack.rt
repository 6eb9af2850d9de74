// What is known of a place in a function, and how the frames that follow from it come into a table.
ghost use Rattle.std.specs.Prelude.{◌≡◌, Ok};
ghost use Rattle.provider.specs.Modules.{content};
ghost use Rattle.inlining.specs.Steps.{then};
ghost use Rattle.inlining.specs.Finding.{file_in, function_frame as frame_of_function, inline_frame as frame_of_call, fitted};
ghost use Rattle.stack.specs.Known.{known, nothing_known, told, frames_from};

use base::image::SectionOffset;
use base::refusal::{FaultyList, Refusal};
use frames::frame::{Frame, FrameFile, FunctionFrames};
use frames::range::InlineRange;
use lines::line_at;
use procedures::function::Function;
use procedures::name::NameRow;
use procedures::row::Procedure;
use provider::ModuleProvider;
use provider::symbols::LineRow;
use ranges::calls::InlineCalls;
use sites::calls::inline_calls;

// The row that tells the function's file and line, and the calls that are inlined at the place.
#[derive(Drop)]
pub struct Stack {
    pub line: Option<LineRow>,
    pub calls: InlineCalls,
}

impl Stack {
    // Of a module without information.
    pub fn unknown() -> Stack
        ensures { told result ≡ nothing_known }
    {
        Stack {
            line: None,
            calls: InlineCalls::empty(),
        }
    }

    // Of a place in the function that starts at `start`. The chosen procedure, if there is one, has the inlined calls.
    pub fn read<P: ModuleProvider>(
        provider: &P,
        module: u16,
        start: SectionOffset,
        place: u32,
        choice: Option<Procedure>,
    ) -> Result<Stack, Refusal>
        ensures { then result (λ s. Ok (told s)) ≡ known «module» (content ((P.ModuleProvider.modules provider.now).at «module»)) start place choice }
    {
        FaultyList::Extras { module }.refuse(provider.extras(module))?;
        let line = line_at(provider, module, start, place)?;
        let calls = match choice {
            Some(procedure) => inline_calls(provider, module, &procedure, place)?,
            None => InlineCalls::empty(),
        };
        Ok(Stack { line, calls })
    }

    // Writes the frames, the innermost call first and the function last, from the table's first row on.
    pub fn write<P: ModuleProvider>(
        &self,
        provider: &P,
        module: u16,
        function: &Function,
        frames: &mut [Frame],
    ) -> Result<FunctionFrames, Refusal>
        ensures answer { result ≡ (fitted frames.old function.now (frames_from «module» (content ((P.ModuleProvider.modules provider.now).at «module»)) function.now (told self.now))).answer }
        ensures table { frames.new ≡ (fitted frames.old function.now (frames_from «module» (content ((P.ModuleProvider.modules provider.now).at «module»)) function.now (told self.now))).table }
    {
        let calls = self.calls.used();
        let inlined = calls.len();
        if frames.len() <= inlined {
            return Err(Refusal::FrameTableShort {
                needed: inlined as u32 + 1,
            });
        }
        for k in 0..inlined {
            frames[k] = inline_frame(provider, module, &calls[inlined - 1 - k]);
        }
        frames[inlined] = function_frame(provider, module, function, self.line);
        Ok(FunctionFrames {
            start_rva: function.start_rva,
            end_rva: function.end_rva,
            frames: inlined + 1,
        })
    }
}

fn file_in<P: ModuleProvider>(provider: &P, module: u16, number: u32) -> FrameFile
    ensures { result ≡ file_in (content ((P.ModuleProvider.modules provider.now).at «module»)) number }
{
    let name = provider.file_name(module, number);
    FrameFile { number, name }
}

fn inline_frame<P: ModuleProvider>(provider: &P, module: u16, range: &InlineRange) -> Frame
    ensures { result ≡ frame_of_call «module» (content ((P.ModuleProvider.modules provider.now).at «module»)) range.now }
{
    Frame {
        name: NameRow::Id(module, range.inlinee),
        file: range.file.map(|number| file_in(provider, module, number)),
        line: range.line,
    }
}

fn function_frame<P: ModuleProvider>(
    provider: &P,
    module: u16,
    function: &Function,
    line: Option<LineRow>,
) -> Frame
    ensures { result ≡ frame_of_function (content ((P.ModuleProvider.modules provider.now).at «module»)) function.now line }
{
    Frame {
        name: function.name,
        file: line.map(|row| file_in(provider, module, row.file)),
        line: line.map(|row| row.line),
    }
}
