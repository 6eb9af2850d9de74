// The frames of an address.
ghost use Rattle.std.specs.Prelude.{◌≡◌};
ghost use Rattle.frames.specs.Frames.{no_frame};

use base::image::TextPart;
use procedures::name::NameRow;

// No address has more frames: at most 32 calls are inlined at it, and the function comes to these.
pub const MOST_FRAMES: usize = 33;

// A source file, by its module's number for it, and its name where it has one.
#[derive(Clone, Copy)]
pub struct FrameFile {
    pub number: u32,
    pub name: Option<TextPart>,
}

// A function that was inlined at the address, or the one that contains it. A row of the caller's table.
#[derive(Clone, Copy)]
pub struct Frame {
    pub name: NameRow,
    pub file: Option<FrameFile>,
    pub line: Option<u32>,
}

// The extent of an address's function, and how many rows of the table are its frames: the innermost call first, the function last.
#[derive(Clone, Copy)]
pub struct FunctionFrames {
    pub start_rva: u32,
    pub end_rva: Option<u32>,
    pub frames: usize,
}

impl Frame {
    pub fn empty() -> Frame
        ensures { result ≡ no_frame }
    {
        Frame {
            name: NameRow::None,
            file: None,
            line: None,
        }
    }
}
