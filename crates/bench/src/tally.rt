// What was answered.
use base::refusal::Refusal;
use frames::frame::{Frame, FunctionFrames};
use procedures::function::Function;
use procedures::name::{Name, NameRow, part_of};
use std::fmt;

// How many answers there are of each kind, how many frames, and a sum over what the answers tell, in their order. It wraps.
#[derive(Clone, Copy, Default)]
pub struct Tally {
    found: u64,
    none: u64,
    refused: u64,
    frames: u64,
    sum: u64,
}

impl Tally {
    pub fn add_function(&mut self, text: &[u8], answer: Result<Option<Function>, Refusal>) {
        match answer {
            Ok(Some(function)) => {
                self.found = self.found.wrapping_add(1);
                self.feed_extent(function.start_rva, function.end_rva);
                self.feed_name(text, function.name);
            }
            Ok(None) => self.none = self.none.wrapping_add(1),
            Err(_) => self.refused = self.refused.wrapping_add(1),
        }
    }

    // The rows are those that the answer's frames stand in.
    pub fn add_frames(
        &mut self,
        text: &[u8],
        answer: Result<Option<FunctionFrames>, Refusal>,
        rows: &[Frame],
    ) {
        match answer {
            Ok(Some(found)) => {
                self.found = self.found.wrapping_add(1);
                self.feed_extent(found.start_rva, found.end_rva);
                self.feed_frames(text, rows.get(..found.frames).unwrap_or(rows));
            }
            Ok(None) => self.none = self.none.wrapping_add(1),
            Err(_) => self.refused = self.refused.wrapping_add(1),
        }
    }

    // Of the names only that of the function is fed, which comes last.
    fn feed_frames(&mut self, text: &[u8], frames: &[Frame]) {
        self.frames = self.frames.wrapping_add(frames.len() as u64);
        for frame in frames {
            self.feed_frame(text, *frame);
        }
        let function = frames.last().map_or(NameRow::None, |frame| frame.name);
        self.feed_name(text, function);
    }

    fn feed_frame(&mut self, text: &[u8], frame: Frame) {
        let file = frame
            .file
            .and_then(|file| file.name)
            .and_then(|name| part_of(text, name));
        self.feed(file.map_or(u64::MAX, |bytes| bytes.len() as u64));
        self.feed(frame.line.map_or(u64::MAX, u64::from));
    }

    fn feed_extent(&mut self, start: u32, end: Option<u32>) {
        self.feed(start.into());
        self.feed(end.map_or(u64::MAX, u64::from));
    }

    // Of a name its length is fed.
    fn feed_name(&mut self, text: &[u8], name: NameRow) {
        self.feed(match name.name(text) {
            Name::Raw(bytes) | Name::Typed(bytes, _, _) => bytes.len() as u64,
            Name::None | Name::Id(_, _) => u64::MAX,
        });
    }

    fn feed(&mut self, number: u64) {
        self.sum = (self.sum ^ number).wrapping_mul(0x100_0000_01b3);
    }
}

impl fmt::Display for Tally {
    fn fmt<W: fmt::Write>(&self, f: &mut fmt::Formatter<W>) -> fmt::Result {
        let Tally {
            found,
            none,
            refused,
            frames,
            sum,
        } = *self;
        write!(
            f,
            "found {found} none {none} refused {refused} frames {frames} sum {sum:#x}"
        )
    }
}
