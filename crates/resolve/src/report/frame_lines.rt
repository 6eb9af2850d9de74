// The frames of an address, a line for each after one for the function.
use crate::report::parts::{write_extent, write_name, write_quoted, write_refusal};
use crate::report::reply::write_head;
use base::refusal::Refusal;
use frames::frame::{Frame, FrameFile, FunctionFrames};
use image::ImageSource;
use procedures::name::part_of;
use provider::ModuleProvider;
use resolver::resolver::Resolver;
use std::alloc::AllocError;
use std::fmt::Write;
use succession::calls::Call;

pub fn write_frames<P: ModuleProvider>(
    out: &mut String,
    resolver: &Resolver<P>,
    call: Call,
    found: Result<Option<FunctionFrames>, Refusal>,
    frames: &[Frame],
) -> Result<(), AllocError> {
    write_head(out, call)?;
    match found {
        Ok(Some(found)) => write_found(out, resolver, call, found, frames),
        Ok(None) => out.push_str("none\n"),
        Err(refusal) => write_refusal(out, &refusal),
    }
}

fn write_found<P: ModuleProvider>(
    out: &mut String,
    resolver: &Resolver<P>,
    call: Call,
    found: FunctionFrames,
    frames: &[Frame],
) -> Result<(), AllocError> {
    out.push_str("frames ")?;
    write_extent(out, found.start_rva, found.end_rva)?;
    writeln!(out, " {}", found.frames)?;
    for (number, frame) in (0..).zip(frames.iter().take(found.frames)) {
        write_head(out, call)?;
        write_frame(out, resolver, number, *frame)?;
    }
    Ok(())
}

fn write_frame<P: ModuleProvider>(
    out: &mut String,
    resolver: &Resolver<P>,
    number: u64,
    frame: Frame,
) -> Result<(), AllocError> {
    write!(out, "frame {number} ")?;
    write_name(out, resolver.name(frame.name))?;
    if let Some(file) = frame.file {
        write_file(out, resolver.provider.text(), file)?;
    }
    if let Some(line) = frame.line {
        write!(out, " line {line}")?;
    }
    out.push_str("\n")
}

fn write_file(out: &mut String, text: &[u8], file: FrameFile) -> Result<(), AllocError> {
    write!(out, " file {} ", file.number)?;
    match file.name.and_then(|name| part_of(text, name)) {
        Some(bytes) => write_quoted(out, bytes),
        None => out.push_str("unnamed"),
    }
}
