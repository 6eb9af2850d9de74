// The frames of an address as addr2line and llvm-symbolizer write them: two lines for each, and a blank line at the end.
use crate::report::parts::write_refusal;
use context::tables::Context;
use frames::frame::{Frame, FrameFile};
use image::ImageSource;
use printing::push_escaped;
use procedures::name::{Name, part_of};
use provider::ModuleProvider;
use resolver::resolver::Resolver;
use std::alloc::AllocError;
use std::fmt::Write;

pub fn write_stack<P: ModuleProvider>(
    out: &mut String,
    resolver: &mut Resolver<P>,
    context: &Context<'_>,
    frames: &mut [Frame],
    address: u32,
) -> Result<(), AllocError> {
    writeln!(out, "{address:#x}")?;
    match resolver.find_frames(context, address, frames) {
        Ok(Some(found)) => {
            for frame in frames.iter().take(found.frames) {
                write_frame(out, resolver, *frame)?;
            }
        }
        Ok(None) => out.push_str("??\n??:?\n")?,
        Err(refusal) => write_refusal(out, &refusal)?,
    }
    out.push_str("\n")
}

fn write_frame<P: ModuleProvider>(
    out: &mut String,
    resolver: &Resolver<P>,
    frame: Frame,
) -> Result<(), AllocError> {
    write_name(out, resolver.name(frame.name))?;
    out.push_str("\n")?;
    write_file(out, resolver.provider.text(), frame.file)?;
    match frame.line {
        Some(line) => writeln!(out, ":{line}"),
        None => out.push_str(":?\n"),
    }
}

fn write_name(out: &mut String, name: Name<'_>) -> Result<(), AllocError> {
    match name {
        Name::None => out.push_str("??"),
        Name::Raw(bytes) | Name::Typed(bytes, _, _) => write_bytes(out, bytes),
        Name::Id(module, inlinee) => write!(out, "inlinee {inlinee} of module {module}"),
    }
}

// A file without a name is told like none.
fn write_file(out: &mut String, text: &[u8], file: Option<FrameFile>) -> Result<(), AllocError> {
    let name = file.and_then(|file| file.name);
    write_bytes(
        out,
        name.and_then(|name| part_of(text, name)).unwrap_or(b""),
    )
}

// An empty name is told like none too: an empty line would end the answer.
fn write_bytes(out: &mut String, bytes: &[u8]) -> Result<(), AllocError> {
    if bytes.is_empty() {
        return out.push_str("??");
    }
    push_escaped(out, bytes)
}
