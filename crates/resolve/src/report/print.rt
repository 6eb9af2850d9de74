// What a context holds, line by line.
use crate::report::parts::write_quoted;
use base::context::{Contribution, KnownStart};
use base::image::{Section, SectionOffset};
use context::tables::Context;
use procedures::name::part_of;
use std::alloc::AllocError;
use std::fmt::Write;

pub fn write_context(out: &mut String, text: &[u8], context: &Context) -> Result<(), AllocError> {
    for (number, section) in (1..).zip(context.sections.used()) {
        write_section(out, number, *section)?;
    }
    for contribution in context.contributions.used().rows {
        write_contribution(out, *contribution)?;
    }
    for start in context.starts.used().rows {
        write_start(out, text, *start)?;
    }
    writeln!(out, "functions {}", context.function_count())
}

fn write_section(out: &mut String, number: u64, section: Section) -> Result<(), AllocError> {
    let Section {
        address,
        size,
        executable,
    } = section;
    let kind = if executable { "executable" } else { "data" };
    writeln!(out, "section {number} {address:#x} {size:#x} {kind}")
}

fn write_contribution(out: &mut String, contribution: Contribution) -> Result<(), AllocError> {
    let Contribution {
        section,
        start,
        end,
        module,
    } = contribution;
    writeln!(out, "contribution {section}:{start:#x} {end:#x} {module}")
}

// A name lies within the text of the image that a context was built from.
fn write_start(out: &mut String, text: &[u8], start: KnownStart) -> Result<(), AllocError> {
    let SectionOffset { section, offset } = start.offset;
    write!(out, "start {section}:{offset:#x}")?;
    if let Some(bytes) = start.name.and_then(|name| part_of(text, name)) {
        out.push_str(" ")?;
        write_quoted(out, bytes)?;
    }
    out.push_str("\n")
}
