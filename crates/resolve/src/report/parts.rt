// What several lines have in common.
use base::refusal::Refusal;
use printing::push_escaped;
use procedures::function::Function;
use procedures::name::Name;
use std::alloc::AllocError;
use std::fmt::Write;

pub fn write_quoted(out: &mut String, bytes: &[u8]) -> Result<(), AllocError> {
    out.push_str("\"")?;
    push_escaped(out, bytes)?;
    out.push_str("\"")
}

// An end that lies above the greatest address is none.
pub fn write_extent(out: &mut String, start: u32, end: Option<u32>) -> Result<(), AllocError> {
    write!(out, "{start:#x} ")?;
    match end {
        Some(end) => write!(out, "{end:#x}"),
        None => out.push_str("-"),
    }
}

pub fn write_name(out: &mut String, name: Name<'_>) -> Result<(), AllocError> {
    match name {
        Name::None => out.push_str("unnamed"),
        Name::Raw(bytes) => {
            out.push_str("raw ")?;
            write_quoted(out, bytes)
        }
        Name::Typed(bytes, module, number) => {
            out.push_str("typed ")?;
            write_quoted(out, bytes)?;
            write!(out, " module {module} type {number}")
        }
        Name::Id(module, inlinee) => write!(out, "inlinee {inlinee} module {module}"),
    }
}

pub fn write_function(
    out: &mut String,
    function: Function,
    name: Name<'_>,
) -> Result<(), AllocError> {
    write_extent(out, function.start_rva, function.end_rva)?;
    out.push_str(" ")?;
    write_name(out, name)?;
    out.push_str("\n")
}

pub fn write_refusal(out: &mut String, refusal: &Refusal) -> Result<(), AllocError> {
    writeln!(out, "refused {}: {refusal}", refusal.number())
}
