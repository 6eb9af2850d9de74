// The tables of a description, row by row.
use crate::parts::End;
use crate::row::Row;
use description::Description;
use description::tables::{ImageTables, PartTables};
use printing::push_escaped;
use std::alloc::AllocError;
use std::fmt::Write;

pub fn write_description(out: &mut String, description: &Description) -> Result<(), AllocError> {
    write_text(out, description.text.as_slice())?;
    write_image(out, &description.image)?;
    write_said(out, description)?;
    write_rows(out, description.modules.modules.as_slice())?;
    write_parts(out, &description.modules.parts)?;
    for module in &description.hidden {
        writeln!(out, "hide {module}")?;
    }
    write_rows(out, description.questions.as_slice())
}

fn write_text(out: &mut String, text: &[u8]) -> Result<(), AllocError> {
    out.push_str("text \"")?;
    push_escaped(out, text)?;
    out.push_str("\"\n")
}

fn write_image(out: &mut String, image: &ImageTables) -> Result<(), AllocError> {
    write_rows(out, image.sections.as_slice())?;
    write_rows(out, image.symbols.as_slice())?;
    write_rows(out, image.contributions.as_slice())
}

// What is said once, or what stands for it.
fn write_said(out: &mut String, description: &Description) -> Result<(), AllocError> {
    let starts = description.start_rows;
    let contributions = description.contribution_rows;
    let frames = description.frame_rows;
    let addresses = description.address_rows;
    writeln!(out, "publics end {}", End(description.symbols_end))?;
    writeln!(
        out,
        "contributions end {}",
        End(description.contributions_end)
    )?;
    writeln!(out, "tables {starts} {contributions} {frames} {addresses}")
}

fn write_parts(out: &mut String, parts: &PartTables) -> Result<(), AllocError> {
    write_rows(out, parts.symbols.as_slice())?;
    write_rows(out, parts.files.as_slice())?;
    write_rows(out, parts.sites.lists.as_slice())?;
    write_rows(out, parts.sites.rows.as_slice())?;
    write_rows(out, parts.lines.lists.as_slice())?;
    write_rows(out, parts.lines.rows.as_slice())
}

fn write_rows<T: Row>(out: &mut String, rows: &[T]) -> Result<(), AllocError> {
    for row in rows {
        row.write(out)?;
    }
    Ok(())
}
