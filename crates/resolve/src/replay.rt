// Replays lists of answers: answers about each image of a list anew, and tells the images that differ. docs/FORMAT.md says what a list has.
mod agree;
pub mod entry;

use crate::report::asked::Asked;
use crate::report::{Rows, write_image};
use agree::agree;
use description::read_description;
use entry::Entry;
use printing::push_escaped;
use std::alloc::{AllocError, Global};
use std::fmt::Write;

// The images that differ, and then how many images and lines the list has.
pub fn write_replayed(
    heap: Global,
    out: &mut String,
    path: &str,
    entries: &[Entry<'_>],
) -> Result<(), AllocError> {
    let mut lines = 0usize;
    let mut different = 0usize;
    for entry in entries {
        lines = lines.saturating_add(entry.answers.len());
        if write_entry(heap, out, entry)? {
            different = different.saturating_add(1);
        }
    }
    let images = entries.len();
    push_escaped(out, path.as_bytes())?;
    writeln!(
        out,
        ": {images} images, {lines} lines, {different} images differ"
    )
}

// Whether the image differs. If so, the lines of both are written from the first that differs on.
fn write_entry(heap: Global, out: &mut String, entry: &Entry<'_>) -> Result<bool, AllocError> {
    let printed = answered(heap, entry.description.as_str())?;
    let known = entry.answers.as_slice();
    let port: Vec<&str> = printed.as_str().lines().collect(heap)?;
    let same = alike(known, port.as_slice());
    if same == known.len() && same == port.len() {
        return Ok(false);
    }
    writeln!(out, "differs: {}", entry.title)?;
    write_rest(out, "list", known, same)?;
    write_rest(out, "port", port.as_slice(), same)?;
    Ok(true)
}

// How many lines agree before the first that do not.
fn alike(known: &[&str], port: &[&str]) -> usize {
    known
        .iter()
        .zip(port.iter())
        .take_while(|(known, port)| agree(known, port))
        .count()
}

fn write_rest(
    out: &mut String,
    whose: &str,
    lines: &[&str],
    from: usize,
) -> Result<(), AllocError> {
    for line in lines.iter().skip(from) {
        writeln!(out, "  {whose} {line}")?;
    }
    Ok(())
}

// What is printed for the image of a description, or what is wrong with it.
fn answered(heap: Global, description: &str) -> Result<String, AllocError> {
    let mut out = String::new(heap);
    match read_description(heap, description.as_bytes()) {
        Ok(description) => {
            let asked = Asked::nothing(heap);
            let mut rows = Rows::new(heap, &description, &asked)?;
            write_image(heap, &mut out, &description, &asked, &mut rows)?;
        }
        Err(error) => writeln!(out, "unread: {error}")?,
    }
    Ok(out)
}
