// The images of a list, each with the rows of its description and the lines that were answered.
use crate::failure::{Failure, Flaw};
use crate::input::wrong_line;
use std::alloc::{AllocError, Global};

#[derive(Drop)]
pub struct Entry<'a> {
    pub title: &'a str,
    pub description: String,
    pub answers: Vec<&'a str>,
}

pub fn read_entries<'a>(
    heap: Global,
    path: &str,
    text: &'a str,
) -> Result<Vec<Entry<'a>>, Failure> {
    let mut entries = Vec::new(heap);
    for (number, line) in (1..).zip(text.lines()) {
        if !read_line(heap, &mut entries, line)? {
            return Err(wrong_line(heap, path, number, Flaw::NotOfAList));
        }
    }
    Ok(entries)
}

// Whether the line is one of a list. A row or an answer belongs to the image above it.
fn read_line<'a>(
    heap: Global,
    entries: &mut Vec<Entry<'a>>,
    line: &'a str,
) -> Result<bool, AllocError> {
    if line.is_empty() || line.starts_with('#') {
        return Ok(true);
    }
    if let Some(title) = line.strip_prefix("image ") {
        entries.push(Entry {
            title,
            description: String::new(heap),
            answers: Vec::new(heap),
        })?;
        return Ok(true);
    }
    let Some(entry) = entries.last_mut() else {
        return Ok(false);
    };
    if let Some(row) = line.strip_prefix("< ") {
        entry.description.push_str(row)?;
        entry.description.push_str("\n")?;
        return Ok(true);
    }
    if let Some(answer) = line.strip_prefix("> ") {
        entry.answers.push(answer)?;
        return Ok(true);
    }
    Ok(false)
}
