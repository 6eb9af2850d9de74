// Reads descriptions from standard input, each up to a `%`, and writes the tables of each, or says what is wrong with it. A row is written as a
// word or two and its numbers, all decimal; an offset is two numbers, and so are a name's place and a part of a table.
#![tactic(auto)]

ghost use Rattle.std.specs.Prelude.{length};
ghost use Rattle.std.specs.Iterator.{at_most};

mod dump;
mod parts;
mod row;

use description::read_description;
use dump::write_description;
use std::alloc::{AllocError, Global};
use std::fmt::Write;
use std::io::Read;
use words::scan::cut;

fn main(rt: HostRuntime) -> anyhow::Result<()> {
    run(&rt)
}

fn run(rt: &HostRuntime) -> anyhow::Result<()> {
    let heap = rt.alloc();
    let mut input = Vec::new(heap);
    rt.stdin().read_to_end(&mut input)?;
    let mut out = String::new(heap);
    write_all(heap, &mut out, input.as_slice())?;
    rt.print(out.as_str())?;
    Ok(())
}

fn write_all(heap: Global, out: &mut String, input: &[u8]) -> Result<(), AllocError> {
    for text in Descriptions(input) {
        write_one(heap, out, text)?;
        out.push_str("%\n")?;
    }
    Ok(())
}

fn write_one(heap: Global, out: &mut String, text: &[u8]) -> Result<(), AllocError> {
    match read_description(heap, text) {
        Ok(description) => write_description(out, &description),
        Err(error) => writeln!(out, "{error}"),
    }
}

// The descriptions that an input has. A line's end after the `%` is part of neither.
#[derive(Drop)]
struct Descriptions<'a>(&'a [u8]);

impl<'a> Iterator for Descriptions<'a> {
    type Item = &'a [u8];

    ghost remaining = { λ s. at_most (length s.0.now) };

    fn next(&mut self) -> Option<&'a [u8]> {
        if self.0.is_empty() {
            return None;
        }
        let (text, rest) = cut(self.0, b'%').unwrap_or((self.0, &[]));
        self.0 = rest.strip_prefix(b"\n").unwrap_or(rest);
        Some(text)
    }
}
