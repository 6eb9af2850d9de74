// Reads the description of an image, builds its context and asks many questions of it: bench [--times] PATH. Of each part a line is printed that
// tells what was answered, and with --times how long it took.
#![tactic(auto)]

mod ask;
mod build;
mod options;
mod places;
mod tally;
mod times;

use build::write_built;
use description::{Description, read_description};
use options::{Options, read_options};
use std::fmt::Write;
use std::fs;
use std::time::Duration;
use times::{Part, Times};

fn main(rt: HostRuntime) -> anyhow::Result<()> {
    run(&rt)
}

fn run(rt: &HostRuntime) -> anyhow::Result<()> {
    let options = read_options(rt)?;
    let mut times = Times::new(rt.alloc(), options.times);
    write_image(rt, &mut times, &options)?;
    rt.print(times.lines.as_str())?;
    Ok(())
}

fn write_image(rt: &HostRuntime, times: &mut Times, options: &Options) -> anyhow::Result<()> {
    let path = options.path.as_str();
    writeln!(times.lines, "image {path}")?;
    let part = Part::begin(rt)?;
    let description = read(rt, path)?;
    let spent = part.end(rt)?;
    write_read(times, &description, spent)?;
    write_built(rt, times, &description)
}

fn read(rt: &HostRuntime, path: &str) -> anyhow::Result<Description> {
    let bytes = fs::read(rt, path)?;
    read_description(rt.alloc(), bytes.as_slice()).map_err(anyhow::Error::msg)
}

// How many rows there are of each kind that an image has many of.
fn write_read(times: &mut Times, description: &Description, spent: Duration) -> anyhow::Result<()> {
    let publics = description.image.symbols.len();
    let contributions = description.image.contributions.len();
    let modules = description.modules.modules.len();
    times.push(
        format_args!("read publics {publics} contributions {contributions} modules {modules}"),
        spent,
    )
}
