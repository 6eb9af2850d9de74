// Reads the descriptions of images from files, builds the context of each image, prints what it holds or why it is refused, and answers which
// function an address lies in, what its frames are, and which functions there are. Lists of answers are replayed: what was answered before is
// compared. Nothing is printed unless the command line and all files are good.
#![tactic(auto)]

mod failure;
mod files;
mod input;
mod options;
mod replay;
mod report;

use description::{Description, read_description};
use failure::{Failure, wrong};
use input::{Input, shown};
use options::{Request, read_options};
use printing::push_escaped;
use replay::entry::read_entries;
use replay::write_replayed;
use report::asked::Asked;
use report::{Rows, write_image};
use std::alloc::{AllocError, Global};
use std::process::ExitCode;
use std::str;

fn main(rt: HostRuntime) -> ExitCode {
    match run(&rt) {
        Ok(()) => ExitCode::SUCCESS,
        Err(failure) => {
            let _ = eprintln!(rt; "{failure}");
            ExitCode::FAILURE
        }
    }
}

fn run(rt: &HostRuntime) -> Result<(), Failure> {
    let mut input = Input::new(rt);
    let options = read_options(rt, &mut input)?;
    let mut out = String::new(rt.alloc());
    let mut written = Ok(());
    for request in options.requests.iter() {
        match request {
            Request::Image(path) => {
                let image = write_path(rt, &mut input, &mut out, &options.asked, path.as_str())?;
                written = written.and(image);
            }
            Request::Replay(path) => write_list(rt, &mut input, &mut out, path.as_str())?,
        }
    }
    written?;
    rt.print(out.as_str())
        .map_err(|error| wrong(rt.alloc(), "resolve", error))
}

// A file that is wrong ends the program at once, and so does want of memory for the tables that an image is built in and for its answers. Other want of
// memory is handed on, since a file after this one may be wrong, and then that is told.
fn write_path(
    rt: &HostRuntime,
    input: &mut Input,
    out: &mut String,
    asked: &Asked,
    path: &str,
) -> Result<Result<(), AllocError>, Failure> {
    let heap = rt.alloc();
    let bytes = input.read(rt, path)?;
    let description = read_description(heap, bytes.as_slice()).map_err(|error| wrong(
        heap,
        shown(path),
        error,
    ))?;
    let mut rows = Rows::new(heap, &description, asked)?;
    Ok(write_named(heap, out, path, &description, asked, &mut rows))
}

fn write_named(
    heap: Global,
    out: &mut String,
    path: &str,
    description: &Description,
    asked: &Asked,
    rows: &mut Rows,
) -> Result<(), AllocError> {
    out.push_str("image ")?;
    push_escaped(out, path.as_bytes())?;
    out.push_str("\n")?;
    write_image(heap, out, description, asked, rows)
}

fn write_list(
    rt: &HostRuntime,
    input: &mut Input,
    out: &mut String,
    path: &str,
) -> Result<(), Failure> {
    let heap = rt.alloc();
    let bytes = input.read(rt, path)?;
    let text = str::from_utf8(bytes.as_slice()).map_err(|error| wrong(heap, shown(path), error))?;
    let entries = read_entries(heap, path, text)?;
    Ok(write_replayed(heap, out, path, entries.as_slice())?)
}
