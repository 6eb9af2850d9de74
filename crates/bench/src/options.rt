// The command line.
use anyhow::Context;
use std::env;

const USAGE: &str = "bench [--times] PATH";

#[derive(Drop)]
pub struct Options {
    pub path: String,
    // times are printed
    pub times: bool,
}

pub fn read_options(rt: &HostRuntime) -> anyhow::Result<Options> {
    let mut args = env::args(rt)?;
    let _program = args.next();
    let first = args.next().context(USAGE)?;
    let times = first.as_str() == "--times";
    let path = if times {
        args.next().context(USAGE)?
    } else {
        first
    };
    anyhow::ensure!(args.next().is_none(), USAGE);
    Ok(Options { path, times })
}
