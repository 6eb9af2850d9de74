// Files, and standard input for the path `-`, which can be read once.
use crate::failure::{Failure, Flaw, wrong};
use std::alloc::Global;
use std::io::{Read, Stdin};
use std::{fs, io};

// Standard input is there until it is read.
#[derive(Drop)]
pub struct Input {
    stdin: Option<Stdin>,
}

impl Input {
    pub fn new(rt: &HostRuntime) -> Input {
        Input {
            stdin: Some(rt.stdin()),
        }
    }

    pub fn read(&mut self, rt: &HostRuntime, path: &str) -> Result<Vec<u8>, Failure> {
        let heap = rt.alloc();
        if path != "-" {
            return fs::read(rt, path).map_err(|error| wrong(heap, path, error));
        }
        let Some(stdin) = self.stdin.take() else {
            return Err(wrong(heap, shown(path), Flaw::ReadTwice));
        };
        read_all(rt, stdin).map_err(|error| wrong(heap, shown(path), error))
    }
}

fn read_all(rt: &HostRuntime, mut stdin: Stdin) -> io::Result<Vec<u8>> {
    let mut bytes = Vec::new(rt.alloc());
    stdin.read_to_end(&mut bytes)?;
    Ok(bytes)
}

// A path, as messages have it.
pub fn shown(path: &str) -> &str {
    if path == "-" { "standard input" } else { path }
}

// What is wrong with a line of a file.
pub fn wrong_line(heap: Global, path: &str, number: u64, flaw: Flaw) -> Failure {
    let path = shown(path);
    wrong(heap, format_args!("{path}: line {number}"), flaw)
}
