// The command line.
ghost use Rattle.std.specs.Prelude.{◌≤◌};
ghost use Rattle.std.specs.Vec.Iter.{into_iter_len};

use crate::failure::{Failure, Flaw, wrong};
use crate::files::read_addresses;
use crate::input::Input;
use crate::report::asked::{Asked, Form};
use std::alloc::Global;
use std::env;
use std::env::Args;
use words::number::number;

// What is to be printed, by the path of its file.
#[derive(Drop)]
pub enum Request {
    Image(String),
    // a list of answers is replayed
    Replay(String),
}

#[derive(Drop)]
pub struct Options {
    pub requests: Vec<Request>,
    pub asked: Asked,
}

// Where no path is given, an image is read from standard input. The runtime is no part of the input: it gives the heap and the arguments too.
pub fn read_options(rt: &HostRuntime, input: &mut Input) -> Result<Options, Failure> {
    let heap = rt.alloc();
    let mut options = Options {
        requests: Vec::new(heap),
        asked: Asked::nothing(heap),
    };
    let mut args = env::args(rt).map_err(|error| wrong(heap, "resolve", error))?;
    let _program = args.next();
    // no `for`: an option takes words from the same iterator
    while let Some(word) = args.next() {
        options.take(rt, input, word, &mut args)?;
    }
    if options.requests.is_empty() {
        let path = String::from_str(heap, "-")?;
        options.requests.push(Request::Image(path))?;
    }
    Ok(options)
}

impl Options {
    // Takes a word, and what has to follow it.
    fn take(
        &mut self,
        rt: &HostRuntime,
        input: &mut Input,
        word: String,
        rest: &mut Args,
    ) -> Result<(), Failure>
        ensures { into_iter_len rest.new ≤ into_iter_len rest.old }
    {
        match word.as_str() {
            "--frames" => self.asked.form = Form::Frames,
            "--stack" => self.asked.form = Form::Stack,
            "--list" => self.asked.list = true,
            "--check" => self.asked.check = true,
            "--answers" => self.asked.only_answers = true,
            option if option.starts_with("--") => self.take_with(rt, input, option, rest)?,
            _ => self.requests.push(Request::Image(word))?,
        }
        Ok(())
    }

    // An option that takes the words after it.
    fn take_with(
        &mut self,
        rt: &HostRuntime,
        input: &mut Input,
        option: &str,
        rest: &mut Args,
    ) -> Result<(), Failure>
        ensures { into_iter_len rest.new ≤ into_iter_len rest.old }
    {
        let heap = rt.alloc();
        match option {
            "--address" => {
                let address = address_after(heap, option, rest)?;
                self.asked.addresses.push(address)?;
            }
            "--addresses" => {
                let path = word_after(heap, option, rest)?;
                let bytes = input.read(rt, path.as_str())?;
                let addresses = &mut self.asked.addresses;
                read_addresses(heap, addresses, path.as_str(), bytes.as_slice())?;
            }
            "--same" => {
                let first = address_after(heap, option, rest)?;
                let second = address_after(heap, option, rest)?;
                self.asked.pairs.push((first, second))?;
            }
            "--replay" => {
                let path = word_after(heap, option, rest)?;
                self.requests.push(Request::Replay(path))?;
            }
            _ => return Err(wrong_word(heap, option, Flaw::UnknownOption)),
        }
        Ok(())
    }
}

fn word_after(heap: Global, option: &str, rest: &mut Args) -> Result<String, Failure>
    ensures { into_iter_len rest.new ≤ into_iter_len rest.old }
{
    rest.next()
        .ok_or_else(|| wrong_word(heap, option, Flaw::NothingFollows))
}

fn address_after(heap: Global, option: &str, rest: &mut Args) -> Result<u32, Failure>
    ensures { into_iter_len rest.new ≤ into_iter_len rest.old }
{
    let word = word_after(heap, option, rest)?;
    number(word.as_bytes()).map_err(|error| wrong_word(heap, word.as_str(), Flaw::from(error)))
}

fn wrong_word(heap: Global, word: &str, flaw: Flaw) -> Failure {
    wrong(heap, format_args!("resolve: {word}"), flaw)
}
