// Files of addresses.
use crate::failure::{Failure, Flaw};
use crate::input::wrong_line;
use std::alloc::Global;
use words::number::number;
use words::scan::{Scanner, Word};

// One address stands on a line, with blank lines and comments between them.
pub fn read_addresses(
    heap: Global,
    addresses: &mut Vec<u32>,
    path: &str,
    bytes: &[u8],
) -> Result<(), Failure> {
    for (n, line) in (1..).zip(bytes.split(|b| *b == b'\n')) {
        match read_line(line) {
            Ok(Some(address)) => addresses.push(address)?,
            Ok(None) => {}
            Err(flaw) => return Err(wrong_line(heap, path, n, flaw)),
        }
    }
    Ok(())
}

fn read_line(line: &[u8]) -> Result<Option<u32>, Flaw> {
    let mut words = Scanner::new(line);
    let address = match words.next_word() {
        Ok(None) => return Ok(None),
        Ok(Some(Word::Plain(word))) => number(word)?,
        _ => return Err(Flaw::NotANumber),
    };
    match words.next_word() {
        Ok(None) => Ok(Some(address)),
        _ => Err(Flaw::ExtraWord),
    }
}
