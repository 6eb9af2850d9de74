// What the bytes between two quotes stand for.
ghost use Rattle.std.specs.Prelude.{◌≡◌, vec_len, vec_capacity};
ghost use Rattle.words.specs.declared.quote.QuoteError.TheVariants.{NoMemory};
ghost use Rattle.words.specs.Quotes.{hex_digit, named, stepped, Sound, Overflows, Appends, Unquotes};

use std::alloc::AllocFailed;

// Where the next byte of a quoted text stands.
#[derive(Clone, Copy)]
pub enum Place {
    Plain,
    // after a backslash
    Slash,
    // at the first digit after `\x`
    High,
    // at the second digit, with the value of the first
    Low(u8),
}

#[derive(Clone, Copy)]
pub enum QuoteError {
    BadEscape,
    NoMemory,
}

impl<T: Drop> From<AllocFailed<T>> for QuoteError {
    ghost from_gives = { λ _ r. r ≡ NoMemory };

    fn from(_e: AllocFailed<T>) -> QuoteError {
        QuoteError::NoMemory
    }
}

// Appends to `out` what the bytes between two quotes stand for, all of it or nothing.
pub fn unquote(raw: &[u8], out: &mut Vec<u8>) -> Result<(), QuoteError>
    ensures outcome { Unquotes raw.now out.old.items out.new.items result }
    ensures room { Overflows raw.now (vec_len out.old) (vec_capacity out.old) result }
{
    let start = out.len();
    let result = append(raw, out);
    if result.is_err() {
        out.truncate(start);
    }
    result
}

// Where it fails, it has appended what stands before.
fn append(raw: &[u8], out: &mut Vec<u8>) -> Result<(), QuoteError>
    ensures outcome { Appends raw.now out.old.items out.new.items result }
    ensures room { Overflows raw.now (vec_len out.old) (vec_capacity out.old) result }
{
    let mut place = Place::Plain;
    for b in raw {
        let (next, byte) = step(place, *b).ok_or(QuoteError::BadEscape)?;
        if let Some(byte) = byte {
            out.push(byte)?;
        }
        place = next;
    }
    match place {
        Place::Plain => Ok(()),
        _ => Err(QuoteError::BadEscape),
    }
}

// What a byte does at a place: the place of the next byte, and the byte that is now complete.
fn step(place: Place, c: u8) -> Option<(Place, Option<u8>)>
    requires { Sound place }
    ensures value { result ≡ stepped place c }
{
    match place {
        Place::Plain if c == b'\\' => Some((Place::Slash, None)),
        Place::Plain => Some((Place::Plain, Some(c))),
        Place::Slash if c == b'x' => Some((Place::High, None)),
        Place::Slash => Some((Place::Plain, Some(escape(c)?))),
        Place::High => Some((Place::Low(hex_digit(c)?), None)),
        Place::Low(high) => Some((Place::Plain, Some(16 * high + hex_digit(c)?))),
    }
}

// The byte that is written as a backslash and `c`.
fn escape(c: u8) -> Option<u8>
    ensures { result ≡ named c }
{
    match c {
        b'"' => Some(b'"'),
        b'\\' => Some(b'\\'),
        b'n' => Some(b'\n'),
        b't' => Some(b'\t'),
        b'r' => Some(b'\r'),
        _ => None,
    }
}

fn hex_digit(c: u8) -> Option<u8>
    ensures { result ≡ hex_digit c }
{
    char::from(c).to_digit(16).map(|digit| digit as u8)
}
