// Cuts a line into words.
ghost use Rattle.std.specs.Prelude.{◌≡◌, ◌+◌, ◌<◌, ◌≤◌, ◌==◌, position, false, length, IfSome};
ghost use Rattle.std.specs.List.{prefix_len};
ghost use Rattle.std.specs.Option.{option_map};
ghost use Rattle.words.specs.Cuts.{cut_at, cut_parts};
ghost use Rattle.words.specs.Lines.{blank, plain, before_quote, next_of, told, told_with, left_of};

// A quoted word has the bytes between its quotes, as they stand in the line.
#[derive(Clone, Copy)]
pub enum Word<'a> {
    Plain(&'a [u8]),
    Quoted(&'a [u8]),
}

// A quoted word that the line's end cuts off.
#[derive(Clone, Copy)]
pub struct OpenQuote;

// What is left of a line.
#[derive(Clone, Copy)]
pub struct Scanner<'a> {
    pub rest: &'a [u8],
}

impl<'a> Scanner<'a> {
    pub fn new(line: &'a [u8]) -> Scanner<'a>
        ensures { result.rest.now ≡ line.now }
    {
        Scanner { rest: line }
    }

    // The next word; where there is none, the rest stays.
    pub fn next_word(&mut self) -> Result<Option<Word<'a>>, OpenQuote>
        ensures word { told_with result self.new.rest.now ≡ next_of self.old.rest.now }
        ensures rest { self.new.rest.now ≡ left_of (next_of self.old.rest.now) self.old.rest.now }
    {
        match next_word(self.rest)? {
            Some((word, rest)) => {
                self.rest = rest;
                Ok(Some(word))
            }
            None => Ok(None),
        }
    }
}

// The next word of a line and what stands after it, or none at the line's end and at a comment.
pub fn next_word<'a>(line: &'a [u8]) -> Result<Option<(Word<'a>, &'a [u8])>, OpenQuote>
    ensures { told result ≡ next_of line.now }
{
    let line = &line[blank_length(line)..];
    match line {
        [] | [b'#', ..] => Ok(None),
        [b'"', quoted @ ..] => {
            let end = before_quote(quoted).ok_or(OpenQuote)?;
            Ok(Some((Word::Quoted(&quoted[..end]), &quoted[end + 1..])))
        }
        _ => {
            let (word, rest) = line.split_at(plain_length(line));
            Ok(Some((Word::Plain(word), rest)))
        }
    }
}

// How many blank bytes stand in front.
fn blank_length(line: &[u8]) -> usize
    ensures value { result ≡ prefix_len blank line.now }
    ensures within { result ≤ length line.now }
{
    line.iter()
        .take_while(|b| matches!(**b, b' ' | b'\t' | b'\r'))
        .count()
}

// How many bytes in front may stand in a plain word.
fn plain_length(line: &[u8]) -> usize
    ensures value { result ≡ prefix_len plain line.now }
    ensures within { result ≤ length line.now }
{
    line.iter()
        .take_while(|b| !matches!(**b, b' ' | b'\t' | b'\r' | b'#' | b'"'))
        .count()
}

// How many bytes stand before the quote that ends a quoted word.
fn before_quote(bytes: &[u8]) -> Option<usize>
    ensures value { result ≡ before_quote 0 false bytes.now }
    ensures within { IfSome result (λ i. i < length bytes.now) }
{
    let mut escaped = false;
    for (i, b) in bytes.iter().enumerate() {
        if escaped {
            escaped = false;
        } else if *b == b'"' {
            return Some(i);
        } else {
            escaped = *b == b'\\';
        }
    }
    None
}

// What stands before the first `mark`, and what after it.
pub fn cut(bytes: &[u8], mark: u8) -> Option<(&[u8], &[u8])>
    ensures value { option_map cut_parts result ≡ cut_at mark bytes.now }
    ensures len { IfSome result (λ p. length p.0.now + 1 + length p.1.now ≡ length bytes.now) }
{
    let at = place_of(bytes, mark)?;
    Some((&bytes[..at], &bytes[at + 1..]))
}

// On its own, since within `cut` the proof of the same chain did not close.
fn place_of(bytes: &[u8], mark: u8) -> Option<usize>
    ensures { result ≡ position (λ c. c == mark) bytes.now }
{
    bytes.iter().position(|b| *b == mark)
}
