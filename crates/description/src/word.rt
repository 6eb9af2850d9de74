// What a plain word says. A word with a colon is an offset, and any other with a plus a part of the text.
ghost use Rattle.std.specs.Prelude.{◌≡◌};
ghost use Rattle.description.specs.Words.{keyword_of, number_in, small, table_rows, length_in, section_offset, text_part};

use crate::mistake::Mistake;
use base::image::{SectionOffset, TextPart};
use std::str;
use words::number::{NotNumber, number};
use words::scan::cut;

// The most rows that a table may be said to have.
const TABLE_LIMIT: u32 = 16_777_216;

// A word as a text, since a pattern that is a text makes one test, and one of bytes a test for each byte. What is no text is no keyword.
#[tactic(auto, using(crate::proofs::Keywords::texts), unfolding(crate::specs::Words::keyword_of))]
pub fn keyword(word: &[u8]) -> &str
    ensures { result.now ≡ keyword_of word.now }
{
    match str::from_utf8(word) {
        Ok(text) => text,
        Err(_) => "",
    }
}

#[tactic(auto, unfolding(crate::specs::Words::number_in))]
pub fn number_in(word: &[u8], too_large: Mistake) -> Result<u32, Mistake>
    ensures { result ≡ number_in word.now too_large }
{
    match number(word) {
        Ok(number) => Ok(number),
        Err(NotNumber::NotDigits) => Err(Mistake::NotANumber),
        Err(NotNumber::TooLarge) => Err(too_large),
    }
}

pub fn small(word: &[u8], too_large: Mistake) -> Result<u16, Mistake>
    ensures { result ≡ small word.now too_large }
{
    u16::try_from(number_in(word, too_large)?).or(Err(too_large))
}

pub fn table_rows(word: &[u8]) -> Result<u32, Mistake>
    ensures { result ≡ table_rows word.now }
{
    match number_in(word, Mistake::TableTooLarge)? {
        rows if rows <= TABLE_LIMIT => Ok(rows),
        _ => Err(Mistake::TableTooLarge),
    }
}

// A number, or none.
pub fn length_in(word: &[u8]) -> Result<Option<u32>, Mistake>
    ensures { result ≡ length_in word.now }
{
    match keyword(word) {
        "none" => Ok(None),
        _ => Ok(Some(number_in(word, Mistake::NumberTooLarge)?)),
    }
}

pub fn section_offset(word: &[u8]) -> Result<SectionOffset, Mistake>
    ensures { result ≡ section_offset word.now }
{
    let (section, offset) = cut(word, b':').ok_or(Mistake::NotAnOffset)?;
    Ok(SectionOffset {
        section: small(section, Mistake::SectionTooLarge)?,
        offset: number_in(offset, Mistake::NumberTooLarge)?,
    })
}

pub fn text_part(word: &[u8]) -> Result<TextPart, Mistake>
    ensures { result ≡ text_part word.now }
{
    match cut(word, b'+') {
        Some((start, length)) if !word.contains(&b':') => Ok(TextPart {
            start: number_in(start, Mistake::NumberTooLarge)?,
            length: number_in(length, Mistake::NumberTooLarge)?,
        }),
        _ => Err(Mistake::NotAName),
    }
}
