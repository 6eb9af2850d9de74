// The words of a line, read one after another. The first mistake ends the reading.
ghost use Rattle.std.specs.Prelude.{◌≡◌};
ghost use Rattle.std.specs.Option.{option_map};
ghost use Rattle.description.specs.Fields.{whole, next, word, plain, keyword, end, number, small_number, size, offset, name, text, length, fault, ended, ending, extras, list_ending, token, left, gave_as, gave};

use crate::mistake::Mistake;
use crate::word::{keyword, length_in, number_in, section_offset, small, table_rows, text_part};
use base::image::{Ending, FaultCode, SectionOffset, TextPart};
use words::scan::{Scanner, Word};

#[derive(Clone, Copy)]
pub struct Fields<'a> {
    words: Scanner<'a>,
    // the bytes of the quoted word, as they stand in the line: a row has at most one
    pub quoted: Option<&'a [u8]>,
}

impl<'a> Fields<'a> {
    pub fn new(line: &'a [u8]) -> Fields<'a>
        ensures { left result ≡ whole line.now }
    {
        Fields {
            words: Scanner::new(line),
            quoted: None,
        }
    }

    // The next word, or none at the line's end.
    pub fn next(&mut self) -> Result<Option<Word<'a>>, Mistake>
        ensures { gave_as (option_map token) result self.new ≡ next (left self.old) }
    {
        self.words.next_word().or(Err(Mistake::QuoteLeftOpen))
    }

    fn word(&mut self) -> Result<Word<'a>, Mistake>
        ensures { gave_as token result self.new ≡ word (left self.old) }
    {
        self.next()?.ok_or(Mistake::MissingWord)
    }

    // The next word, which cannot be quoted here.
    pub fn plain(&mut self) -> Result<&'a [u8], Mistake>
        ensures { gave_as (λ w. w.now) result self.new ≡ plain (left self.old) }
    {
        match self.word()? {
            Word::Plain(word) => Ok(word),
            Word::Quoted(_) => Err(Mistake::QuotedWord),
        }
    }

    pub fn keyword(&mut self) -> Result<&'a str, Mistake>
        ensures { gave_as (λ w. w.now) result self.new ≡ keyword (left self.old) }
    {
        Ok(keyword(self.plain()?))
    }

    pub fn end(&mut self) -> Result<(), Mistake>
        ensures { gave result self.new ≡ end (left self.old) }
    {
        match self.next()? {
            None => Ok(()),
            Some(_) => Err(Mistake::ExtraWord),
        }
    }

    pub fn number(&mut self) -> Result<u32, Mistake>
        ensures { gave result self.new ≡ number (left self.old) }
    {
        number_in(self.plain()?, Mistake::NumberTooLarge)
    }

    pub fn small(&mut self, too_large: Mistake) -> Result<u16, Mistake>
        ensures { gave result self.new ≡ small_number too_large (left self.old) }
    {
        small(self.plain()?, too_large)
    }

    pub fn table_rows(&mut self) -> Result<u32, Mistake>
        ensures { gave result self.new ≡ size (left self.old) }
    {
        table_rows(self.plain()?)
    }

    pub fn offset(&mut self) -> Result<SectionOffset, Mistake>
        ensures { gave result self.new ≡ offset (left self.old) }
    {
        section_offset(self.plain()?)
    }

    // The place of a name, unless it is quoted.
    pub fn name(&mut self) -> Result<TextPart, Mistake>
        ensures { gave result self.new ≡ name (left self.old) }
    {
        match self.word()? {
            Word::Plain(word) => text_part(word),
            Word::Quoted(raw) => {
                self.quoted = Some(raw);
                Ok(TextPart::default())
            }
        }
    }

    pub fn text(&mut self) -> Result<(), Mistake>
        ensures { gave result self.new ≡ text (left self.old) }
    {
        match self.word()? {
            Word::Plain(_) => Err(Mistake::NotQuoted),
            Word::Quoted(raw) => {
                self.quoted = Some(raw);
                Ok(())
            }
        }
    }

    // A number, or none.
    pub fn length(&mut self) -> Result<Option<u32>, Mistake>
        ensures { gave result self.new ≡ length (left self.old) }
    {
        length_in(self.plain()?)
    }

    pub fn ending(&mut self) -> Result<Ending, Mistake>
        ensures { gave result self.new ≡ ending (left self.old) }
    {
        match self.keyword()? {
            "end" => self.ended(),
            _ => Err(Mistake::NotAnEnding),
        }
    }

    fn ended(&mut self) -> Result<Ending, Mistake>
        ensures { gave result self.new ≡ ended (left self.old) }
    {
        match self.keyword()? {
            "clean" => Ok(Ok(())),
            "fault" => self.fault(),
            _ => Err(Mistake::NotAnEnding),
        }
    }

    pub fn extras(&mut self) -> Result<Ending, Mistake>
        ensures { gave result self.new ≡ extras (left self.old) }
    {
        match self.keyword()? {
            "readable" => Ok(Ok(())),
            "fault" => self.fault(),
            _ => Err(Mistake::NotExtras),
        }
    }

    // A list ends clean, unless the line goes on with a fault.
    pub fn list_ending(&mut self) -> Result<Ending, Mistake>
        ensures { gave result self.new ≡ list_ending (left self.old) }
    {
        match self.next()? {
            None => Ok(Ok(())),
            Some(Word::Plain(word)) if keyword(word) == "fault" => self.fault(),
            Some(_) => Err(Mistake::NotAFault),
        }
    }

    fn fault(&mut self) -> Result<Ending, Mistake>
        ensures { gave result self.new ≡ fault (left self.old) }
    {
        Ok(Err(FaultCode(self.small(Mistake::CodeTooLarge)?)))
    }
}
