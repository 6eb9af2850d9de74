// Reads a line as a row.
ghost use Rattle.std.specs.Prelude.{◌≡◌};
ghost use Rattle.description.specs.Fields.{given, token, left, gave};
ghost use Rattle.provider.specs.declared.symbols.Symbol.TheVariants.{Other};
ghost use Rattle.description.specs.Reading.{kind, section, public, contribution, table, module_state, indexed, procedure, thunk, separated, site, record_of, file, lines, line, inlined, range, part_of, image_row_of, row, line_row, read_as};

use crate::fields::Fields;
use crate::mistake::Mistake;
use crate::question::Question;
use crate::row::{ImageRow, Line, ModulePart, Row};
use crate::word::keyword;
use base::image::{PublicSymbol, Section, SectionContribution};
use modules::tables::FileRow;
use provider::symbols::{LineRow, ModuleState, SiteRow, Symbol, SymbolRecord};
use words::scan::Word;

// The row of a line; none where the line is blank.
pub fn read_row<'a>(line: &'a [u8]) -> Result<Option<Line<'a>>, Mistake>
    ensures { read_as result ≡ line_row line.now }
{
    let mut fields = Fields::new(line);
    let Some(first) = fields.next()? else {
        return Ok(None);
    };
    let row = fields.row(first)?;
    fields.end()?;
    Ok(Some(Line {
        row,
        quoted: fields.quoted,
    }))
}

impl Fields<'_> {
    // The row that begins with a word.
    fn row(&mut self, first: Word<'_>) -> Result<Row, Mistake>
        ensures { gave result self.new ≡ row (token first.entry) (left self.old) }
    {
        let Word::Plain(word) = first else {
            return Err(Mistake::UnknownRow);
        };
        match keyword(word) {
            "text" => {
                self.text()?;
                Ok(Row::Text)
            }
            "module" => Ok(Row::Module(self.module_state()?)),
            "hide" => Ok(Row::Hide(self.small(Mistake::ModuleTooLarge)?)),
            "find" => Ok(Row::Ask(Question::Find(self.number()?))),
            "frames" => Ok(Row::Ask(Question::Frames(self.number()?))),
            "list" => Ok(Row::Ask(Question::List)),
            "same" => Ok(Row::Ask(Question::Same(self.number()?, self.number()?))),
            word => self.image_row_or_part(word),
        }
    }

    #[tactic(auto, unfolding(crate::specs::Reading::image_row_of))]
    fn image_row_or_part(&mut self, word: &str) -> Result<Row, Mistake>
        ensures { gave result self.new ≡ image_row_of word.now (left self.old) }
    {
        match word {
            "section" => Ok(Row::Image(ImageRow::Section(self.section()?))),
            "public" => Ok(Row::Image(ImageRow::Public(self.public()?))),
            "contribution" => Ok(Row::Image(ImageRow::Contribution(self.contribution()?))),
            "publics" => Ok(Row::Image(ImageRow::PublicsEnd(self.ending()?))),
            "contributions" => Ok(Row::Image(ImageRow::ContributionsEnd(self.ending()?))),
            "table" => Ok(Row::Image(self.table()?)),
            _ => Ok(Row::Part(self.part(word)?)),
        }
    }

    #[tactic(auto, unfolding(crate::specs::Reading::part_of))]
    fn part(&mut self, word: &str) -> Result<ModulePart, Mistake>
        ensures { gave result self.new ≡ part_of word.now (left self.old) }
    {
        match word {
            "symbols" => Ok(ModulePart::SymbolsEnd(self.ending()?)),
            "extras" => Ok(ModulePart::Extras(self.extras()?)),
            "file" => self.file(),
            "lines" => self.lines(),
            "line" => self.line(),
            "inlined" => self.inlined(),
            "range" => self.range(),
            _ => Ok(ModulePart::Symbol(self.record(word)?)),
        }
    }

    #[tactic(auto, unfolding(crate::specs::Reading::record_of))]
    fn record(&mut self, word: &str) -> Result<SymbolRecord, Mistake>
        ensures { gave result self.new ≡ record_of word.now (left self.old) }
    {
        match word {
            "procedure" => self.procedure(),
            "thunk" => self.thunk(),
            "separated" => self.separated(),
            "site" => self.site(),
            "other" => self.other(),
            _ => Err(Mistake::UnknownRow),
        }
    }

    fn section(&mut self) -> Result<Section, Mistake>
        ensures { gave result self.new ≡ section (left self.old) }
    {
        Ok(Section {
            address: self.number()?,
            size: self.number()?,
            executable: self.is_executable()?,
        })
    }

    fn is_executable(&mut self) -> Result<bool, Mistake>
        ensures { gave result self.new ≡ kind (left self.old) }
    {
        match self.keyword()? {
            "executable" => Ok(true),
            "data" => Ok(false),
            _ => Err(Mistake::NotAKind),
        }
    }

    fn public(&mut self) -> Result<PublicSymbol, Mistake>
        ensures { gave result self.new ≡ public (left self.old) }
    {
        Ok(PublicSymbol {
            offset: self.offset()?,
            name: self.name()?,
        })
    }

    fn contribution(&mut self) -> Result<SectionContribution, Mistake>
        ensures { gave result self.new ≡ contribution (left self.old) }
    {
        Ok(SectionContribution {
            offset: self.offset()?,
            size: self.number()?,
            module: self.small(Mistake::ModuleTooLarge)?,
        })
    }

    fn table(&mut self) -> Result<ImageRow, Mistake>
        ensures { gave result self.new ≡ table (left self.old) }
    {
        match self.keyword()? {
            "starts" => Ok(ImageRow::StartTable(self.table_rows()?)),
            "contributions" => Ok(ImageRow::ContributionTable(self.table_rows()?)),
            "frames" => Ok(ImageRow::FrameTable(self.table_rows()?)),
            "addresses" => Ok(ImageRow::AddressTable(self.table_rows()?)),
            _ => Err(Mistake::NotATable),
        }
    }

    fn module_state(&mut self) -> Result<ModuleState, Mistake>
        ensures { gave result self.new ≡ module_state (left self.old) }
    {
        match self.keyword()? {
            "present" => Ok(ModuleState::Present),
            "absent" => Ok(ModuleState::Absent),
            "broken" => Ok(ModuleState::Broken),
            _ => Err(Mistake::NotAState),
        }
    }

    fn file(&mut self) -> Result<ModulePart, Mistake>
        ensures { gave result self.new ≡ file (left self.old) }
    {
        Ok(ModulePart::File(FileRow {
            number: self.number()?,
            name: self.name()?,
        }))
    }

    fn lines(&mut self) -> Result<ModulePart, Mistake>
        ensures { gave result self.new ≡ lines (left self.old) }
    {
        Ok(ModulePart::Lines {
            start: self.offset()?,
            ending: self.list_ending()?,
        })
    }

    fn line(&mut self) -> Result<ModulePart, Mistake>
        ensures { gave result self.new ≡ line (left self.old) }
    {
        Ok(ModulePart::Line(LineRow {
            offset: self.number()?,
            file: self.number()?,
            line: self.number()?,
        }))
    }

    fn inlined(&mut self) -> Result<ModulePart, Mistake>
        ensures { gave result self.new ≡ inlined (left self.old) }
    {
        Ok(ModulePart::Inlined {
            site: self.number()?,
            start: self.offset()?,
            ending: self.list_ending()?,
        })
    }

    fn range(&mut self) -> Result<ModulePart, Mistake>
        ensures { gave result self.new ≡ range (left self.old) }
    {
        Ok(ModulePart::Range(SiteRow {
            offset: self.number()?,
            length: self.length()?,
            file: self.number()?,
            line: self.number()?,
        }))
    }

    fn procedure(&mut self) -> Result<SymbolRecord, Mistake>
        ensures { gave result self.new ≡ indexed procedure (left self.old) }
    {
        Ok(SymbolRecord {
            index: self.number()?,
            symbol: Symbol::Procedure {
                offset: self.offset()?,
                length: self.number()?,
                end: self.number()?,
                type_number: self.number()?,
                name: self.name()?,
            },
        })
    }

    fn thunk(&mut self) -> Result<SymbolRecord, Mistake>
        ensures { gave result self.new ≡ indexed thunk (left self.old) }
    {
        Ok(SymbolRecord {
            index: self.number()?,
            symbol: Symbol::Thunk {
                offset: self.offset()?,
                length: self.small(Mistake::ThunkTooLong)?,
                end: self.number()?,
                name: self.name()?,
            },
        })
    }

    fn separated(&mut self) -> Result<SymbolRecord, Mistake>
        ensures { gave result self.new ≡ indexed separated (left self.old) }
    {
        Ok(SymbolRecord {
            index: self.number()?,
            symbol: Symbol::SeparatedCode {
                offset: self.offset()?,
                length: self.number()?,
                end: self.number()?,
                parent: self.offset()?,
            },
        })
    }

    fn site(&mut self) -> Result<SymbolRecord, Mistake>
        ensures { gave result self.new ≡ indexed site (left self.old) }
    {
        Ok(SymbolRecord {
            index: self.number()?,
            symbol: Symbol::InlineSite {
                inlinee: self.number()?,
                end: self.number()?,
            },
        })
    }

    fn other(&mut self) -> Result<SymbolRecord, Mistake>
        ensures { gave result self.new ≡ indexed (given Other) (left self.old) }
    {
        Ok(SymbolRecord {
            index: self.number()?,
            symbol: Symbol::Other,
        })
    }
}
