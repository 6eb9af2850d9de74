// Reads the description of an image, a text of one row to a line, into the image's rows.
#![tactic(auto)]

ghost use Rattle.std.specs.Prelude.{◌≡◌};
ghost use Rattle.std.specs.Option.{unwrap_or};
ghost use Rattle.description.specs.Drafts.{nothing, image_lists, lists, line_said};
ghost use Rattle.description.specs.Mistakes.{AddsAs};
ghost use Rattle.description.specs.Described.{content, numbered, described, description_of, starts_at_most, addresses_at_most, Reads};
ghost use Rattle.description.specs.Memory.{LineGrows, TextRunsOut};
ghost use Rattle.description.specs.Sound.{AlwaysSound};
ghost use Rattle.description.specs.Spelling.{WordsDecide};

mod add;
mod draft;
mod fields;
pub mod mistake;
mod push;
pub mod question;
mod read;
mod row;
mod said;
pub mod tables;
mod word;

use base::image::Ending;
use draft::{Draft, ImageDraft, ModuleDraft};
use frames::frame::MOST_FRAMES;
use mistake::{AddError, ReadError};
use question::Question;
use read::read_row;
use said::{Said, Told};
use std::alloc::Global;
use tables::{ImageTables, ListTables, ModuleTables, PartTables};
use words::scan::cut;

// An image with its modules, row by row; how many rows the tables have that a context for it is built in; which modules are hidden; and
// what is asked.
#[derive(Drop)]
pub struct Description {
    pub text: Vec<u8>,
    pub image: ImageTables,
    pub symbols_end: Ending,
    pub contributions_end: Ending,
    pub start_rows: usize,
    pub contribution_rows: usize,
    pub frame_rows: usize,
    pub address_rows: usize,
    pub modules: ModuleTables,
    pub hidden: Vec<u16>,
    pub questions: Vec<Question>,
}

#[tactic(auto, using(crate::proofs::Cutting::lines))]
pub fn read_description(heap: Global, input: &[u8]) -> Result<Description, ReadError>
    ensures described { Reads (TextRunsOut input.now) content result (description_of input.now) }
    ensures sound { AlwaysSound }
    ensures words { WordsDecide }
{
    let mut draft = new_draft(heap);
    let mut number = 1;
    let mut rest = input;
    while let Some((line, below)) = cut(rest, b'\n') {
        read_line(&mut draft, number, line)?;
        number += 1;
        rest = below;
    }
    read_line(&mut draft, number, rest)?;
    Ok(finish(draft))
}

fn new_draft(heap: Global) -> Draft
    ensures { lists result ≡ nothing }
{
    Draft {
        text: Vec::new(heap),
        image: ImageDraft {
            tables: ImageTables {
                sections: Vec::new(heap),
                symbols: Vec::new(heap),
                contributions: Vec::new(heap),
            },
            said: Said::default(),
        },
        modules: ModuleDraft {
            tables: ModuleTables {
                modules: Vec::new(heap),
                parts: PartTables {
                    symbols: Vec::new(heap),
                    files: Vec::new(heap),
                    sites: ListTables::new(heap),
                    lines: ListTables::new(heap),
                },
            },
            told: Told::default(),
        },
        hidden: Vec::new(heap),
        questions: Vec::new(heap),
    }
}

fn read_line(draft: &mut Draft, number: u64, line: &[u8]) -> Result<(), ReadError>
    ensures { Reads (LineGrows line.now (lists draft.old)) (λ _. lists draft.new) result (numbered number (line_said line.now (lists draft.old))) }
{
    match add_line(draft, line) {
        Ok(()) => Ok(()),
        Err(error) => Err(error.at(number)),
    }
}

#[tactic(auto, unfolding(crate::specs::Drafts::line_said))]
fn add_line(draft: &mut Draft, line: &[u8]) -> Result<(), AddError>
    ensures { AddsAs (LineGrows line.now (lists draft.old)) (λ _. lists draft.new) result (line_said line.now (lists draft.old)) }
{
    match read_row(line)? {
        Some(line) => draft.add(line),
        None => Ok(()),
    }
}

// A table whose size is not said has room for every row that can come into it.
fn finish(draft: Draft) -> Description
    ensures { content result ≡ described (lists draft) }
{
    let said = draft.image.said;
    let starts = most_starts(&draft.image);
    let contributions = draft.image.tables.contributions.len();
    let addresses = most_addresses(&draft);
    Description {
        text: draft.text,
        image: draft.image.tables,
        symbols_end: said.symbols_end.unwrap_or(Ok(())),
        contributions_end: said.contributions_end.unwrap_or(Ok(())),
        start_rows: rows_or(said.start_rows, starts),
        contribution_rows: rows_or(said.contribution_rows, contributions),
        frame_rows: rows_or(said.frame_rows, MOST_FRAMES),
        address_rows: rows_or(said.address_rows, addresses),
        modules: draft.modules.tables,
        hidden: draft.hidden,
        questions: draft.questions,
    }
}

// Each public symbol, contribution and section may give a start.
fn most_starts(draft: &ImageDraft) -> usize
    ensures { result ≡ starts_at_most (image_lists draft.now) }
{
    let image = &draft.tables;
    image.symbols.len() + image.contributions.len() + image.sections.len()
}

// Each known start and each symbol record may give an address.
fn most_addresses(draft: &Draft) -> usize
    ensures { result ≡ addresses_at_most (lists draft.now) }
{
    most_starts(&draft.image) + draft.modules.tables.parts.symbols.len()
}

fn rows_or(said: Option<u32>, enough: usize) -> usize
    ensures { result ≡ unwrap_or said enough }
{
    match said {
        Some(rows) => rows as usize,
        None => enough,
    }
}
