// What is printed for a described image: what its context holds, and the answers to what is asked of it. docs/FORMAT.md says how.
mod answers;
pub mod asked;
mod check;
mod frame_lines;
mod list;
mod parts;
mod print;
mod reply;
mod stack_lines;

use answers::write_answers;
use asked::Asked;
use base::context::{Contribution, KnownStart};
use base::refusal::Refusal;
use context::build::build;
use context::tables::{Context, Tables};
use description::Description;
use opening::open;
use parts::write_refusal;
use print::write_context;
use procedures::function::Function;
use std::alloc::{AllocError, Global};

// The tables that an image is built in, and room for the functions of the addresses that the options ask for.
#[derive(Drop)]
pub struct Rows {
    starts: Vec<KnownStart>,
    contributions: Vec<Contribution>,
    found: Vec<Result<Option<Function>, Refusal>>,
}

impl Rows {
    pub fn new(heap: Global, description: &Description, asked: &Asked) -> Result<Rows, AllocError> {
        Ok(Rows {
            starts: vec![in heap; KnownStart::empty(); description.start_rows]?,
            contributions: vec![in heap; Contribution::empty(); description.contribution_rows]?,
            found: vec![in heap; Ok(None); asked.of_functions().len()]?,
        })
    }
}

// Why an image is refused, or its context and then the answers.
pub fn write_image(
    heap: Global,
    out: &mut String,
    description: &Description,
    asked: &Asked,
    rows: &mut Rows,
) -> Result<(), AllocError> {
    let mut tables = Tables {
        starts: rows.starts.as_mut_slice(),
        contributions: rows.contributions.as_mut_slice(),
    };
    let mut context = Context::empty();
    let built = open(description).and_then(|provider| {
        build(&provider, &mut tables, &mut context)?;
        Ok(provider)
    });
    let provider = match built {
        Ok(provider) => provider,
        Err(refusal) => return write_refusal(out, &refusal),
    };
    if !asked.only_answers {
        write_context(out, description.text.as_slice(), &context)?;
    }
    let found = rows.found.as_mut_slice();
    write_answers(heap, out, provider, &context, description, asked, found)
}
