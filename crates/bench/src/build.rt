// Building, and then the questions.
use crate::ask::write_answers;
use crate::times::{Part, Times};
use base::context::{Contribution, KnownStart};
use context::build::build;
use context::tables::{Context, Tables};
use description::Description;
use opening::open;
use std::time::Duration;

// The tables are a part of what building takes.
pub fn write_built(
    rt: &HostRuntime,
    times: &mut Times,
    description: &Description,
) -> anyhow::Result<()> {
    let heap = rt.alloc();
    let part = Part::begin(rt)?;
    let mut starts = vec![in heap; KnownStart::empty(); description.start_rows]?;
    let mut contributions = vec![in heap; Contribution::empty(); description.contribution_rows]?;
    let mut tables = Tables {
        starts: starts.as_mut_slice(),
        contributions: contributions.as_mut_slice(),
    };
    build_in(rt, times, description, part, &mut tables)
}

fn build_in(
    rt: &HostRuntime,
    times: &mut Times,
    description: &Description,
    part: Part,
    tables: &mut Tables<'_>,
) -> anyhow::Result<()> {
    let mut context = Context::empty();
    let built = open(description).and_then(|provider| {
        build(&provider, tables, &mut context)?;
        Ok(provider)
    });
    let spent = part.end(rt)?;
    match built {
        Ok(provider) => {
            write_counts(times, &context, spent)?;
            write_answers(rt, times, provider, &context, description)
        }
        Err(refusal) => times.push(format_args!("build refused {}", refusal.number()), spent),
    }
}

fn write_counts(times: &mut Times, context: &Context<'_>, spent: Duration) -> anyhow::Result<()> {
    let starts = context.starts.used().rows.len();
    let contributions = context.contributions.used().rows.len();
    times.push(
        format_args!("build starts {starts} contributions {contributions}"),
        spent,
    )
}
