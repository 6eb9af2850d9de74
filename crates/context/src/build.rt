// Building a context.
ghost use Rattle.std.specs.Prelude.{◌≡◌, ◌≤◌, [], length, take, replicate, IfErr, Err, filter, OnErr, OnOk};
ghost use Rattle.order.specs.Rank.{InOrder};
ghost use Rattle.base.specs.Rows.{named, no_start, no_contribution};
ghost use Rattle.building.specs.Outcome.{all_kept, Outcome, OneOutcome};
ghost use Rattle.building.specs.Runs.{BlocksAreRuns};
ghost use Rattle.context.specs.Context.{meaning, Granted};

use crate::tables::{Context, Tables};
use base::context::{Contribution, KnownStart};
use base::refusal::Refusal;
use image::ImageSource;
use order::Row;
use sections::Sections;
use std::mem;
use steps::tables::Filling;
use table::{FilledTable, Table};

impl<'a> Context<'a> {
    // What a lent place holds at first.
    pub fn empty() -> Context<'a>
        ensures { meaning result ≡ record { sections = []; starts = []; contributions = [] } }
    {
        Context {
            sections: Sections::empty(),
            starts: FilledTable::empty(),
            contributions: FilledTable::empty(),
            named_count: 0,
        }
    }

    // How many of the known starts have a name.
    pub fn function_count(&self) -> usize
        ensures { result ≡ length (filter named (meaning self.now).starts) }
    {
        self.named_count
    }
}

// Builds a context from an image into `place`, a lent place as a rule of the project wants it. Refused, the place stays as it was, and every row of the tables is empty.
pub fn build<'a, S: ImageSource>(
    source: &S,
    tables: &mut Tables<'a>,
    place: &mut Context<'a>,
) -> Result<(), Refusal>
    ensures granted { OnOk result (Granted (S.ImageSource.image source.now) tables.old.starts.now tables.old.contributions.now place.new) }
    ensures refused { IfErr result (λ e. Outcome (S.ImageSource.image source.now) (length tables.old.starts.now) (length tables.old.contributions.now) (Err e)) }
    ensures place { OnErr result (place.new ≡ place.old) }
    ensures starts { OnErr result (tables.new.starts.now ≡ replicate (length tables.old.starts.now) no_start) }
    ensures contributions { OnErr result (tables.new.contributions.now ≡ replicate (length tables.old.contributions.now) no_contribution) }
    ensures taken { OnOk result ((tables.new.starts.now ≡ []) × (tables.new.contributions.now ≡ [])) }
    ensures given_back { OnErr result ((tables.new.starts.ghost_name ≡ tables.old.starts.ghost_name) × (tables.new.contributions.ghost_name ≡ tables.old.contributions.ghost_name)) }
    ensures runs { BlocksAreRuns (all_kept (S.ImageSource.image source.now)) }
    ensures one { OneOutcome (S.ImageSource.image source.now) (length tables.old.starts.now) (length tables.old.contributions.now) }
{
    let mut filling = Filling {
        starts: Table::over(mem::replace(&mut tables.starts, &mut [])),
        contributions: Table::over(mem::replace(&mut tables.contributions, &mut [])),
        newest: None,
    };
    let filled = filling.fill(source);
    let Filling {
        starts,
        contributions,
        ..
    } = filling;
    match filled {
        Ok(sections) => {
            let named_count = count_named(starts.used());
            *place = Context {
                sections,
                starts: freeze(starts),
                contributions: freeze(contributions),
                named_count,
            };
            Ok(())
        }
        Err(refusal) => {
            tables.starts = starts.rows;
            tables.contributions = contributions.rows;
            tables.starts.fill(KnownStart::empty());
            tables.contributions.fill(Contribution::empty());
            Err(refusal)
        }
    }
}

fn count_named(starts: &[KnownStart]) -> usize
    ensures { result ≡ length (filter named starts.now) }
{
    starts.iter().filter(|start| start.name.is_some()).count()
}

// The table as it stands, from now on only to be read.
fn freeze<'a, R: Row>(table: Table<'a, R>) -> FilledTable<'a, R>
    requires { (table.count ≤ length table.rows.now) × InOrder R.Row.rank (take table.count table.rows.now) }
    ensures rows { result.rows.now ≡ table.entry.rows.now }
    ensures count { result.count ≡ table.entry.count }
{
    let Table { rows, count } = table;
    FilledTable { rows, count }
}
