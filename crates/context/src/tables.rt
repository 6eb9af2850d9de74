// The tables that a caller lends, and the context that stands on them.
ghost use Rattle.std.specs.Prelude.{◌≡◌, length, take, filter};
ghost use Rattle.order.specs.Rank.{Rises, Pairwise};
ghost use Rattle.base.specs.Rows.{start_rank, named};
ghost use Rattle.building.specs.Blocks.{apart};

use base::context::{Contribution, KnownStart};
use sections::Sections;
use table::FilledTable;

// What a caller hands over for building.
#[derive(Drop)]
pub struct Tables<'a> {
    pub starts: &'a mut [KnownStart],
    pub contributions: &'a mut [Contribution],
}

// The starts rise, and each contribution lies before the next. The tables have whole lent slices, so that building can say what the rows past
// the used ones hold.
#[derive(Drop)]
pub struct Context<'a> {
    pub sections: Sections,
    pub starts: FilledTable<'a, KnownStart>,
    pub contributions: FilledTable<'a, Contribution>,
    pub named_count: usize,
    ghost rises: { Rises start_rank (take starts.count starts.rows.now) },
    ghost apart_all: { Pairwise apart (take contributions.count contributions.rows.now) },
    ghost counted: { named_count ≡ length (filter named (take starts.count starts.rows.now)) },
}
