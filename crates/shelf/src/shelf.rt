// What a shelf is.
ghost use Rattle.std.specs.Prelude.{◌≤◌, length, take};
ghost use Rattle.order.specs.Rank.{InOrder, Rises};
ghost use Rattle.procedures.specs.Rows.{procedure_rank};
ghost use Rattle.shelf.specs.Stretches.{Stretched};

use crate::stretches::Stretch;
use procedures::row::Procedure;

// The most procedures that a module may have, by their offsets.
pub const MOST_PROCEDURES: usize = 1024;

// The first `count` rows are the procedures of `module`, in rising order of their offsets, each with its stretch. Arrays, as there is no heap.
#[derive(Drop)]
pub struct Shelf {
    pub module: Option<u16>,
    pub rows: [Procedure; MOST_PROCEDURES],
    pub stretches: [Stretch; MOST_PROCEDURES],
    pub count: usize,
    ghost few: { count ≤ 1024 },
    ghost rises: { Rises procedure_rank (take count rows) },
    ghost stretched: { Stretched (take count rows) stretches },
}

// The procedures of a module, in order, and the stretches by which they are searched.
#[derive(Clone, Copy)]
pub struct Procedures<'s> {
    pub rows: &'s [Procedure],
    pub stretches: &'s [Stretch],
    ghost ordered: { InOrder procedure_rank rows.now },
    ghost long: { length rows.now ≤ length stretches.now },
    ghost stretched: { Stretched rows.now stretches.now },
}
