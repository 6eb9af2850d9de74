// The list of sections.
ghost use Rattle.std.specs.Prelude.{◌≤◌};

use base::image::Section;

// The most sections that an image may have.
pub const MOST_SECTIONS: usize = 96;

// The first `count` rows are used. An array, as there is no heap.
#[derive(Clone, Copy)]
pub struct Sections {
    pub rows: [Section; MOST_SECTIONS],
    pub count: usize,
    ghost few: { count ≤ 96 },
}
