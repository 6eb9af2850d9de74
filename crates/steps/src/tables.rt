// The tables that building fills.
use base::context::{Contribution, KnownStart};
use table::Table;

// The newest block of contributions is still open: it is in no table yet.
#[derive(Drop)]
pub struct Filling<'t> {
    pub starts: Table<'t, KnownStart>,
    pub contributions: Table<'t, Contribution>,
    pub newest: Option<Contribution>,
}
