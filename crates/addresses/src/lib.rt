// The addresses of functions, as the list of functions has them.
#![tactic(auto)]

ghost use Rattle.std.specs.Prelude.{◌≡◌};
ghost use Rattle.addresses.specs.Rows.{address_rank, address_meets};

use order::{Meeting, Row};
use std::cmp::Ordering;

// A row of the caller's table: an address where a function may start.
#[derive(Clone, Copy, Default, PartialEq, Eq, PartialOrd, Ord)]
pub struct Address {
    pub rva: u32,
}

impl Row for Address {
    ghost rank = { address_rank };

    ghost meets = { address_meets };

    fn compare(&self, other: &Address) -> Ordering {
        self.rva.cmp(&other.rva)
    }

    fn meet(&self, _newer: &Address) -> Meeting {
        Meeting::Stays
    }
}
