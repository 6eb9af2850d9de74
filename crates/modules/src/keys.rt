// The rows that are found by a key. None is ever inserted, so that `meet` says only what an insertion would do. Each key stands once in its part, so the first row of a key is the only one.
ghost use Rattle.order.specs.declared.Meeting.TheVariants.{Stays};
ghost use Rattle.modules.specs.Ranks.{site_rank, line_rank, file_rank};

use crate::tables::{FileRow, LineList, SiteList};
use order::{Meeting, Row};
use std::cmp::Ordering;

impl Row for SiteList {
    ghost rank = { site_rank };

    ghost meets = { λ r s. Stays };

    fn compare(&self, other: &SiteList) -> Ordering {
        self.site
            .cmp(&other.site)
            .then(self.start.cmp(&other.start))
    }

    fn meet(&self, _newer: &SiteList) -> Meeting {
        Meeting::Stays
    }
}

impl Row for LineList {
    ghost rank = { line_rank };

    ghost meets = { λ r s. Stays };

    fn compare(&self, other: &LineList) -> Ordering {
        self.start.cmp(&other.start)
    }

    fn meet(&self, _newer: &LineList) -> Meeting {
        Meeting::Stays
    }
}

impl Row for FileRow {
    ghost rank = { file_rank };

    ghost meets = { λ r s. Stays };

    fn compare(&self, other: &FileRow) -> Ordering {
        self.number.cmp(&other.number)
    }

    fn meet(&self, _newer: &FileRow) -> Meeting {
        Meeting::Stays
    }
}
