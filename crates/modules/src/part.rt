// A part of a table.
ghost use Rattle.std.specs.Prelude.{◌≡◌, ◌≤◌, length};
ghost use Rattle.modules.specs.Meaning.{part};

use crate::tables::RowRange;

impl RowRange {
    // The rows of the range that the table has.
    pub fn of<'r, T>(&self, rows: &'r [T]) -> &'r [T]
        ensures rows { result.now ≡ part rows.now self.now }
        ensures few { length result.now ≤ self.now.count }
    {
        let start = (self.first as usize).min(rows.len());
        let end = (start + self.count as usize).min(rows.len());
        &rows[start..end]
    }
}
