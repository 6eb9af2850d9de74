// The contributions: blocks in order, the starts that they add, and overlaps.
ghost use Rattle.std.specs.Prelude.{◌≡◌, ◌<◌, true, false, ◌||◌, List, [], ◌∷◌, ◌++◌, length, take, drop, is_ok, IfOk, if◌then◌else◌, Some, None, nat_lt};
ghost use Rattle.std.specs.Result.{result_err};
ghost use Rattle.std.specs.List.{slice_get};
ghost use Rattle.base.specs.declared.context.KnownStart.{KnownStart as Start};
ghost use Rattle.base.specs.declared.context.Contribution.{Contribution as Row};
ghost use Rattle.base.specs.declared.image.SectionContribution.{SectionContribution as Item};
ghost use Rattle.base.specs.declared.refusal.Refusal.TheVariants.{Unordered};
ghost use Rattle.order.specs.Rank.{InOrder};
ghost use Rattle.order.specs.Placed.{Settled};
ghost use Rattle.base.specs.Rows.{contribution_rank, contribution_meets};
ghost use Rattle.table.specs.Slice.{SameSlice};
ghost use Rattle.building.specs.Starts.{contribution_starts, or_else};
ghost use Rattle.building.specs.Blocks.{end_of, block, joins, grown, blocks, overlaps, first_overlap};
ghost use Rattle.building.specs.Outcome.{outside, blocks_full, item_refusal, all_symbols, all_kept, contributions_refused};
ghost use Rattle.building.specs.Filling.{Holds, Filed, Proper};
ghost use Rattle.sections.specs.Used.{used};
ghost use Rattle.starts.specs.Order.{StaysOrdered};
ghost use Rattle.steps.specs.Tables.{SameSlices, StayOrdered, Reads};

use crate::tables::Filling;
use base::context::{Contribution, KnownStart};
use base::image::SectionContribution;
use base::refusal::{FaultyList, Refusal, Step};
use image::ImageSource;
use sections::Sections;
use starts::add_start;
use table::Table;

fn end_of(item: u32, new: &SectionContribution) -> Result<u32, Refusal>
    ensures refused { result_err result ≡ outside item new.now }
    ensures end { IfOk result (λ n. n ≡ end_of new.now) }
{
    new.offset
        .offset
        .checked_add(new.size)
        .ok_or(Refusal::ContributionOutside { item })
}

// The contribution as a block of its own.
fn open_block(item: u32, new: &SectionContribution) -> Result<Contribution, Refusal>
    ensures refused { result_err result ≡ outside item new.now }
    ensures opened { IfOk result (λ b. b ≡ block new.now) }
{
    let end = end_of(item, new)?;
    Ok(Contribution {
        section: new.offset.section,
        start: new.offset.offset,
        end,
        module: new.module,
    })
}

// The block that goes on up to the end of a contribution of its section and module.
fn extend_block(
    block: Contribution,
    item: u32,
    new: &SectionContribution,
) -> Result<Contribution, Refusal>
    ensures refused { result_err result ≡ or_else (outside item new.now) (if nat_lt new.now.offset.offset block.start || nat_lt (end_of new.now) block.end then Some (Unordered item new.now.«module» new.now.offset.section) else None) }
    ensures grown { IfOk result (λ b. b ≡ grown block new.now) }
{
    let end = end_of(item, new)?;
    if new.offset.offset < block.start || end < block.end {
        return Err(Refusal::Unordered {
            item,
            module: new.module,
            section: new.offset.section,
        });
    }
    Ok(Contribution { end, ..block })
}

#[tactic(auto, using(crate::proofs::Adding::block_refused, starts::proofs::Order::insert_ordered))]
fn close_block(contributions: &mut Table<Contribution>, block: Contribution) -> Result<(), Refusal>
    ensures refused { (bs old : List Row) → Filed bs old contributions.old.rows.now contributions.old.count → result_err result ≡ blocks_full (length old) (block ∷ bs) }
    ensures added { (bs old : List Row) → Filed bs old contributions.old.rows.now contributions.old.count → is_ok result ≡ true → Filed (block ∷ bs) old contributions.new.rows.now contributions.new.count }
    ensures outcome { InOrder contribution_rank (take contributions.old.count contributions.old.rows.now) → Settled contribution_rank contribution_meets contributions.old.rows.now contributions.old.count block (if is_ok result then Some contributions.new.count else None) contributions.new.rows.now }
    ensures full { is_ok result ≡ false → contributions.new.count ≡ contributions.old.count }
    ensures slice { SameSlice contributions.old contributions.new }
    ensures ordered { StaysOrdered contribution_rank contributions.old contributions.new }
{
    contributions
        .insert(block)
        .map_err(|_| Refusal::ContributionTableFull)
}

// Whether `new` goes on with the block.
fn joins(block: &Contribution, new: &SectionContribution) -> bool
    ensures { result ≡ joins block.now new.now }
{
    block.section == new.offset.section && block.module == new.module
}

// Whether `next`, which does not come before `before`, starts below its end.
fn overlap(before: &Contribution, next: &Contribution) -> bool
    ensures { result ≡ overlaps before.now next.now }
{
    before.section == next.section && next.start < before.end
}

impl Filling<'_> {
    // The contributions as blocks, and the starts that they add.
    pub(crate) fn read_contributions<S: ImageSource>(
        &mut self,
        source: &S,
        sections: &Sections,
    ) -> Result<(), Refusal>
        ensures refused { (old : List Start) (rows : List Row) → used sections.now ≡ (S.ImageSource.image source.now).sections → Holds (all_symbols (S.ImageSource.image source.now)) old self.old.starts.rows.now self.old.starts.count → Filed [] rows self.old.contributions.rows.now self.old.contributions.count → result_err result ≡ contributions_refused (S.ImageSource.image source.now) (length old) (length rows) }
        ensures read { (old : List Start) (rows : List Row) → used sections.now ≡ (S.ImageSource.image source.now).sections → Holds (all_symbols (S.ImageSource.image source.now)) old self.old.starts.rows.now self.old.starts.count → Filed [] rows self.old.contributions.rows.now self.old.contributions.count → is_ok result ≡ true → Holds (all_symbols (S.ImageSource.image source.now) ++ contribution_starts (all_kept (S.ImageSource.image source.now))) old self.new.starts.rows.now self.new.starts.count × Filed (blocks (all_kept (S.ImageSource.image source.now))) rows self.new.contributions.rows.now self.new.contributions.count × Proper (blocks (all_kept (S.ImageSource.image source.now))) }
        ensures slices { SameSlices self.old self.new }
        ensures ordered { StayOrdered self.old self.new }
    {
        self.newest = None;
        for item in 0..=u32::MAX {
            let answer = FaultyList::Contributions.refuse(source.contribution(item));
            let Some(contribution) = answer? else {
                return self.close_newest();
            };
            if sections.keeps(&contribution) {
                let block = self.next_block(item, &contribution)?;
                self.newest = Some(block);
            }
        }
        Ok(())
    }

    // One contribution that counts; answers the block that is open after it.
    fn next_block(&mut self, item: u32, new: &SectionContribution) -> Result<Contribution, Refusal>
        ensures refused { (symbols : List Start) (cs : List Item) (old : List Start) (rows : List Row) → Reads symbols cs old rows self.old → result_err result ≡ item_refusal (length old) (length rows) symbols cs item new.now }
        ensures read { (symbols : List Start) (cs : List Item) (old : List Start) (rows : List Row) → Reads symbols cs old rows self.old → 0 < new.now.size → IfOk result (λ b. Reads symbols (cs ++ new.now ∷ []) old rows (record { starts = self.new.starts; contributions = self.new.contributions; newest = Some b })) }
        ensures slices { SameSlices self.old self.new }
        ensures ordered { StayOrdered self.old self.new }
    {
        let Some(block) = self.newest else {
            return open_block(item, new);
        };
        add_start(
            &mut self.starts,
            KnownStart::from(new.offset),
            Step::ReadContributions,
        )?;
        if joins(&block, new) {
            return extend_block(block, item, new);
        }
        close_block(&mut self.contributions, block)?;
        open_block(item, new)
    }

    // Closes the block that is open at the end of the list.
    fn close_newest(&mut self) -> Result<(), Refusal>
        ensures refused { (bs old : List Row) → Filed (drop 1 bs) old self.old.contributions.rows.now self.old.contributions.count → self.old.newest ≡ slice_get bs 0 → result_err result ≡ blocks_full (length old) bs }
        ensures closed { (bs old : List Row) → Filed (drop 1 bs) old self.old.contributions.rows.now self.old.contributions.count → self.old.newest ≡ slice_get bs 0 → is_ok result ≡ true → Filed bs old self.new.contributions.rows.now self.new.contributions.count }
        ensures starts { self.new.starts ≡ self.old.starts }
        ensures slice { SameSlice self.old.contributions self.new.contributions }
        ensures ordered { StaysOrdered contribution_rank self.old.contributions self.new.contributions }
    {
        match self.newest {
            Some(block) => close_block(&mut self.contributions, block),
            None => Ok(()),
        }
    }

    // The contributions are in order; do two neighbours overlap?
    pub(crate) fn check_overlaps(&self) -> Result<(), Refusal>
        ensures { result_err result ≡ first_overlap (take self.now.contributions.count self.now.contributions.rows.now) }
    {
        let [first, others @ ..] = self.contributions.used() else {
            return Ok(());
        };
        let mut before = first;
        for next in others {
            if overlap(before, next) {
                return Err(Refusal::Overlapping {
                    section: before.section,
                    first: before.module,
                    second: next.module,
                });
            }
            before = next;
        }
        Ok(())
    }
}
