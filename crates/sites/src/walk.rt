// A walk along a procedure's records.
ghost use Rattle.std.specs.Prelude.{◌≡◌, ◌+◌, ◌-◌, ◌≤◌, List, [], ◌∷◌, drop};
ghost use Rattle.std.specs.List.{slice_get};
ghost use Rattle.provider.specs.Modules.{content};
ghost use Rattle.provider.specs.declared.symbols.SiteRow.{SiteRow as Row};
ghost use Rattle.inlining.specs.Steps.{then, leaves};
ghost use Rattle.inlining.specs.Sites.{Site, closings};
ghost use Rattle.inlining.specs.Ranges.{nothing_walked, opened, closed, walked, rows_from};
ghost use Rattle.sites.specs.Rows.{filed, row_added};

use base::refusal::Refusal;
use frames::range::OpenSite;
use procedures::row::Procedure;
use provider::ModuleProvider;
use provider::symbols::{SiteRow, Symbol, SymbolRecord};
use ranges::calls::MOST_OPEN;
use ranges::list::Ranges;

// The first `depth` sites are open, the innermost last. While `skip` is there, the records of a procedure within are passed over, up to and
// including the first at or past that index.
#[derive(Drop)]
pub(crate) struct Walk {
    pub sites: [OpenSite; MOST_OPEN],
    pub depth: usize,
    pub ranges: Ranges,
    pub skip: Option<u32>,
    ghost shallow: { depth ≤ 32 },
}

// The record of an inline site, at number `item` of its module's list.
#[derive(Clone, Copy)]
pub(crate) struct SiteRecord {
    pub item: u32,
    pub index: u32,
    pub inlinee: u32,
    pub end: u32,
}

impl Walk {
    ghost use Rattle.sites.specs.Walk.{walk_of, ends_of, site_of, onward, finished, Stepped};

    pub(crate) fn empty() -> Walk
        ensures walk { walk_of result ≡ nothing_walked }
        ensures skip { result.skip ≡ None }
    {
        Walk {
            sites: [OpenSite::default(); MOST_OPEN],
            depth: 0,
            ranges: Ranges::empty(),
            skip: None,
        }
    }

    // Goes along a procedure, from the record at number `first` to the last one, and closes what is open then.
    pub(crate) fn along<P: ModuleProvider>(
        &mut self,
        provider: &P,
        module: u16,
        procedure: &Procedure,
        first: u32,
    ) -> Result<(), Refusal>
        ensures { let x = content ((P.ModuleProvider.modules provider.now).at «module») in leaves result (walk_of self.new) ≡ onward «module» x procedure.now first self.old (drop first x.symbols) }
    {
        self.follow(provider, module, procedure, first)?;
        self.close_all(module)
    }

    // Takes the records from number `first` on. A fault ends their list like its end.
    fn follow<P: ModuleProvider>(
        &mut self,
        provider: &P,
        module: u16,
        procedure: &Procedure,
        first: u32,
    ) -> Result<(), Refusal>
        ensures { let x = content ((P.ModuleProvider.modules provider.now).at «module») in then result (λ u. finished «module» x procedure.now self.new) ≡ onward «module» x procedure.now first self.old (drop first x.symbols) }
    {
        for item in first..=u32::MAX {
            let Ok(Some(found)) = provider.symbol(module, item) else {
                break;
            };
            let goes_on = self.step(provider, module, procedure, item, found)?;
            if !goes_on {
                break;
            }
        }
        Ok(())
    }

    // Takes the record at number `item`, and answers whether the walk goes on after it.
    fn step<P: ModuleProvider>(
        &mut self,
        provider: &P,
        module: u16,
        procedure: &Procedure,
        item: u32,
        found: SymbolRecord,
    ) -> Result<bool, Refusal>
        ensures { Stepped «module» (content ((P.ModuleProvider.modules provider.now).at «module»)) procedure.now item found self.old self.new result }
    {
        if let Some(end) = self.skip {
            self.skip = (found.index < end).then_some(end);
            return Ok(true);
        }
        match (self.innermost(), &found.symbol) {
            (None, _) if found.index >= procedure.end => return Ok(false),
            // it closes that one and does nothing else
            (Some(site), _) if found.index >= site.end => self.close(module)?,
            (_, Symbol::Procedure { end, .. }) => self.skip = Some(*end),
            (_, Symbol::InlineSite { inlinee, end }) => {
                let site = SiteRecord {
                    item,
                    index: found.index,
                    inlinee: *inlinee,
                    end: *end,
                };
                self.open_site(provider, module, procedure, site)?;
            }
            _ => {}
        }
        Ok(true)
    }

    fn innermost(&self) -> Option<OpenSite>
        ensures { result ≡ slice_get (walk_of self.now).sites 0 }
    {
        self.sites[..self.depth].last().copied()
    }

    // A site opens and writes its rows. A fault ends their list like its end.
    fn open_site<P: ModuleProvider>(
        &mut self,
        provider: &P,
        module: u16,
        procedure: &Procedure,
        site: SiteRecord,
    ) -> Result<(), Refusal>
        ensures walk { leaves result (walk_of self.new) ≡ opened «module» (rows_from (content ((P.ModuleProvider.modules provider.now).at «module»)) procedure.now) (site_of site) (walk_of self.old) }
        ensures skip { self.new.skip ≡ self.old.skip }
    {
        self.push(module, site)?;
        for item in 0..=u32::MAX {
            let Ok(Some(row)) = provider.site_row(module, site.index, procedure.offset, item) else {
                break;
            };
            self.add_row(module, site.item, row)?;
        }
        Ok(())
    }

    // A site opens that has no rows so far.
    fn push(&mut self, module: u16, site: SiteRecord) -> Result<(), Refusal>
        ensures walk { leaves result (walk_of self.new) ≡ opened «module» (λ s. []) (site_of site) (walk_of self.old) }
        ensures skip { self.new.skip ≡ self.old.skip }
    {
        if self.depth >= MOST_OPEN {
            return Err(Refusal::SitesTooDeep {
                module,
                item: site.item,
            });
        }
        self.sites[self.depth] = OpenSite {
            inlinee: site.inlinee,
            end: site.end,
            file: None,
            from: self.ranges.count,
        };
        self.depth += 1;
        Ok(())
    }

    // A row of the innermost site, whose record is the one at number `item`.
    fn add_row(&mut self, module: u16, item: u32, row: SiteRow) -> Result<(), Refusal>
        ensures walk { leaves result (walk_of self.new) ≡ row_added «module» item row (walk_of self.old) }
        ensures skip { self.new.skip ≡ self.old.skip }
    {
        let Some(depth) = self.depth.checked_sub(1) else {
            return Ok(());
        };
        let site = &mut self.sites[depth];
        self.ranges.add_row(module, item, depth, site.inlinee, row)?;
        keep_file(site, row);
        Ok(())
    }

    // The innermost site closes, where one is open.
    fn close(&mut self, module: u16) -> Result<(), Refusal>
        ensures walk { leaves result (walk_of self.new) ≡ closed «module» (walk_of self.old) }
        ensures depth { self.new.depth ≡ self.old.depth - 1 }
        ensures skip { self.new.skip ≡ self.old.skip }
    {
        let Some(depth) = self.depth.checked_sub(1) else {
            return Ok(());
        };
        self.depth = depth;
        let site = self.sites[depth];
        self.ranges.add_uncovered(module, depth, &site)
    }

    // All open sites close, the innermost first.
    fn close_all(&mut self, module: u16) -> Result<(), Refusal>
        ensures { (rows : Site → List Row) → leaves result (walk_of self.new) ≡ walked «module» rows (walk_of self.old) (closings (ends_of self.old)) }
    {
        while self.depth > 0 {
            self.close(module)?;
        }
        Ok(())
    }
}

// A site keeps the file of its first row that covers anything.
fn keep_file(site: &mut OpenSite, row: SiteRow)
    ensures { site.new ≡ filed site.old (row ∷ []) }
{
    if site.file.is_none() && row.length.is_some_and(|length| length != 0) {
        site.file = Some(row.file);
    }
}
