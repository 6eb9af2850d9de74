// Reading a module onto the shelf.
ghost use Rattle.std.specs.Prelude.{◌≡◌, None};
ghost use Rattle.std.specs.Result.{result_err};
ghost use Rattle.order.specs.Rank.{Rises};
ghost use Rattle.provider.specs.Modules.{content};
ghost use Rattle.procedures.specs.Rows.{procedure_rank};
ghost use Rattle.lookup.specs.Reading.{empty_shelf, read_through, filled, shelve, bears};
ghost use Rattle.shelf.specs.Shelf.{shelved};

use crate::reading::read_procedures;
use crate::shelf::{MOST_PROCEDURES, Procedures, Shelf};
use crate::stretches::{Stretch, fill_stretches};
use base::refusal::Refusal;
use procedures::row::Procedure;
use provider::ModuleProvider;
use provider::symbols::ModuleState;
use table::OrderedTable;

impl Shelf {
    pub fn empty() -> Shelf
        ensures { shelved result ≡ empty_shelf }
    {
        Shelf {
            module: None,
            rows: [Procedure::empty(); MOST_PROCEDURES],
            stretches: [Stretch::default(); MOST_PROCEDURES],
            count: 0,
        }
    }

    #[tactic(auto, using(order::proofs::Rows::in_order_from_rises))]
    pub fn procedures(&self) -> Procedures<'_>
        ensures value { result.rows.now ≡ (shelved self.now).procedures }
        ensures rises { Rises procedure_rank result.rows.now }
    {
        Procedures {
            rows: &self.rows[..self.count],
            stretches: &self.stretches,
        }
    }

    // Sees to it that the shelf holds the procedures of a module. One that bears the module's number stays as it is; a module without
    // information, or refused, leaves it empty.
    pub fn want<P: ModuleProvider>(&mut self, provider: &P, module: u16) -> Result<(), Refusal>
        ensures answer { result_err result ≡ (shelve (P.ModuleProvider.modules provider.now) «module» (shelved self.old)).refusal }
        ensures shelf { shelved self.new ≡ (shelve (P.ModuleProvider.modules provider.now) «module» (shelved self.old)).shelf }
    {
        if self.bears(module) {
            return Ok(());
        }
        self.module = None;
        self.count = 0;
        match provider.module_state(module) {
            ModuleState::Present => self.load(provider, module),
            ModuleState::Absent | ModuleState::Broken => Ok(()),
        }
    }

    fn bears(&self, module: u16) -> bool
        ensures { result ≡ bears «module» self.now.«module» }
    {
        self.module == Some(module)
    }

    // The shelf is empty, and the module is there to be read.
    fn load<P: ModuleProvider>(&mut self, provider: &P, module: u16) -> Result<(), Refusal>
        requires empty { (self.old.count ≡ 0) × (self.old.«module» ≡ None) }
        ensures answer { result_err result ≡ (filled «module» (read_through «module» (content ((P.ModuleProvider.modules provider.now).at «module»)))).refusal }
        ensures shelf { shelved self.new ≡ (filled «module» (read_through «module» (content ((P.ModuleProvider.modules provider.now).at «module»)))).shelf }
    {
        let mut procedures = OrderedTable::over(&mut self.rows);
        // a faulty list gives no information
        if let Ok(()) = read_procedures(provider, module, &mut procedures)? {
            let count = procedures.count;
            fill_stretches(&self.rows[..count], &mut self.stretches);
            self.count = count;
            self.module = Some(module);
        }
        Ok(())
    }
}
