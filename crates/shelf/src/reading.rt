// Reading a module's procedures.
ghost use Rattle.std.specs.Prelude.{◌≡◌, ◌+◌, true, not, List, [], ◌∷◌, ◌++◌, length, is_ok, nat_lt};
ghost use Rattle.order.specs.Rank.{at};
ghost use Rattle.base.specs.Rows.{offset_rank};
ghost use Rattle.table.specs.Slice.{SameOrdered};
ghost use Rattle.provider.specs.Modules.{content};
ghost use Rattle.procedures.specs.Rows.{parent_rank};
ghost use Rattle.procedures.specs.declared.row.Procedure.{Procedure as Row};
ghost use Rattle.building.specs.Outcome.{top};
ghost use Rattle.lookup.specs.Reading.{most_procedures, kept, in_order, with_kept};
ghost use Rattle.lookup.specs.Keeping.{Read, kept_by};
ghost use Rattle.shelf.specs.Kept.{Holds, Keeps, used};

use crate::shelf::MOST_PROCEDURES;
use base::image::{Ending, SectionOffset};
use base::refusal::Refusal;
use order::Span;
use procedures::row::{Parent, Procedure};
use provider::ModuleProvider;
use provider::symbols::Symbol;
use table::{Full, OrderedTable};

// Reads the symbols of a module into a table that is empty, and answers how their list ends.
pub(crate) fn read_procedures<P: ModuleProvider>(
    provider: &P,
    module: u16,
    procedures: &mut OrderedTable<Procedure>,
) -> Result<Ending, Refusal>
    requires { (procedures.old.count ≡ 0) × (length procedures.old.rows.now ≡ most_procedures) }
    ensures read { Read «module» (content ((P.ModuleProvider.modules provider.now).at «module»)) procedures.new.rows.now procedures.new.count result }
    ensures slice { SameOrdered procedures.old procedures.new }
{
    let mut parent_rows = [Parent::default(); MOST_PROCEDURES];
    let mut parents = OrderedTable::over(&mut parent_rows);
    for item in 0..=u32::MAX {
        match provider.symbol(module, item) {
            Ok(Some(found)) => keep(procedures, &mut parents, module, item, found.symbol)?,
            Ok(None) => break,
            Err(code) => return Ok(Err(code)),
        }
    }
    Ok(Ok(()))
}

// Keeps what the record at number `item` adds. A procedure is refused that ends above the top or comes to an offset too many.
// No struct over both tables was provable: what one with two `&mut` leaves at its end is not known.
fn keep(
    procedures: &mut OrderedTable<Procedure>,
    parents: &mut OrderedTable<Parent>,
    module: u16,
    item: u32,
    symbol: Symbol,
) -> Result<(), Refusal>
    ensures kept { (ps : List Row) → Holds ps procedures.old parents.old → Keeps (with_kept «module» item ps (kept ps item symbol)) procedures.new parents.new result }
    ensures slice { SameOrdered procedures.old procedures.new }
    ensures parents_slice { SameOrdered parents.old parents.new }
{
    let Some(procedure) = procedure_of(parents, item, symbol) else {
        return Ok(());
    };
    if ends_above_top(&procedure) {
        return Err(Refusal::ProcedureOutside { module, item });
    }
    insert(procedures, parents, procedure).map_err(|_| Refusal::TooManyProcedures { module, item })
}

// The procedure that a record adds. The parents have a row for each offset where one was kept before, of the last one.
fn procedure_of(parents: &OrderedTable<Parent>, item: u32, symbol: Symbol) -> Option<Procedure>
    ensures { result ≡ kept_by (used parents.now) item symbol }
{
    let procedure = match symbol {
        Symbol::Procedure {
            offset,
            length,
            end,
            type_number,
            name,
        } => Procedure {
            offset,
            length,
            name,
            type_number,
            item,
            end,
        },
        Symbol::Thunk {
            offset,
            length,
            end,
            name,
        } => Procedure {
            offset,
            length: length.into(),
            name,
            type_number: 0,
            item,
            end,
        },
        Symbol::SeparatedCode {
            offset,
            length,
            end,
            parent,
        } => {
            let parent = parent_at(parents, parent)?;
            Procedure {
                offset,
                length,
                name: parent.name,
                type_number: parent.type_number,
                item,
                end,
            }
        }
        Symbol::InlineSite { .. } | Symbol::Other => return None,
    };
    (procedure.length != 0).then_some(procedure)
}

fn parent_at(parents: &OrderedTable<Parent>, offset: SectionOffset) -> Option<Parent>
    ensures { result ≡ at parent_rank (offset_rank offset) (used parents.now) }
{
    parents.find(&Parent {
        offset,
        ..Parent::default()
    })
}

// A procedure comes into both tables.
fn insert(
    procedures: &mut OrderedTable<Procedure>,
    parents: &mut OrderedTable<Parent>,
    procedure: Procedure,
) -> Result<(), Full>
    ensures room { (ps : List Row) → Holds ps procedures.old parents.old → is_ok result ≡ not (nat_lt most_procedures (length (in_order (ps ++ procedure ∷ [])))) }
    ensures added { (ps : List Row) → Holds ps procedures.old parents.old → is_ok result ≡ true → Holds (ps ++ procedure ∷ []) procedures.new parents.new }
    ensures slice { SameOrdered procedures.old procedures.new }
    ensures parents_slice { SameOrdered parents.old parents.new }
{
    procedures.insert(procedure)?;
    parents.insert(procedure.into())
}

fn ends_above_top(procedure: &Procedure) -> bool
    ensures { result ≡ nat_lt top (procedure.now.offset.offset + procedure.now.length) }
{
    procedure.end() > u64::from(u32::MAX)
}
