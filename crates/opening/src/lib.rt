// The provider of a described image, over the rows of its description.
#![tactic(auto)]

ghost use Rattle.std.specs.Prelude.{◌≡◌, ℕ, List, [], Some, None, Ok, Err, IfOk, vec_items};
ghost use Rattle.std.specs.Result.{result_err};
ghost use Rattle.base.specs.declared.refusal.Refusal.TheVariants.{TooManyHidden};
ghost use Rattle.hiding.specs.Hidden.{with_each};
ghost use Rattle.hiding.specs.Layer.{below, hidden};
ghost use Rattle.rows.specs.Tables.{meaning_of};
ghost use Rattle.modules.specs.Meaning.{modules_of};
ghost use Rattle.modules.specs.BadRows.{bad_row};
ghost use Rattle.opening.specs.Opening.{module_rows, described_image, described_modules, refused};

use base::refusal::Refusal;
use description::Description;
use hiding::Hiding;
use image::ImageSource;
use modules::tables::ModuleRows;
use provider::ModuleProvider;
use row_provider::RowProvider;
use rows::tables::ImageRows;

// The rows, opened, with the modules hidden that the description hides.
pub fn open(description: &Description) -> Result<Hiding<RowProvider<'_>>, Refusal>
    ensures answer { result_err result ≡ refused description.now }
    ensures image { IfOk result (λ p. ⟦<Hiding<RowProvider<'static>> as ImageSource>⟧.image p ≡ described_image description.now) }
    ensures modules { IfOk result (λ p. ⟦<Hiding<RowProvider<'static>> as ModuleProvider>⟧.modules p ≡ described_modules description.now) }
    ensures hidden { IfOk result (λ p. with_each (vec_items description.now.hidden) [] ≡ Some (hidden p)) }
{
    let mut provider = RowProvider::empty();
    RowProvider::open(
        image_rows(description),
        module_rows(description),
        &mut provider,
    )?;
    let mut layer = Hiding::over(provider);
    hide_each(&mut layer, description.hidden.as_slice())?;
    Ok(layer)
}

fn hide_each<P>(layer: &mut Hiding<P>, numbers: &[u16]) -> Result<(), Refusal>
    ensures below { below layer.new ≡ below layer.old }
    ensures numbers { elim result [ Ok v ↦ with_each numbers.now (hidden layer.old) ≡ Some (hidden layer.new) | Err e ↦ (with_each numbers.now (hidden layer.old) ≡ None) × (e ≡ TooManyHidden) ] }
{
    for number in numbers {
        layer.hide(*number)?;
    }
    Ok(())
}

fn image_rows(description: &Description) -> ImageRows<'_>
    ensures { meaning_of result ≡ described_image description.now }
{
    ImageRows {
        text: description.text.as_slice(),
        sections: description.image.sections.as_slice(),
        symbols: description.image.symbols.as_slice(),
        symbols_end: description.symbols_end,
        contributions: description.image.contributions.as_slice(),
        contributions_end: description.contributions_end,
    }
}

fn module_rows(description: &Description) -> ModuleRows<'_>
    ensures means { modules_of result ≡ modules_of (module_rows description.now) }
    ensures bad { (text : List ℕ) → bad_row text result ≡ bad_row text (module_rows description.now) }
{
    let parts = &description.modules.parts;
    ModuleRows {
        modules: description.modules.modules.as_slice(),
        symbols: parts.symbols.as_slice(),
        site_lists: parts.sites.lists.as_slice(),
        site_rows: parts.sites.rows.as_slice(),
        line_lists: parts.lines.lists.as_slice(),
        line_rows: parts.lines.rows.as_slice(),
        files: parts.files.as_slice(),
    }
}
