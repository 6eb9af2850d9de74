// The calls that are inlined at a place.
ghost use Rattle.std.specs.Prelude.{◌≡◌, [], drop, None, Some, Ok};
ghost use Rattle.provider.specs.Modules.{content};
ghost use Rattle.inlining.specs.Steps.{then};
ghost use Rattle.inlining.specs.Sites.{turns, turns_of};
ghost use Rattle.inlining.specs.Finding.{inlined_calls};
ghost use Rattle.ranges.specs.Held.{calls};

use crate::walk::Walk;
use base::refusal::Refusal;
use procedures::row::Procedure;
use provider::ModuleProvider;
use provider::symbols::Symbol;
use ranges::calls::InlineCalls;

// The calls that are inlined at a place of a procedure, the outermost first.
pub fn inline_calls<P: ModuleProvider>(
    provider: &P,
    module: u16,
    procedure: &Procedure,
    place: u32,
) -> Result<InlineCalls, Refusal>
    ensures { then result (λ c. Ok (calls c)) ≡ inlined_calls «module» (content ((P.ModuleProvider.modules provider.now).at «module»)) place (Some procedure.now) }
{
    let Some(first) = first_turn(provider, module, procedure) else {
        return Ok(InlineCalls::empty());
    };
    // it is large, so that it is lent and not moved
    let mut walk = Walk::empty();
    walk.along(provider, module, procedure, first)?;
    Ok(walk.ranges.calls_at(place))
}

// The number of the first record in a procedure that opens a site or begins a procedure within. Where there is none, nothing is inlined, and no room
// is cleared for ranges.
fn first_turn<P: ModuleProvider>(provider: &P, module: u16, procedure: &Procedure) -> Option<u32>
    ensures { let symbols = (content ((P.ModuleProvider.modules provider.now).at «module»)).symbols in elim result [ None ↦ turns_of symbols procedure.now ≡ [] | Some first ↦ turns_of symbols procedure.now ≡ turns procedure.now.end first None [] (drop first symbols) ] }
{
    // past the highest number there are no records
    for item in procedure.item.checked_add(1)?..=u32::MAX {
        let Ok(Some(found)) = provider.symbol(module, item) else {
            return None;
        };
        if found.index >= procedure.end {
            return None;
        }
        if let Symbol::Procedure { .. } | Symbol::InlineSite { .. } = &found.symbol {
            return Some(item);
        }
    }
    None
}
