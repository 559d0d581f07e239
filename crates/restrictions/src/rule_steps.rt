// The restrictions of a sheet in order, and the step that each makes.
ghost use Rattle.std.specs.Prelude.{◌≡◌, map, IfOk};
ghost use Rattle.tickets.specs.Checked.{arities_of};
ghost use Rattle.ledger.specs.Ledger.{add_form, enter_all};
ghost use Rattle.register.specs.Held.{held, held_sealed};
ghost use Rattle.sheet.specs.Held.{barred};
ghost use Rattle.restrictions.specs.Chain.{rules_of, pile_of};
ghost use Rattle.restrictions.specs.Steps.{Stepped};

use crate::rule::Rule;
use automata::yes_no::YesNo;
use fields::fault::{Fault, Stop};
use narrowing::narrow::narrow;
use narrowing::narrowed::Narrowed;
use narrowing::restrict::restrict_by;
use register::open::Open;
use register::sealed::Sealed;
use reports::levels::highest_level;
use rules::bar::{Bar, Nesting};
use rules::ladder::Ladder;
use std::alloc::{AllocError, Global};
use tickets::forms::Forms;

// The ladder if there is a level above 0, then each bar; with neither, the whole grammar.
pub(crate) fn rules_in_order(
    heap: Global,
    levels: &[u16],
    bars: &[Nesting],
) -> Result<Vec<Rule>, AllocError>
    ensures { IfOk result (λ v. v.items ≡ rules_of levels.now (map barred bars.now)) }
{
    let mut rules = Vec::new(heap);
    if highest_level(levels) > 0 {
        rules.push(Rule::Levels)?;
    }
    // a loop: with `extend` over a map, no search found what the list holds after it
    for bar in bars {
        rules.push(Rule::Bars(*bar))?;
    }
    if rules.is_empty() {
        rules.push(Rule::Whole)?;
    }
    Ok(rules)
}

// Enters the forms of a list; none is refused by a blank register, which has room for as many.
pub(crate) fn enter_forms(forms: &Forms<'_>, target: &mut Open<'_>)
    ensures { held target.new ≡ enter_all (held target.old) (map add_form (arities_of forms.now)) }
{
    for arity in forms.arities {
        let _ = target.form(*arity as u16);
    }
}

// Settles what a rule leaves of the current book into the target.
pub(crate) fn by_rule(
    heap: Global,
    current: &Sealed<'_>,
    levels: &[u16],
    rule: Rule,
    target: &mut Open<'_>,
) -> Result<Narrowed, Stop>
    ensures { Stepped (pile_of levels.now (held_sealed current.now) rule) (held target.old) result (held target.new) }
{
    let forms = current.forms();
    match rule {
        Rule::Whole => narrow(heap, current.book(), target),
        Rule::Levels => {
            let highest = highest_level(levels);
            let ladder = Ladder::checked(forms, highest, levels).map_err(Fault::of_no_line)?;
            restrict_by::<Ladder<'_, '_>, YesNo>(heap, current, ladder, target)
        }
        Rule::Bars(nesting) => {
            let bar = Bar::checked(forms, nesting).map_err(Fault::of_no_line)?;
            restrict_by::<Bar<'_>, YesNo>(heap, current, bar, target)
        }
    }
}
