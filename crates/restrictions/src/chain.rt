// The restrictions one after the other, each settled into a register of its own.
ghost use Rattle.std.specs.Prelude.{◌≡◌};
ghost use Rattle.register.specs.Held.{held_sealed};
ghost use Rattle.sheet.specs.Held.{lists};
ghost use Rattle.restrictions.specs.House.{Lists, Only, Returns};

use crate::rule::Rule;
use crate::rule_steps::{by_rule, enter_forms};
use automata::row::Row;
use fields::fault::Stop;
use listing::whole::listing;
use narrowing::narrowed::Narrowed;
use register::open::Open;
use register::sealed::Sealed;
use sheet::notes::Notes;
use std::alloc::Global;

// Restricts the current book by each rule, and lists the last. Each rule with what it made of the book stands in `steps`
// then. It calls itself, since each book borrows the rows of its own register.
pub(crate) fn onward(
    heap: Global,
    current: &Sealed<'_>,
    rules: &[Rule],
    notes: &Notes,
    steps: &mut Vec<(Rule, Narrowed)>,
) -> Result<Vec<u8>, Stop>
    ensures { Returns (Only (Lists notes.now.levels.items (held_sealed current.now) rules.now (lists notes.now.forms) (lists notes.now.tickets))) result }
{
    let Some((rule, rest)) = rules.split_first() else {
        return listing(heap, &notes.forms, current, &notes.tickets);
    };
    let mut rows = vec![in heap; Row::default(); 2048]?;
    let mut target = Open::blank(&mut rows);
    enter_forms(&current.forms(), &mut target);
    let narrowed = by_rule(heap, current, &notes.levels, *rule, &mut target)?;
    steps.push((*rule, narrowed))?;
    let next = target.seal();
    onward(heap, &next, rest, notes, steps)
}
