// Answering a sheet.
ghost use Rattle.std.specs.Prelude.{map, length};
ghost use Rattle.register.specs.Held.{held_sealed};
ghost use Rattle.sheet.specs.Held.{lists, barred};
ghost use Rattle.restrictions.specs.House.{Restricted, Told};

use crate::chain::onward;
use crate::report::report;
use crate::rule_steps::rules_in_order;
use automata::row::Row;
use fields::fault::Stop;
use reports::grammar::Grammar;
use reports::house::House;
use std::alloc::Global;

// Restricts what is entered, and lists what is left.
fn restricted(heap: Global, grammar: &Grammar<'_>) -> Result<House, Stop>
    ensures { Restricted grammar.now.notes.levels.items (held_sealed grammar.now.sealed) (map barred grammar.now.notes.bars.items) (lists grammar.now.notes.forms) (lists grammar.now.notes.tickets) result }
{
    let Grammar { sealed, notes } = grammar;
    let rules = rules_in_order(heap, &notes.levels, &notes.bars)?;
    let mut steps = Vec::new(heap);
    let listing = onward(heap, sealed, &rules, notes, &mut steps)?;
    let report = report(heap, grammar, &steps)?;
    Ok(House { listing, report })
}

// The answer to a sheet, over lent rows.
pub fn answer(heap: Global, rows: &mut [Row], sheet: &[u8]) -> Result<House, Stop>
    ensures { Told (length rows.old) sheet.now result }
{
    let grammar = Grammar::read(heap, rows, sheet)?;
    restricted(heap, &grammar)
}
