// Answering a sheet.
ghost use Rattle.std.specs.Prelude.{length};
ghost use Rattle.house.specs.House.{house_answer, Told};

use crate::report::report;
use automata::row::Row;
use fields::fault::Stop;
use listing::whole::listing;
use reports::grammar::Grammar;
use reports::house::House;
use std::alloc::Global;

// The answer to a sheet, over lent rows.
pub fn answer(heap: Global, rows: &mut [Row], sheet: &[u8]) -> Result<House, Stop>
    ensures { Told (house_answer (length rows.old) sheet.now) result }
{
    let grammar = Grammar::read(heap, rows, sheet)?;
    let report = report(heap, &grammar)?;
    let Grammar { sealed, notes } = &grammar;
    let listing = listing(heap, &notes.forms, sealed, &notes.tickets)?;
    Ok(House { listing, report })
}
