// A grammar as a sheet enters it.
ghost use Rattle.std.specs.Prelude.{◌≡◌, length};
ghost use Rattle.reports.specs.Grammar.{house_read, Reads};

use automata::row::Row;
use fields::fault::{Fault, Stop};
use register::open::Open;
use register::sealed::Sealed;
use sheet::notes::Notes;
use sheet::reader::Reader;
use std::alloc::Global;

// A sealed register, and what the sheet names and collects beside it.
#[derive(Drop)]
pub struct Grammar<'a> {
    pub sealed: Sealed<'a>,
    pub notes: Notes,
}

impl<'a> Grammar<'a> {
    // Reads a sheet into a register over lent rows, and seals it.
    pub fn read(heap: Global, rows: &'a mut [Row], sheet: &[u8]) -> Result<Grammar<'a>, Stop>
        ensures { Reads (house_read (length rows.old) sheet.now) result }
    {
        Open::check(rows).map_err(Fault::of_no_line)?;
        let mut reader = Reader::new(heap, Open::blank(rows));
        reader.read(sheet)?;
        let Reader {
            register,
            notes,
            ..
        } = reader;
        register.can_seal().map_err(Fault::of_no_line)?;
        let sealed = register.seal();
        Ok(Grammar { sealed, notes })
    }
}
