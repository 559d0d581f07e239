// A sealed register, which has a root and takes no entries.
ghost use Rattle.std.specs.Prelude.{true};
ghost use Rattle.ledger.specs.Layout.{laid_out, Sane, Good};

use automata::row::Row;
use ledger::table::Table;

#[derive(Drop)]
pub struct Sealed<'a> {
    pub(crate) rows: &'a mut [Row],
    pub(crate) table: Table,
    ghost sane: { ∥ Sane rows.now table ∥₁ },
    ghost good: { ∥ Good (laid_out rows.now table true) ∥₁ },
}
