// The book over a sealed register: an automaton that borrows the lent rows for reading. The two facts stand here as in the
// open and the sealed register: one type for them would be no plainer, since it would be made for both ways to lend the
// rows and for both seals.
ghost use Rattle.std.specs.Prelude.{true};
ghost use Rattle.ledger.specs.Layout.{laid_out, Sane, Good};

use automata::row::Row;
use ledger::table::Table;

#[derive(Clone, Copy)]
pub struct Book<'a> {
    pub(crate) rows: &'a [Row],
    pub(crate) table: Table,
    ghost sane: { ∥ Sane rows.now table ∥₁ },
    ghost good: { ∥ Good (laid_out rows.now table true) ∥₁ },
}
