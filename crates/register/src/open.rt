// An open register, which takes entries.
ghost use Rattle.std.specs.Prelude.{false};
ghost use Rattle.ledger.specs.Layout.{laid_out, Sane, Good};

use automata::row::Row;
use ledger::table::Table;

#[derive(Drop)]
pub struct Open<'a> {
    pub(crate) rows: &'a mut [Row],
    pub(crate) table: Table,
    ghost sane: { ∥ Sane rows.now table ∥₁ },
    ghost good: { ∥ Good (laid_out rows.now table false) ∥₁ },
}
