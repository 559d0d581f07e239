// An automaton with its rows, each asked for once.
ghost use Rattle.std.specs.Prelude.{◌≡◌};
ghost use Rattle.layers.specs.Rows.{TableTo};

use automata::automaton::Automaton;
use automata::row::Row;

// An automaton beside the table of its rows. The table is lent: a struct that owns memory has no ghost field that cites a
// bound.
#[derive(Drop)]
pub(crate) struct Collected<'a, A: Automaton> {
    pub(crate) below: &'a A,
    pub(crate) rows: &'a [Vec<Row>],
    ghost table: { TableTo (A.Automaton.meaning below.now) rows.now (A.Automaton.meaning below.now).states },
}
