// How large an automaton is, from its root.
ghost use Rattle.std.specs.Prelude.{◌≡◌, ◌≤◌, length};
ghost use Rattle.automata.specs.Rows.{rows_of};
ghost use Rattle.ledger.specs.Reach.{reached_states};
ghost use Rattle.settle.specs.Sizes.{row_total};

use crate::reached::Reached;
use automata::automaton::Automaton;

// How many states rows reach from the root, and how many rows those have.
#[derive(Clone, Copy)]
pub struct Size {
    pub states: usize,
    pub rows: usize,
}

// How many rows a state has.
pub(crate) fn count_rows<A: Automaton>(pile: &A, state: usize) -> usize
    ensures value { result ≡ length (rows_of (A.Automaton.meaning pile.now) state) }
    ensures few { result ≤ 65536 }
{
    (0..pile.places())
        .filter_map(|place| pile.row(state, place))
        .count()
}

impl<A: Automaton> Reached<'_, A> {
    // How many states are reached.
    pub(crate) fn count(&self) -> usize
        ensures { result ≡ length (reached_states (A.Automaton.meaning self.now.pile.now)) }
    {
        self.number(self.pile.states())
    }
}

// The size of what settle would write of the automaton.
pub fn size_of<A: Automaton>(pile: &A) -> Size
    ensures states { result.states ≡ length (reached_states (A.Automaton.meaning pile.now)) }
    ensures rows { result.rows ≡ row_total (A.Automaton.meaning pile.now) (reached_states (A.Automaton.meaning pile.now)) }
{
    let reached = Reached::of(pile);
    Size {
        states: reached.count(),
        rows: reached.rows,
    }
}
