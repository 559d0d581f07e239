// The rows of all states, asked for once.
ghost use Rattle.std.specs.Prelude.{◌≡◌, IfOk};
ghost use Rattle.automata.specs.Rows.{rows_of};
ghost use Rattle.layers.specs.Rows.{listing, TableTo};

use automata::automaton::Automaton;
use automata::row::Row;
use std::alloc::{AllocError, Global};

// The rows of a state, in the order of their places.
fn rows_at<A: Automaton>(heap: Global, below: &A, state: usize) -> Result<Vec<Row>, AllocError>
    ensures { IfOk result (λ v. listing v ≡ rows_of (A.Automaton.meaning below.now) state) }
{
    (0..below.places())
        .filter_map(|place| below.row(state, place))
        .collect(heap)
}

// The rows of every state.
pub fn table<A: Automaton>(heap: Global, below: &A) -> Result<Vec<Vec<Row>>, AllocError>
    ensures { IfOk result (λ v. TableTo (A.Automaton.meaning below.now) v.items (A.Automaton.meaning below.now).states) }
{
    (0..below.states())
        .map(|state| rows_at(heap, below, state))
        .try_collect(heap)
}
