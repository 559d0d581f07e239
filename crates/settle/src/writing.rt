// Entering the reached states and their rows into an open register. None of these entries is refused once the checks are
// passed.
ghost use Rattle.std.specs.Prelude.{◌≡◌, ◌<◌, map, slice_index};
ghost use Rattle.automata.specs.Automaton.{production};
ghost use Rattle.automata.specs.Reading.{concat};
ghost use Rattle.automata.specs.Rows.{rows_of};
ghost use Rattle.ledger.specs.Reach.{reached_states};
ghost use Rattle.ledger.specs.Ledger.{add_state, add_row, entry_step, enter_all, row_entries};
ghost use Rattle.register.specs.Held.{held};
ghost use Rattle.settle.specs.Entries.{numbered_rows};

use crate::reached::Reached;
use automata::automaton::Automaton;
use automata::row::Row;
use register::open::Open;

// Enters a row of a state.
fn enter_row(target: &mut Open<'_>, state: usize, row: Row)
    ensures { held target.new ≡ entry_step (held target.old) (add_row state (production row)) }
{
    let _ = target.row(state, row.form, row.points, row.children());
}

// Enters the rows of a state, in the order of their places.
fn enter_state_rows<A: Automaton>(
    target: &mut Open<'_>,
    pile: &A,
    numbers: &[u16; 1024],
    state: usize,
)
    requires { state < 1024 }
    ensures { held target.new ≡ enter_all (held target.old) (numbered_rows (λ c. slice_index numbers.now c) state (rows_of (A.Automaton.meaning pile.now) state)) }
{
    let number = numbers[state] as usize;
    // a loop: each row is entered, and a chain would hand the rows on one by one all the same
    for place in 0..pile.places() {
        if let Some(row) = pile.row(state, place) {
            enter_row(target, number, row.renamed(numbers));
        }
    }
}

impl<A: Automaton> Reached<'_, A> {
    // Enters a state for each reached one.
    pub(crate) fn enter_states(&self, target: &mut Open<'_>)
        ensures { held target.new ≡ enter_all (held target.old) (map (λ _. add_state) (reached_states (A.Automaton.meaning self.now.pile.now))) }
    {
        for _ in 0..self.count() {
            let _ = target.state();
        }
    }

    // Enters the rows of each reached state, by the new numbers.
    pub(crate) fn enter_rows(&self, target: &mut Open<'_>)
        ensures { held target.new ≡ enter_all (held target.old) (concat (map (row_entries (A.Automaton.meaning self.now.pile.now)) (reached_states (A.Automaton.meaning self.now.pile.now)))) }
    {
        let numbers = self.numbers();
        for state in 0..self.pile.states() {
            if self.marks.has(state) {
                enter_state_rows(target, self.pile, &numbers, state);
            }
        }
    }
}
