// An automaton with the states that rows reach from its root. The rows of each are asked for once.
ghost use Rattle.std.specs.Prelude.{◌≡◌, ℕ, ◌<◌, true, false, length, MatchOption};
ghost use Rattle.automata.specs.Rows.{rows_of};
ghost use Rattle.layers.specs.Marks.{mark};
ghost use Rattle.ledger.specs.Reach.{reached, reached_states};
ghost use Rattle.settle.specs.Sizes.{row_total};
ghost use Rattle.settle.specs.Spread.{AllReached, Followed};

use automata::automaton::Automaton;
use layers::marks::Marks;

// An automaton beside the marks of the states that rows reach from its root, and how many rows those have.
#[derive(Drop)]
pub(crate) struct Reached<'a, A: Automaton> {
    pub(crate) pile: &'a A,
    pub(crate) marks: Marks,
    pub(crate) rows: usize,
    ghost exact: { (s : ℕ) → mark marks s ≡ reached (A.Automaton.meaning pile.now) s },
    ghost counted: { rows ≡ row_total (A.Automaton.meaning pile.now) (reached_states (A.Automaton.meaning pile.now)) },
}

// Marks the children of each row of a marked state, and counts its rows.
fn mark_next<A: Automaton>(pile: &A, state: usize, marks: &mut Marks) -> usize
    requires here { mark marks.old state ≡ true }
    requires right { AllReached (A.Automaton.meaning pile.now) (mark marks.old) }
    ensures keeps { (s : ℕ) → mark marks.old s ≡ true → mark marks.new s ≡ true }
    ensures right { AllReached (A.Automaton.meaning pile.now) (mark marks.new) }
    ensures followed { Followed (A.Automaton.meaning pile.now) (mark marks.new) state (A.Automaton.meaning pile.now).places }
    ensures counted { result ≡ length (rows_of (A.Automaton.meaning pile.now) state) }
{
    // a loop: each row changes the marks, and a chain would hand the rows on one by one all the same; they are counted here,
    // since to ask for them once more to count them costs as much again
    let mut rows: usize = 0;
    for place in 0..pile.places() {
        if let Some(row) = pile.row(state, place) {
            rows += 1;
            marks.add_children(row);
        }
    }
    rows
}

// A marked state whose rows were not asked for yet, if there is one.
fn pending(states: usize, marks: &Marks, asked: &Marks) -> Option<usize>
    ensures { MatchOption result ((s : ℕ) → s < states → mark marks.now s ≡ true → mark asked.now s ≡ true) (λ s. (s < states) × (mark marks.now s ≡ true) × (mark asked.now s ≡ false)) }
{
    (0..states).find(|state| marks.has(*state) && !asked.has(*state))
}

impl<'a, A: Automaton> Reached<'a, A> {
    // Marks what rows reach, and counts them.
    pub(crate) fn of(pile: &'a A) -> Self
        ensures { result.pile.now ≡ pile.now }
    {
        let states = pile.states();
        let mut marks = Marks::none();
        let mut asked = Marks::none();
        marks.add(pile.root());
        let mut rows: usize = 0;
        while let Some(state) = pending(states, &marks, &asked) {
            asked.add(state);
            rows = rows.saturating_add(mark_next(pile, state, &mut marks));
        }
        Reached { pile, marks, rows }
    }
}
