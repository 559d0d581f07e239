// New numbers for the reached states, ascending.
ghost use Rattle.std.specs.Prelude.{◌≡◌, ℕ, ◌<◌, slice_index};
ghost use Rattle.ledger.specs.Reach.{number};

use crate::reached::Reached;
use automata::automaton::Automaton;

impl<A: Automaton> Reached<'_, A> {
    // The new number of a state: how many reached states are below it.
    pub(crate) fn number(&self, state: usize) -> usize
        ensures { result ≡ number (A.Automaton.meaning self.now.pile.now) state }
    {
        (0..state).filter(|below| self.marks.has(*below)).count()
    }

    // The new numbers of all states at once.
    pub(crate) fn numbers(&self) -> [u16; 1024]
        ensures { (s : ℕ) → s < 1024 → slice_index result s ≡ number (A.Automaton.meaning self.now.pile.now) s }
    {
        let mut numbers = [0u16; 1024];
        // by hand: a `scan` would carry the same count in a closure
        let mut count: u16 = 0;
        for (state, number) in numbers.iter_mut().enumerate() {
            *number = count;
            if self.marks.has(state) {
                count += 1;
            }
        }
        numbers
    }
}
