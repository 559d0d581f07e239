// The automaton interface.
ghost use Rattle.std.specs.Prelude.{◌≡◌};
ghost use Rattle.automata.specs.Automaton.{Meaning, Sound, shown};

use crate::row::Row;

// A tree automaton by four questions. Its meaning is what it answers, and is sound at every value.
pub trait Automaton {
    ghost meaning: { Self → Meaning };

    ghost sound: { (a : Self) → Sound (meaning a) };

    // How many states there are, 1 to 1,024.
    fn states(&self) -> usize
        ensures { result ≡ (meaning self.now).states };

    // How many places each state has, 1 to 65,536.
    fn places(&self) -> usize
        ensures { result ≡ (meaning self.now).places };

    // The state that reads a whole ticket.
    fn root(&self) -> usize
        ensures { result ≡ (meaning self.now).root };

    // The row at a place of a state, if there is one.
    fn row(&self, state: usize, place: usize) -> Option<Row>
        ensures { shown result ≡ (meaning self.now).row state place };
}
