// Marking the productive states, by rounds over the collected rows.
ghost use Rattle.std.specs.Prelude.{◌≡◌, ℕ, false, map, Decides};
ghost use Rattle.automata.specs.Automaton.{production};
ghost use Rattle.layers.specs.Marks.{mark, Stuck};
ghost use Rattle.layers.specs.Trim.{Productive};
ghost use Rattle.layers.specs.Growth.{Grows, SomeReady, AllProductive};

use crate::collected::Collected;
use crate::marks::Marks;
use automata::automaton::Automaton;
use automata::row::Row;

// Whether some row has all its children marked.
fn any_ready(marks: &Marks, rows: &[Row]) -> bool
    ensures { Decides result (SomeReady (mark marks.now) (map production rows.now)) }
{
    rows.iter().any(|row| marks.has_children(*row))
}

impl<A: Automaton> Collected<'_, A> {
    // Marks each state that has a row whose children are marked, and tells whether any was added.
    fn mark_round(&self, marks: &mut Marks) -> bool
        requires { AllProductive (A.Automaton.meaning self.now.below.now) (mark marks.old) }
        ensures grows { Grows (mark marks.old) (mark marks.new) result }
        ensures right { AllProductive (A.Automaton.meaning self.now.below.now) (mark marks.new) }
        ensures stuck { result ≡ false → Stuck (A.Automaton.meaning self.now.below.now) (mark marks.new) (A.Automaton.meaning self.now.below.now).states }
    {
        let mut added = false;
        for (state, rows) in self.rows.iter().enumerate() {
            if !marks.has(state) && any_ready(marks, rows.as_slice()) {
                added |= marks.add(state);
            }
        }
        added
    }

    // The marks of the states that accept some ticket.
    pub(crate) fn productive(&self) -> Marks
        ensures { (s : ℕ) → Decides (mark result s) (Productive (A.Automaton.meaning self.now.below.now) s) }
    {
        let mut marks = Marks::none();
        while self.mark_round(&mut marks) {}
        marks
    }
}
