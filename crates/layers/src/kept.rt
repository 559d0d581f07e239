// Marking the kept states, by rounds over the collected rows.
ghost use Rattle.std.specs.Prelude.{◌≡◌, ℕ, true, false, ◌⊎◌, map, Decides};
ghost use Rattle.std.specs.List.{AllByRecursion};
ghost use Rattle.automata.specs.Automaton.{Production, production, all_below};
ghost use Rattle.automata.specs.Reading.{Member};
ghost use Rattle.layers.specs.Marks.{mark, each_marked};
ghost use Rattle.layers.specs.Trim.{Productive, Kept};
ghost use Rattle.layers.specs.Growth.{Grows, Led, AllKept, Spread};

use crate::collected::Collected;
use crate::marks::Marks;
use automata::automaton::Automaton;
use automata::row::Row;

// Marks the children of each row whose children are all productive, and tells whether any was added.
fn keep_rows(productive: &Marks, rows: &[Row], marks: &mut Marks) -> bool
    requires { AllByRecursion (λ p. all_below 1024 p.children ≡ true) (map production rows.now) }
    ensures grows { Grows (mark marks.old) (mark marks.new) result }
    ensures all { (p : Production) → Member p (map production rows.now) → each_marked (mark productive.now) p.children ≡ true → each_marked (mark marks.new) p.children ≡ true }
    ensures from { (s : ℕ) → mark marks.new s ≡ true → (mark marks.old s ≡ true) ⊎ Led (mark productive.now) (map production rows.now) s }
{
    let mut added = false;
    for row in rows {
        if productive.has_children(*row) {
            added |= marks.add_children(*row);
        }
    }
    added
}

impl<A: Automaton> Collected<'_, A> {
    // Goes once over the kept states, and tells whether any was added.
    fn keep_round(&self, productive: &Marks, marks: &mut Marks) -> bool
        requires decided { (s : ℕ) → Decides (mark productive.now s) (Productive (A.Automaton.meaning self.now.below.now) s) }
        requires right { AllKept (A.Automaton.meaning self.now.below.now) (mark marks.old) }
        ensures grows { Grows (mark marks.old) (mark marks.new) result }
        ensures right { AllKept (A.Automaton.meaning self.now.below.now) (mark marks.new) }
        ensures spread { result ≡ false → Spread (A.Automaton.meaning self.now.below.now) (mark productive.now) (mark marks.new) (A.Automaton.meaning self.now.below.now).states }
    {
        let mut added = false;
        for (state, rows) in self.rows.iter().enumerate() {
            if marks.has(state) {
                added |= keep_rows(productive, rows.as_slice(), marks);
            }
        }
        added
    }

    // The marks of the root, if productive, and of every child of a usable row of a marked state.
    pub(crate) fn kept(&self, productive: &Marks) -> Marks
        requires { (s : ℕ) → Decides (mark productive.now s) (Productive (A.Automaton.meaning self.now.below.now) s) }
        ensures { (s : ℕ) → Decides (mark result s) (Kept (A.Automaton.meaning self.now.below.now) s) }
    {
        let mut marks = Marks::none();
        let root = self.below.root();
        if productive.has(root) {
            marks.add(root);
        }
        while self.keep_round(productive, &mut marks) {}
        marks
    }
}
