// Questions about marks in a list, and about a row whose children are marked in it.
ghost use Rattle.std.specs.Prelude.{◌≡◌};
ghost use Rattle.automata.specs.Automaton.{production};
ghost use Rattle.layers.specs.Marks.{mark, each_marked};

use automata::row::Row;

// Whether a state is marked; past the end of the marks none is.
pub fn is_marked(marks: &[bool], state: usize) -> bool
    ensures { result ≡ mark marks.now state }
{
    marks.get(state).copied().unwrap_or(false)
}

// Whether each child of a row is marked.
pub fn all_marked(marks: &[bool], row: Row) -> bool
    ensures { result ≡ each_marked (mark marks.now) (production row).children }
{
    row.children()
        .iter()
        .all(|child| is_marked(marks, *child as usize))
}
