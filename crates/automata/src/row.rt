// A row of an automaton: a form, read with some points, and the state that reads each child.
ghost use Rattle.std.specs.Prelude.{◌≡◌, ◌≤◌, length, take, slice_index};
ghost use Rattle.automata.specs.Automaton.{production};
ghost use Rattle.automata.specs.Rows.{renamed};

// The arity stands beside a plain array, since the rows of a register are copied in place in a list that is lent.
#[derive(Clone, Copy, Default)]
pub struct Row {
    pub form: u16,
    pub points: u16,
    pub arity: u8,
    // the state for each child position below the arity; what stands beyond says nothing
    pub children: [u16; 4],
}

// How many children a row has.
pub fn width(row: Row) -> usize
    ensures value { result ≡ length (production row).children }
    ensures few { result ≤ 4 }
    ensures front { take result row.children ≡ (production row).children }
{
    (row.arity as usize).min(4)
}

impl Row {
    // The states that read the row's children.
    pub fn children(&self) -> &[u16]
        ensures value { result.now ≡ (production self.now).children }
        ensures few { length result.now ≤ 4 }
    {
        &self.children[..width(*self)]
    }

    // The row with each child replaced by its number in a list, or by 0 past the end of the list.
    pub fn renamed(self, numbers: &[u16]) -> Row
        ensures { production result ≡ renamed (λ c. slice_index numbers.now c) (production self) }
    {
        Row {
            children: self
                .children
                .map(|child| numbers.get(child as usize).copied().unwrap_or(0)),
            ..self
        }
    }
}
