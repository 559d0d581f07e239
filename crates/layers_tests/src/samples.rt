// Small automata to put under layers.
ghost use Rattle.std.specs.Prelude.{◌≡◌, ◌<◌, ◌≤◌, [], ◌∷◌};
ghost use Rattle.automata.specs.Automaton.{production};
ghost use Rattle.layers_tests.specs.Samples.{bare, bare_sound, chain, chain_sound, ring, ring_sound};

use automata::automaton::Automaton;
use automata::row::Row;

// A row of form 1 over a state.
fn over(child: u16) -> Row
    ensures { production result ≡ record { form = 1; points = 0; children = child ∷ [] } }
{
    Row {
        form: 1,
        arity: 1,
        children: [child, 0, 0, 0],
        ..Row::default()
    }
}

// An automaton without rows.
#[derive(Clone, Copy)]
pub struct Bare {
    states: usize,
    places: usize,
    ghost some_state: { 0 < states },
    ghost few_states: { states ≤ 1024 },
    ghost some_place: { 0 < places },
    ghost few_places: { places ≤ 65536 },
}

impl Bare {
    pub(crate) fn new(states: usize, places: usize) -> Bare
        requires states { (0 < states) × (states ≤ 1024) }
        requires places { (0 < places) × (places ≤ 65536) }
    {
        Bare { states, places }
    }
}

impl Automaton for Bare {
    ghost meaning = { λ s. bare s.states s.places };

    ghost sound = { λ s. bare_sound s.states s.places s.some_state s.few_states s.some_place s.few_places };

    fn states(&self) -> usize {
        self.states
    }

    fn places(&self) -> usize {
        self.places
    }

    fn root(&self) -> usize {
        0
    }

    fn row(&self, _state: usize, _place: usize) -> Option<Row> {
        None
    }
}

// A chain of states, each with one row over the state before it; the first has a leaf row.
#[derive(Clone, Copy)]
pub struct Chain {
    last: u16,
    ghost few: { last < 1024 },
}

impl Chain {
    pub(crate) fn new(last: u16) -> Chain
        requires { last < 1024 }
    {
        Chain { last }
    }
}

impl Automaton for Chain {
    ghost meaning = { λ s. chain s.last };

    ghost sound = { λ s. chain_sound s.last s.few };

    fn states(&self) -> usize {
        self.last as usize + 1
    }

    fn places(&self) -> usize {
        1
    }

    fn root(&self) -> usize {
        self.last as usize
    }

    fn row(&self, state: usize, place: usize) -> Option<Row> {
        if state < self.last as usize + 1 && place < 1 {
            Some(if state == 0 {
                Row::default()
            } else {
                over((state - 1) as u16)
            })
        } else {
            None
        }
    }
}

// A ring of states, each with one row over the state before it.
#[derive(Clone, Copy)]
pub struct Ring {
    last: u16,
    ghost few: { last < 1024 },
}

impl Ring {
    pub(crate) fn new(last: u16) -> Ring
        requires { last < 1024 }
    {
        Ring { last }
    }
}

impl Automaton for Ring {
    ghost meaning = { λ s. ring s.last };

    ghost sound = { λ s. ring_sound s.last s.few };

    fn states(&self) -> usize {
        self.last as usize + 1
    }

    fn places(&self) -> usize {
        1
    }

    fn root(&self) -> usize {
        self.last as usize
    }

    fn row(&self, state: usize, place: usize) -> Option<Row> {
        if state < self.last as usize + 1 && place < 1 {
            Some(over(if state == 0 {
                self.last
            } else {
                (state - 1) as u16
            }))
        } else {
            None
        }
    }
}
