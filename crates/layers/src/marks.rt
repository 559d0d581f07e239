// Marks on states.
ghost use Rattle.std.specs.Prelude.{◌≡◌, ℕ, ◌<◌, true, false, ◌⊎◌, ◌≢◌, not, IfOk};
ghost use Rattle.automata.specs.Automaton.{production, all_below};
ghost use Rattle.automata.specs.Reading.{Member};
ghost use Rattle.layers.specs.Marks.{mark, each_marked};
ghost use Rattle.layers.specs.Growth.{Grows};

use crate::rows::{all_marked, is_marked};
use automata::row::Row;
use std::alloc::{AllocError, Global};
use std::marker::Model;

// A set of states, by a mark for each that there can be.
#[derive(Clone, Copy)]
pub struct Marks {
    marks: [bool; 1024],
}

impl Model for Marks {
    ghost use Rattle.std.specs.Prelude.{◌≡◌, Bool, List, length};

    ghost Value = { List Bool };

    ghost view = { λ s. s.marks };

    ghost invariant = { λ s. length s.marks ≡ 1024 };

    ghost inverse = { λ v. record { marks = v } };
}

impl Marks {
    // No state is marked.
    pub fn none() -> Marks
        ensures { (s : ℕ) → mark result s ≡ false }
    {
        Marks {
            marks: [false; 1024],
        }
    }

    // Whether a state is marked; past the end of the marks none is.
    pub fn has(&self, state: usize) -> bool
        ensures { result ≡ mark self.now state }
    {
        is_marked(&self.marks, state)
    }

    // Whether each child of a row is marked.
    pub fn has_children(&self, row: Row) -> bool
        ensures { result ≡ each_marked (mark self.now) (production row).children }
    {
        all_marked(&self.marks, row)
    }

    // The marks as a list of the heap.
    pub(crate) fn to_vec(&self, heap: Global) -> Result<Vec<bool>, AllocError>
        ensures { IfOk result (λ v. v.items ≡ self.now) }
    {
        self.marks.to_vec(heap)
    }

    // Marks a state, and tells whether that is new.
    pub fn add(&mut self, state: usize) -> bool
        requires { state < 1024 }
        ensures fresh { result ≡ not (mark self.old state) }
        ensures here { mark self.new state ≡ true }
        ensures others { (s : ℕ) → s ≢ state → mark self.new s ≡ mark self.old s }
        ensures grows { Grows (mark self.old) (mark self.new) result }
    {
        let added = !self.marks[state];
        self.marks[state] = true;
        added
    }

    // Marks each child of a row, and tells whether any of that is new.
    pub fn add_children(&mut self, row: Row) -> bool
        requires { all_below 1024 (production row).children ≡ true }
        ensures grows { Grows (mark self.old) (mark self.new) result }
        ensures all { each_marked (mark self.new) (production row).children ≡ true }
        ensures from { (s : ℕ) → mark self.new s ≡ true → (mark self.old s ≡ true) ⊎ Member s (production row).children }
    {
        let mut added = false;
        for child in row.children() {
            added |= self.add(*child as usize);
        }
        added
    }
}
