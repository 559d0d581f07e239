// Trim: only the rows that a whole ticket from the root can use.
ghost use Rattle.std.specs.Prelude.{◌≡◌, true, false, length, drop, is_ok, IfOk};
ghost use Rattle.tickets.specs.Checked.{ticket_of};
ghost use Rattle.automata.specs.Table.{FillsScratch, worth_answer};
ghost use Rattle.layers.specs.Marks.{mark};
ghost use Rattle.layers.specs.Trim.{Trimmed, pruned, TrimPreserves, TrimBarren, TrimOne};
ghost use Rattle.layers.specs.Soundness.{pruned_sound};

use crate::collected::Collected;
use crate::rows::{all_marked, is_marked};
use crate::table::table;
use automata::automaton::Automaton;
use automata::measure::Measure;
use automata::row::Row;
use automata::worth::worth;
use refusals::refusal::WorthRefusal;
use std::alloc::{AllocError, Global};
use tickets::checked::CheckedTicket;

// An automaton without the rows that no whole ticket uses.
#[derive(Drop)]
pub struct Trim<A> {
    below: A,
    productive: Vec<bool>,
    kept: Vec<bool>,
}

impl<A: Automaton + Drop> Trim<A> {
    // Trims an automaton. Each of its rows is asked for once.
    pub fn new(heap: Global, below: A) -> Result<Trim<A>, AllocError>
        ensures meaning { IfOk result (λ v. Trimmed (A.Automaton.meaning below) (pruned (mark v.kept.items) (mark v.productive.items) (A.Automaton.meaning v.below))) }
    {
        let rows = table(heap, &below)?;
        let collected = Collected {
            below: &below,
            rows: rows.as_slice(),
        };
        let usable = collected.productive();
        let reached = collected.kept(&usable);
        let productive = usable.to_vec(heap)?;
        let kept = reached.to_vec(heap)?;
        Ok(Trim {
            below,
            productive,
            kept,
        })
    }
}

impl<A: Automaton> Trim<A> {
    // The worth of a ticket from the root. In a trim that was made by `new` it is the worth from the root below.
    // The scratch then has the worth of each subtree from each state, and is unchanged beyond and on a refusal.
    pub fn root_worth<M: Measure>(
        &self,
        ticket: &CheckedTicket<'_, '_>,
        scratch: &mut [M],
    ) -> Result<M, WorthRefusal>
        ensures answers { result ≡ worth_answer M.Measure.ops (pruned (mark self.now.kept.items) (mark self.now.productive.items) (A.Automaton.meaning self.now.below)) (ticket_of ticket.now) (A.Automaton.meaning self.now.below).root (length scratch.old) }
        ensures fills { FillsScratch M.Measure.ops (pruned (mark self.now.kept.items) (mark self.now.productive.items) (A.Automaton.meaning self.now.below)) (ticket_of ticket.now) result scratch.old scratch.new }
        ensures preserves { TrimPreserves M.Measure.ops }
        ensures barren { TrimBarren }
        ensures one { TrimOne }
    {
        worth(self, ticket, self.below.root(), scratch)
    }
}

impl<A: Automaton> Automaton for Trim<A> {
    ghost meaning = { λ s. pruned (mark s.kept.items) (mark s.productive.items) (A.Automaton.meaning s.below) };

    ghost sound = { λ s. pruned_sound (mark s.kept.items) (mark s.productive.items) (A.Automaton.meaning s.below) (A.Automaton.sound s.below) };

    fn states(&self) -> usize {
        self.below.states()
    }

    fn places(&self) -> usize {
        self.below.places()
    }

    fn root(&self) -> usize {
        self.below.root()
    }

    fn row(&self, state: usize, place: usize) -> Option<Row> {
        if !is_marked(&self.kept, state) {
            return None;
        }
        self.below
            .row(state, place)
            .filter(|row| all_marked(&self.productive, *row))
    }
}
