// Merge: states that some grouping that respects the rows joins become one.
ghost use Rattle.std.specs.Prelude.{◌≡◌, ℕ, ◌≤◌, true, false, length, drop, is_ok, IfOk};
ghost use Rattle.tickets.specs.Checked.{ticket_of};
ghost use Rattle.automata.specs.Table.{FillsScratch, worth_answer};
ghost use Rattle.merge.specs.Merge.{merged, at, Coarsest, MergeJoins, MergeOne, MergePreserves};
ghost use Rattle.merge.specs.Soundness.{merged_sound};

use crate::refine::{coarsest, group_of};
use automata::automaton::Automaton;
use automata::measure::Measure;
use automata::row::Row;
use automata::worth::worth;
use refusals::refusal::WorthRefusal;
use std::alloc::{AllocError, Global};
use tickets::checked::CheckedTicket;

// An automaton whose states stand for one another where their rows allow it.
#[derive(Drop)]
pub struct Merge<A> {
    pub(crate) below: A,
    pub(crate) representatives: Vec<u16>,
    ghost low: { (p : ℕ) → at representatives.items p ≤ p },
}

impl<A: Automaton + Drop> Merge<A> {
    // Merges the states of an automaton. Each of its rows is asked for once.
    pub fn new(heap: Global, below: A) -> Result<Merge<A>, AllocError>
        ensures meaning { IfOk result (λ v. merged (A.Automaton.meaning v.below) (at v.representatives.items) ≡ merged (A.Automaton.meaning below) (at v.representatives.items)) }
        ensures coarsest { IfOk result (λ v. Coarsest (A.Automaton.meaning below) (at v.representatives.items)) }
    {
        let representatives = coarsest(heap, &below)?;
        Ok(Merge {
            below,
            representatives,
        })
    }
}

impl<A: Automaton> Merge<A> {
    // The worth of a ticket from a state. In a merge that was made by `new` it is the worth from that state below.
    // The scratch then has the worth of each subtree from each state, and is unchanged beyond and on a refusal.
    pub fn state_worth<M: Measure>(
        &self,
        ticket: &CheckedTicket<'_, '_>,
        state: usize,
        scratch: &mut [M],
    ) -> Result<M, WorthRefusal>
        ensures answers { result ≡ worth_answer M.Measure.ops (merged (A.Automaton.meaning self.now.below) (at self.now.representatives.items)) (ticket_of ticket.now) state (length scratch.old) }
        ensures fills { FillsScratch M.Measure.ops (merged (A.Automaton.meaning self.now.below) (at self.now.representatives.items)) (ticket_of ticket.now) result scratch.old scratch.new }
        ensures preserves { MergePreserves M.Measure.ops }
        ensures joins { MergeJoins }
        ensures one { MergeOne }
    {
        worth(self, ticket, state, scratch)
    }
}

impl<A: Automaton> Automaton for Merge<A> {
    ghost meaning = { λ s. merged (A.Automaton.meaning s.below) (at s.representatives.items) };

    ghost sound = { λ s. merged_sound (A.Automaton.meaning s.below) (A.Automaton.sound s.below) (at s.representatives.items) s.low };

    fn states(&self) -> usize {
        self.below.states()
    }

    fn places(&self) -> usize {
        self.below.places()
    }

    fn root(&self) -> usize {
        group_of(&self.representatives, self.below.root()) as usize
    }

    fn row(&self, state: usize, place: usize) -> Option<Row> {
        if state >= self.below.states() {
            return None;
        }
        let groups = &self.representatives;
        let row = self.below.row(group_of(groups, state) as usize, place)?;
        Some(row.renamed(groups))
    }
}
