// The book over a sealed register as an automaton, and worth read through it.
ghost use Rattle.std.specs.Prelude.{◌≡◌, length};
ghost use Rattle.tickets.specs.Checked.{ticket_of};
ghost use Rattle.automata.specs.Table.{FillsScratch, worth_answer};
ghost use Rattle.ledger.specs.Ledger.{book as book_over};
ghost use Rattle.register.specs.Held.{held_sealed, book_meaning};
ghost use Rattle.register.specs.Soundness.{book_sound};
ghost use Rattle.history.specs.Stands.{HoldsStanding, SumsStanding, AnswersStanding};

use crate::book::Book;
use crate::sealed::Sealed;
use automata::automaton::Automaton;
use automata::measure::Measure;
use automata::row::Row;
use automata::worth::worth;
use refusals::refusal::WorthRefusal;
use tickets::checked::CheckedTicket;

impl<'a> Automaton for Book<'a> {
    ghost meaning = { book_meaning };

    ghost sound = { book_sound };

    fn states(&self) -> usize {
        self.table.states
    }

    fn places(&self) -> usize {
        32
    }

    fn root(&self) -> usize {
        self.table.root.unwrap_or(0)
    }

    fn row(&self, state: usize, place: usize) -> Option<Row> {
        let used = self.table.used(state)?;
        if place >= used as usize {
            return None;
        }
        Some(self.rows[state * 32 + place])
    }
}

impl<'a> Sealed<'a> {
    // The book over the register.
    pub fn book(&self) -> Book<'_>
        ensures meaning { book_meaning result ≡ book_over (held_sealed self.now) }
    {
        Book {
            rows: self.rows,
            table: self.table,
        }
    }

    // The worth of a ticket from a state, read through the book: after every history of calls that leaves the register as
    // it is, the sum over the readings by exactly the rows accepted and not struck since.
    pub fn worth<M: Measure>(
        &self,
        ticket: &CheckedTicket<'_, '_>,
        start: usize,
        scratch: &mut [M],
    ) -> Result<M, WorthRefusal>
        ensures answers { result ≡ worth_answer M.Measure.ops (book_over (held_sealed self.now)) (ticket_of ticket.now) start (length scratch.old) }
        ensures fills { FillsScratch M.Measure.ops (book_over (held_sealed self.now)) (ticket_of ticket.now) result scratch.old scratch.new }
        ensures value { AnswersStanding M.Measure.ops (held_sealed self.now) (ticket_of ticket.now) start result }
        ensures sums { SumsStanding M.Measure.ops (held_sealed self.now) }
        ensures stands { HoldsStanding (held_sealed self.now) }
    {
        let book = self.book();
        worth(&book, ticket, start, scratch)
    }
}
