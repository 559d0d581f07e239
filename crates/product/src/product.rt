// The product of two automata.
ghost use Rattle.std.specs.Prelude.{◌≡◌, ◌+◌, min, true, false, length, drop, is_ok, Some, IfOk, MatchResult, Ok, Err};
ghost use Rattle.automata.specs.Automaton.{production, shown};
ghost use Rattle.tickets.specs.Checked.{ticket_of};
ghost use Rattle.automata.specs.Table.{FillsScratch};
ghost use Rattle.product.specs.Product.{alike, joint, joined, row_below, product, product_checked, sized, pair_answer, ProductMultiplies};
ghost use Rattle.product.specs.Soundness.{sized_sound};

use crate::sizes::Sizes;
use automata::automaton::Automaton;
use automata::measure::Measure;
use automata::row::Row;
use automata::worth::worth;
use refusals::refusal::{PileRefusal, WorthRefusal};
use tickets::checked::CheckedTicket;

// Two automata at once: a state is a pair of states, and a row is two rows of one form and arity.
#[derive(Drop)]
pub struct Product<A, B> {
    first: A,
    second: B,
    sizes: Sizes,
}

// Two rows of one form and arity as one, its points cut at 65,535, if each pair of children is a state.
fn joint_row(sizes: Sizes, first: Row, second: Row) -> Option<Row>
    requires { alike (production first) (production second) ≡ true }
    ensures { shown result ≡ row_below sizes.states (Some (joint sizes.width (production first) (production second))) }
{
    let left = first.children();
    // by position, since a pair that is no state ends it, and the places past the children stay 0
    let mut children = [0; 4];
    for (i, (p, q)) in left.iter().zip(second.children()).enumerate() {
        let child = *p as usize * sizes.width + *q as usize;
        if child >= sizes.states {
            return None;
        }
        children[i] = child as u16;
    }
    Some(Row {
        form: first.form,
        points: first.points.saturating_add(second.points),
        arity: left.len() as u8,
        children,
    })
}

// Two rows as one, if both are there and have one form and arity.
fn joined_row(sizes: Sizes, first: Option<Row>, second: Option<Row>) -> Option<Row>
    ensures { shown result ≡ row_below sizes.states (joined sizes.width (shown first) (shown second)) }
{
    let first = first?;
    let second = second?;
    if first.form == second.form && first.children().len() == second.children().len() {
        joint_row(sizes, first, second)
    } else {
        None
    }
}

impl<A: Automaton, B: Automaton> Product<A, B> {
    // Whether the product is small enough, or why not.
    pub fn check(first: &A, second: &B) -> Result<(), PileRefusal>
        ensures { result ≡ product_checked (A.Automaton.meaning first.now) (B.Automaton.meaning second.now) }
    {
        if first.states() * second.states() > 1024 {
            return Err(PileRefusal::ManyStates);
        }
        if first.places() * second.places() > 65536 {
            return Err(PileRefusal::ManyPlaces);
        }
        Ok(())
    }

    // The product of two automata that pass the check.
    pub fn new(first: A, second: B) -> Product<A, B>
        requires { is_ok (product_checked (A.Automaton.meaning first) (B.Automaton.meaning second)) ≡ true }
        ensures meaning { sized result.sizes (A.Automaton.meaning result.first) (B.Automaton.meaning result.second) ≡ product (A.Automaton.meaning first) (B.Automaton.meaning second) }
        ensures sides { (result.first ≡ first) × (result.second ≡ second) }
    {
        let width = second.states();
        let depth = second.places();
        let sizes = Sizes {
            states: first.states() * width,
            places: first.places() * depth,
            root: first.root() * width + second.root(),
            width,
            depth,
        };
        Product {
            first,
            second,
            sizes,
        }
    }

    // The product of two automata, or why there is none.
    pub fn checked(first: A, second: B) -> Result<Product<A, B>, PileRefusal>
    where
        A: Drop,
        B: Drop,
        ensures answers { MatchResult result (λ _. product_checked (A.Automaton.meaning first) (B.Automaton.meaning second) ≡ Ok tt) (λ e. product_checked (A.Automaton.meaning first) (B.Automaton.meaning second) ≡ Err e) }
        ensures meaning { IfOk result (λ p. sized p.sizes (A.Automaton.meaning p.first) (B.Automaton.meaning p.second) ≡ product (A.Automaton.meaning first) (B.Automaton.meaning second)) }
    {
        Product::check(&first, &second)?;
        Ok(Product::new(first, second))
    }

    // The worth of a ticket from a pair of states. In a product that was made by `new` it is the product of the worths.
    // The scratch then has the worth of each subtree from each pair, and is unchanged beyond and on a refusal.
    pub fn pair_worth<M: Measure>(
        &self,
        ticket: &CheckedTicket<'_, '_>,
        first: usize,
        second: usize,
        scratch: &mut [M],
    ) -> Result<M, WorthRefusal>
        ensures answers { result ≡ pair_answer M.Measure.ops (sized self.now.sizes (A.Automaton.meaning self.now.first) (B.Automaton.meaning self.now.second)) (A.Automaton.meaning self.now.first) (B.Automaton.meaning self.now.second) (ticket_of ticket.now) first second (length scratch.old) }
        ensures fills { FillsScratch M.Measure.ops (sized self.now.sizes (A.Automaton.meaning self.now.first) (B.Automaton.meaning self.now.second)) (ticket_of ticket.now) result scratch.old scratch.new }
        ensures multiplies { ProductMultiplies M.Measure.ops }
    {
        let width = self.second.states();
        if first >= self.first.states() || second >= width {
            return Err(WorthRefusal::Start);
        }
        worth(self, ticket, first * width + second, scratch)
    }
}

impl<A: Automaton, B: Automaton> Automaton for Product<A, B> {
    ghost meaning = { λ s. sized s.sizes (A.Automaton.meaning s.first) (B.Automaton.meaning s.second) };

    ghost sound = { λ s. sized_sound s.sizes (A.Automaton.meaning s.first) (B.Automaton.meaning s.second) (A.Automaton.sound s.first) };

    fn states(&self) -> usize {
        self.sizes.states
    }

    fn places(&self) -> usize {
        self.sizes.places
    }

    fn root(&self) -> usize {
        self.sizes.root
    }

    // The call is kept, so that the layers above stay small enough to go without one.
    #[inline(never)]
    fn row(&self, state: usize, place: usize) -> Option<Row> {
        let sizes = self.sizes;
        if state >= sizes.states || place >= sizes.places {
            return None;
        }
        let first = self.first.row(state / sizes.width, place / sizes.depth);
        let second = self.second.row(state % sizes.width, place % sizes.depth);
        joined_row(sizes, first, second)
    }
}
