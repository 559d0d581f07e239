// The worth of a ticket, by a table of the worths of its subtrees from each state.
ghost use Rattle.std.specs.Prelude.{◌≡◌, ℕ, ◌+◌, ◌*◌, ◌<◌, ◌≤◌, true, length, Some, slice_index, slice_index_or};
ghost use Rattle.tickets.specs.Ticket.{Tickets, node};
ghost use Rattle.automata.specs.Automaton.{production, shown, all_below};
ghost use Rattle.automata.specs.Reading.{ReadingsExact};
ghost use Rattle.tickets.specs.Checked.{arities_of, nodes_of, ticket_of};
ghost use Rattle.automata.specs.Worth.{WorthByRows};
ghost use Rattle.automata.specs.Table.{Within, Line, Lines, cells_worth, cells_row, cells_node, prefix_tree, FillsScratch, worth_answer};

use crate::automaton::Automaton;
use crate::measure::Measure;
use crate::row::{Row, width};
use arrayvec::ArrayVec;
use refusals::refusal::WorthRefusal;
use tickets::checked::CheckedTicket;

// The lines of a node's children: their places in a table with a cell for each state.
#[derive(Drop)]
struct ChildLines<'a, M> {
    scratch: &'a [M],
    states: usize,
    places: &'a [u16],
    ghost few: { states ≤ 1024 },
    ghost within: { Within states (length scratch.now) places.now },
}

impl<'a, M: Measure> ChildLines<'a, M> {
    // The product of the children's worths, each from its state.
    fn children_worth(&self, children: &[u16]) -> M
        requires below { all_below self.now.states children.now ≡ true }
        requires same { length children.now ≡ length self.now.places.now }
        ensures { result ≡ cells_worth M.Measure.ops self.now.scratch.now self.now.states self.now.places.now children.now }
    {
        let scratch = self.scratch;
        let mut product = M::UNIT;
        for (place, child) in self.places.iter().zip(children) {
            product = product.times(scratch[*place as usize * self.states + *child as usize]);
        }
        product
    }

    // What a row of the node's form and arity adds. The row goes by value, and the call is kept, so that the loop over the rows
    // only looks at the forms of those that don't fit.
    #[inline(never)]
    fn fitting_worth(&self, row: Row) -> M
        requires below { all_below self.now.states (production row).children ≡ true }
        requires same { length (production row).children ≡ length self.now.places.now }
        ensures { result ≡ M.Measure.ops.times (M.Measure.ops.value row.points) (cells_worth M.Measure.ops self.now.scratch.now self.now.states self.now.places.now (production row).children) }
    {
        M::value(row.points).times(self.children_worth(row.children()))
    }

    // What a row adds to the worth of a node of a form.
    fn row_worth(&self, form: u16, row: Row) -> M
        requires { all_below self.now.states (production row).children ≡ true }
        ensures { result ≡ cells_row M.Measure.ops self.now.scratch.now self.now.states self.now.places.now form (shown (Some row)) }
    {
        if row.form == form && width(row) == self.places.len() {
            self.fitting_worth(row)
        } else {
            M::NONE
        }
    }

    // The worth of a node from a state: the sum over the places of what their rows add.
    fn node_worth<A: Automaton>(&self, automaton: &A, form: u16, state: usize) -> M
        requires { self.now.states ≡ (A.Automaton.meaning automaton.now).states }
        ensures { result ≡ cells_node M.Measure.ops (A.Automaton.meaning automaton.now) self.now.scratch.now self.now.places.now form state }
    {
        let mut sum = M::NONE;
        // a loop: a chain would hand the rows on by place all the same, and `fold` would carry the sum in a closure
        for place in 0..automaton.places() {
            if let Some(row) = automaton.row(state, place) {
                sum = sum.plus(self.row_worth(form, row));
            }
        }
        sum
    }
}

// Writes the line of a node, from the lines of its children.
fn fill_line<A: Automaton, M: Measure>(
    automaton: &A,
    scratch: &mut [M],
    places: &[u16],
    form: u16,
    place: usize,
)
    requires few { place < 256 }
    requires room { (place + 1) * (A.Automaton.meaning automaton.now).states ≤ length scratch.old }
    requires earlier { (i : ℕ) → i < length places.now → slice_index places.now i < place }
    ensures fills { (ts : Tickets) → Lines M.Measure.ops (A.Automaton.meaning automaton.now) scratch.old places.now ts → Line M.Measure.ops (A.Automaton.meaning automaton.now) scratch.new place (node form ts) }
    ensures before { (i : ℕ) → i < place * (A.Automaton.meaning automaton.now).states → slice_index_or scratch.new i M.Measure.ops.none ≡ slice_index_or scratch.old i M.Measure.ops.none }
    ensures after { (i : ℕ) → (place + 1) * (A.Automaton.meaning automaton.now).states ≤ i → slice_index_or scratch.new i M.Measure.ops.none ≡ slice_index_or scratch.old i M.Measure.ops.none }
{
    let states = automaton.states();
    let base = place * states;
    let (earlier, rest) = scratch.split_at_mut(base);
    let lines = ChildLines {
        scratch: earlier,
        states,
        places,
    };
    // by index: after an `iter_mut` over a part of a split slice a proof knows the slice's length, and no cell of it
    for state in 0..states {
        rest[state] = lines.node_worth(automaton, form, state);
    }
}

// Writes the line of each node, children first. The roots are the places of the trees so far that no node has taken yet,
// of which a ticket has at most as many as nodes.
fn fill<A: Automaton, M: Measure>(automaton: &A, ticket: &CheckedTicket<'_, '_>, scratch: &mut [M])
    requires { length (nodes_of ticket.now) * (A.Automaton.meaning automaton.now).states ≤ length scratch.old }
    ensures fills { (p : ℕ) → p < length (nodes_of ticket.now) → Line M.Measure.ops (A.Automaton.meaning automaton.now) scratch.new p (prefix_tree (arities_of ticket.now.forms) (nodes_of ticket.now) p) }
    ensures keeps { (i : ℕ) → length (nodes_of ticket.now) * (A.Automaton.meaning automaton.now).states ≤ i → slice_index_or scratch.new i M.Measure.ops.none ≡ slice_index_or scratch.old i M.Measure.ops.none }
{
    let arities = ticket.forms.arities;
    let mut roots: ArrayVec<u16, 256> = ArrayVec::new();
    for (place, form) in ticket.nodes.iter().enumerate() {
        let first = roots.len() - arities[*form as usize] as usize;
        fill_line(automaton, scratch, &roots[first..], *form, place);
        roots.truncate(first);
        roots.push(place as u16);
    }
}

// The worth of a ticket from a state: the sum over its readings. The scratch then has, at node place × states + state,
// the worth of each node's subtree from each state, and is unchanged beyond; a refusal leaves all of it unchanged.
pub fn worth<A: Automaton, M: Measure>(
    automaton: &A,
    ticket: &CheckedTicket<'_, '_>,
    start: usize,
    scratch: &mut [M],
) -> Result<M, WorthRefusal>
    ensures answers { result ≡ worth_answer M.Measure.ops (A.Automaton.meaning automaton.now) (ticket_of ticket.now) start (length scratch.old) }
    ensures fills { FillsScratch M.Measure.ops (A.Automaton.meaning automaton.now) (ticket_of ticket.now) result scratch.old scratch.new }
    ensures by_rows { WorthByRows M.Measure.ops }
    ensures listed { ReadingsExact }
{
    let states = automaton.states();
    if start >= states {
        return Err(WorthRefusal::Start);
    }
    let nodes = ticket.nodes.len();
    if scratch.len() < nodes * states {
        return Err(WorthRefusal::Scratch);
    }
    fill(automaton, ticket, scratch);
    Ok(scratch[(nodes - 1) * states + start])
}
