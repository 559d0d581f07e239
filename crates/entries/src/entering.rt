// Entries in the register from a line, and checks by its forms: a refusal gets that line.
ghost use Rattle.std.specs.Prelude.{◌≡◌, ◌<◌, IfSome, MatchResult, IsErrAnd};
ghost use Rattle.refusals.specs.Refusal.{ticket_node};
ghost use Rattle.tickets.specs.Check.{ticket_checked};
ghost use Rattle.rules.specs.Bar.{bar_checked};
ghost use Rattle.ledger.specs.Ledger.{add_form, add_state, add_row, name_root, as_row};
ghost use Rattle.register.specs.Held.{held};
ghost use Rattle.fields.specs.Fault.{of_refusal};
ghost use Rattle.entries.specs.AtLine.{entering, at_bar, at_ticket, field_of_node};
ghost use Rattle.entries.specs.Taken.{Takes, Grows};

use fields::fault::Fault;
use refusals::refusal::{Refusal, TicketRefusal};
use register::open::Open;
use rules::bar::{Bar, Nesting};
use tickets::checked::CheckedTicket;

// What a call answered, without its number; a refusal gets the line.
fn at_line<T: Drop, E: Into<Refusal>>(answer: Result<T, E>, line: u32) -> Result<(), Fault>
    ensures { MatchResult answer (λ _. result ≡ Ok tt) (λ e. IsErrAnd result (λ f. E.converts e f.refusal × (f ≡ of_refusal f.refusal line))) }
{
    answer.map_err(|refusal| Fault::new(refusal.into(), line))?;
    Ok(())
}

pub fn enter_form(register: &mut Open<'_>, line: u32, arity: u16) -> Result<(), Fault>
    ensures takes { Takes (entering line (held register.old) (add_form arity)) (held register.old) result (held register.new) }
    ensures grows { Grows 1 0 (held register.old) result (held register.new) }
{
    at_line(register.form(arity), line)
}

pub fn enter_state(register: &mut Open<'_>, line: u32) -> Result<(), Fault>
    ensures takes { Takes (entering line (held register.old) add_state) (held register.old) result (held register.new) }
    ensures grows { Grows 0 1 (held register.old) result (held register.new) }
{
    at_line(register.state(), line)
}

pub fn enter_row(
    register: &mut Open<'_>,
    line: u32,
    state: usize,
    form: u16,
    points: u16,
    children: &[u16],
) -> Result<(), Fault>
    ensures takes { Takes (entering line (held register.old) (add_row state (as_row form points children.now))) (held register.old) result (held register.new) }
    ensures grows { Grows 0 0 (held register.old) result (held register.new) }
{
    at_line(register.row(state, form, points, children), line)
}

pub fn enter_root(register: &mut Open<'_>, line: u32, state: usize) -> Result<(), Fault>
    ensures takes { Takes (entering line (held register.old) (name_root state)) (held register.old) result (held register.new) }
    ensures grows { Grows 0 0 (held register.old) result (held register.new) }
{
    at_line(register.root(state), line)
}

// The bar's check, by the forms entered so far.
pub fn check_bar(register: &Open<'_>, line: u32, nesting: Nesting) -> Result<(), Fault>
    ensures { result ≡ at_bar line (bar_checked (held register.now).arities nesting.outer nesting.position nesting.inner) }
{
    let forms = register.forms();
    at_line(Bar::check(&forms, nesting), line)
}

// The field of a refused node: the kind is the first field, and node 0 the second.
fn node_field(refusal: TicketRefusal) -> u32
    requires { IfSome (ticket_node refusal) (λ p. p < 256) }
    ensures { result ≡ field_of_node (ticket_node refusal) }
{
    refusal.node().map_or(0, |place| place as u32 + 2)
}

// The ticket's check, by the forms entered so far.
pub fn check_ticket(register: &Open<'_>, line: u32, nodes: &[u16]) -> Result<(), Fault>
    ensures { result ≡ at_ticket line (ticket_checked (held register.now).arities nodes.now) }
{
    let forms = register.forms();
    CheckedTicket::check(&forms, nodes).map_err(|refusal| Fault {
        field: node_field(refusal),
        ..Fault::new(refusal.into(), line)
    })
}
