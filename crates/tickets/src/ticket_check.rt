// The check of a ticket, and the checked ticket.
ghost use Rattle.std.specs.Prelude.{◌≡◌, true, length, is_ok, IfOk, MatchResult, Ok, Err};
ghost use Rattle.tickets.specs.Ticket.{postfix, Formed};
ghost use Rattle.tickets.specs.Check.{scan, ticket_checked, CheckExact};
ghost use Rattle.tickets.specs.Checked.{arities_of, nodes_of, ticket_of};

use crate::checked::CheckedTicket;
use crate::forms::Forms;
use refusals::refusal::TicketRefusal;

// The check of each node, and of how many trees there are at the end.
fn scanned(arities: &[u8], nodes: &[u16]) -> Result<(), TicketRefusal>
    ensures { result ≡ scan arities.now 0 0 nodes.now }
{
    let mut trees = 0usize;
    for (place, form) in nodes.iter().enumerate() {
        let arity = arities
            .get(*form as usize)
            .ok_or(TicketRefusal::Unknown(place))?;
        let left = trees
            .checked_sub(*arity as usize)
            .ok_or(TicketRefusal::Few(place))?;
        trees = left + 1;
    }
    if trees > 1 {
        return Err(TicketRefusal::Many);
    }
    Ok(())
}

impl<'f, 'n> CheckedTicket<'f, 'n> {
    // Whether the nodes, in postfix order, are one ticket of the forms, or why not.
    pub fn check(forms: &Forms<'_>, nodes: &[u16]) -> Result<(), TicketRefusal>
        ensures answers { result ≡ ticket_checked (arities_of forms.now) nodes.now }
        ensures exact { CheckExact (arities_of forms.now) nodes.now }
    {
        if nodes.is_empty() {
            return Err(TicketRefusal::Empty);
        }
        if nodes.len() > 256 {
            return Err(TicketRefusal::Long);
        }
        scanned(forms.arities, nodes)
    }

    // The ticket of nodes that pass the check.
    pub fn new(forms: Forms<'f>, nodes: &'n [u16]) -> CheckedTicket<'f, 'n>
        requires { is_ok (ticket_checked (arities_of forms) nodes.now) ≡ true }
        ensures forms { arities_of result.forms ≡ arities_of forms.entry }
        ensures nodes { nodes_of result ≡ nodes.now }
        ensures formed { Formed (ticket_of result) (arities_of result.forms) }
        ensures spelled { postfix (ticket_of result) ≡ nodes_of result }
    {
        CheckedTicket { forms, nodes }
    }

    // The ticket of the nodes, or why they are none.
    pub fn checked(
        forms: Forms<'f>,
        nodes: &'n [u16],
    ) -> Result<CheckedTicket<'f, 'n>, TicketRefusal>
        ensures answers { MatchResult result (λ _. ticket_checked (arities_of forms.entry) nodes.now ≡ Ok tt) (λ e. ticket_checked (arities_of forms.entry) nodes.now ≡ Err e) }
        ensures ticket { IfOk result (λ t. (arities_of t.forms ≡ arities_of forms.entry) × (nodes_of t ≡ nodes.now)) }
    {
        CheckedTicket::check(&forms, nodes)?;
        Ok(CheckedTicket::new(forms, nodes))
    }

    // How many nodes the ticket has.
    pub fn size(&self) -> usize
        ensures { result ≡ length (postfix (ticket_of self.now)) }
    {
        self.nodes.len()
    }
}
