// The tickets, each read at the root of the book over a sealed register.
ghost use Rattle.std.specs.Prelude.{◌≡◌, ◌++◌, map, IfOk, vec_items, OnOk};
ghost use Rattle.tickets.specs.Check.{tree};
ghost use Rattle.tickets.specs.Checked.{arities_of, ticket_of};
ghost use Rattle.automata.specs.Worth.{worth as worth_from};
ghost use Rattle.ledger.specs.Ledger.{or_zero, book as book_over};
ghost use Rattle.register.specs.Held.{held_sealed};
ghost use Rattle.verdicts.specs.Verdicts.{yes_word, verdict_text, ticket_text, tickets_text, ticket_passes, tickets_pass, Puts};

use automata::fewest_points::FewestPoints;
use automata::measure::Measure;
use automata::reading_count::ReadingCount;
use automata::yes_no::YesNo;
use fields::fault::{Fault, Stop};
use register::sealed::Sealed;
use std::alloc::{AllocError, Global};
use text::put::{put_field, put_number};
use tickets::checked::CheckedTicket;

// The worth of a ticket from the root.
fn root_worth<M: Measure + Clone>(
    heap: Global,
    sealed: &Sealed<'_>,
    ticket: &CheckedTicket<'_, '_>,
) -> Result<M, AllocError>
    ensures { IfOk result (λ w. w ≡ worth_from M.Measure.ops (book_over (held_sealed sealed.now)) (or_zero (held_sealed sealed.now).root) (ticket_of ticket.now)) }
{
    let cells = ticket.size() * sealed.states();
    let mut scratch = vec![in heap; M::NONE; cells]?;
    let answer = sealed.worth(ticket, sealed.root(), &mut scratch);
    Ok(answer.unwrap())
}

fn word(yes: bool) -> &'static str
    ensures { result.now ≡ yes_word yes }
{
    if yes { "yes" } else { "no" }
}

// Puts the line of a ticket, from its worths.
fn put_verdict(
    out: &mut Vec<u8>,
    number: usize,
    yes: YesNo,
    count: ReadingCount,
    fewest: FewestPoints,
) -> Result<(), AllocError>
    ensures { OnOk result (out.new.items ≡ out.old.items ++ verdict_text number yes count fewest) }
{
    out.push(b'T')?;
    put_number(out, number)?;
    put_field(out, word(yes.yes()).as_bytes())?;
    put_number(out, count.count() as usize)?;
    put_number(out, fewest.points() as usize)?;
    out.push(b'\n')?;
    Ok(())
}

// Puts the line of a checked ticket.
fn put_checked(
    out: &mut Vec<u8>,
    sealed: &Sealed<'_>,
    number: usize,
    ticket: &CheckedTicket<'_, '_>,
) -> Result<(), AllocError>
    ensures { OnOk result (out.new.items ≡ out.old.items ++ ticket_text (held_sealed sealed.now) number (ticket_of ticket.now)) }
{
    let heap = *out.allocator();
    let yes: YesNo = root_worth(heap, sealed, ticket)?;
    let count: ReadingCount = root_worth(heap, sealed, ticket)?;
    let fewest: FewestPoints = root_worth(heap, sealed, ticket)?;
    put_verdict(out, number, yes, count, fewest)
}

// Puts the line of the ticket of these nodes, unless the register's forms refuse it.
pub fn put_ticket(
    out: &mut Vec<u8>,
    sealed: &Sealed<'_>,
    number: usize,
    nodes: &[u16],
) -> Result<(), Stop>
    ensures { Puts (ticket_passes (held_sealed sealed.now).arities nodes.now) (ticket_text (held_sealed sealed.now) number (tree (held_sealed sealed.now).arities nodes.now)) out.old.items result out.new.items }
{
    let forms = sealed.forms();
    let ticket = CheckedTicket::checked(forms, nodes).map_err(Fault::of_no_line)?;
    put_checked(out, sealed, number, &ticket)?;
    Ok(())
}

// Puts a line for each ticket, numbered from 1; the first that is refused ends it.
pub fn put_tickets(out: &mut Vec<u8>, sealed: &Sealed<'_>, tickets: &[Vec<u16>]) -> Result<(), Stop>
    ensures { Puts (tickets_pass (held_sealed sealed.now).arities (map vec_items tickets.now)) (tickets_text (held_sealed sealed.now) 1 (map vec_items tickets.now)) out.old.items result out.new.items }
{
    for (i, nodes) in tickets.iter().enumerate() {
        put_ticket(out, sealed, i + 1, nodes)?;
    }
    Ok(())
}
