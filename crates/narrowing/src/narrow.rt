// Trimming, merging and settling a pile, and the product with a restriction.
ghost use Rattle.std.specs.Prelude.{◌≡◌, false, is_ok, IfOk};
ghost use Rattle.register.specs.Held.{held, lent};
ghost use Rattle.narrowing.specs.Narrows.{BarrenTold, Settles, Narrows};

use crate::narrowed::Narrowed;
use automata::automaton::Automaton;
use fields::fault::{Fault, Stop};
use layers::trim::Trim;
use merge::merge::Merge;
use register::open::Open;
use search::line::Line;
use search::search::search;
use settle::settle::settle;
use settle::sizes::size_of;
use std::alloc::{AllocError, Global};

// Whether the root accepts no ticket.
fn is_barren<A: Automaton>(heap: Global, automaton: &A) -> Result<bool, AllocError>
    ensures { IfOk result (λ b. BarrenTold (A.Automaton.meaning automaton.now) b) }
{
    let mut lines = vec![in heap; Line::default(); automaton.states()]?;
    let answer = search(automaton, automaton.root(), &mut lines);
    Ok(answer.unwrap() == 0)
}

// Settles the pile, with a refusal of no line.
fn settled<A: Automaton>(pile: &A, target: &mut Open<'_>) -> Result<(), Stop>
    ensures settles { Settles (A.Automaton.meaning pile.now) (held target.old) result (held target.new) }
    ensures same { is_ok result ≡ false → lent target.new ≡ lent target.old }
{
    settle(pile, target).map_err(Fault::of_no_line)?;
    Ok(())
}

// Trims and merges the pile, looks whether its root accepts anything, and settles it.
pub fn narrow<A: Automaton + Drop>(
    heap: Global,
    pile: A,
    target: &mut Open<'_>,
) -> Result<Narrowed, Stop>
    ensures answers { Narrows (A.Automaton.meaning pile) (held target.old) result (held target.new) }
    ensures same { is_ok result ≡ false → lent target.new ≡ lent target.old }
{
    let whole = size_of(&pile);
    let trim = Trim::new(heap, pile)?;
    let trimmed = size_of(&trim);
    let merge = Merge::new(heap, trim)?;
    let merged = size_of(&merge);
    let barren = is_barren(heap, &merge)?;
    settled(&merge, target)?;
    Ok(Narrowed {
        whole,
        trimmed,
        merged,
        barren,
    })
}
