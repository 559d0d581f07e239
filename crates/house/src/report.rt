// What was read, and what the sheet's restrictions make of the house grammar, each by itself, in words for a person.
use automata::automaton::Automaton;
use layers::trim::Trim;
use merge::merge::Merge;
use product::product::Product;
use refusals::refusal::{PileRefusal, Refusal};
use register::sealed::Sealed;
use reports::grammar::Grammar;
use reports::levels::highest_level;
use reports::words::{put_bar, put_read, put_size};
use rules::bar::{Bar, Nesting};
use rules::ladder::Ladder;
use search::line::Line;
use search::search::search;
use settle::sizes::size_of;
use std::alloc::{AllocError, Global};

fn put_refusal(out: &mut String, refusal: Refusal) -> Result<(), AllocError> {
    let layer = refusal.layer();
    let number = refusal.number();
    write!(out, "  refused: {layer} {number}\n")
}

// A pile, its trim and its merge, and whether the root accepts anything.
fn put_pile<A: Automaton + Drop>(out: &mut String, pile: A) -> Result<(), AllocError> {
    let heap = *out.allocator();
    put_size(out, "product", size_of(&pile))?;
    let trimmed = Trim::new(heap, pile)?;
    put_size(out, "trimmed", size_of(&trimmed))?;
    let merged = Merge::new(heap, trimmed)?;
    put_size(out, "merged", size_of(&merged))?;
    let mut lines = vec![in heap; Line::default(); merged.states()]?;
    match search(&merged, merged.root(), &mut lines) {
        Ok(0) => out.push_str("  nothing is accepted from the root\n"),
        Ok(_) => out.push_str("  some tickets are accepted from the root\n"),
        Err(refusal) => put_refusal(out, refusal.into()),
    }
}

// The product of the book with a restriction, or why there is none.
fn put_restricted<R: Automaton + Drop>(
    out: &mut String,
    sealed: &Sealed<'_>,
    rule: Result<R, PileRefusal>,
) -> Result<(), AllocError> {
    match rule.and_then(|rule| Product::checked(sealed.book(), rule)) {
        Ok(product) => put_pile(out, product),
        Err(refusal) => put_refusal(out, refusal.into()),
    }
}

// The ladder of the levels, if one is above 0.
fn put_by_levels(out: &mut String, sealed: &Sealed<'_>, levels: &[u16]) -> Result<(), AllocError> {
    let highest = highest_level(levels);
    if highest == 0 {
        return Ok(());
    }
    write!(out, "ladder of {highest}\n")?;
    let ladder = Ladder::checked(sealed.forms(), highest, levels);
    put_restricted(out, sealed, ladder)
}

fn put_by_bar(out: &mut String, sealed: &Sealed<'_>, nesting: Nesting) -> Result<(), AllocError> {
    put_bar(out, nesting)?;
    put_restricted(out, sealed, Bar::checked(sealed.forms(), nesting))
}

// What was read, the ladder, then each bar, each over the house book.
pub(crate) fn report(heap: Global, grammar: &Grammar<'_>) -> Result<String, AllocError> {
    let Grammar { sealed, notes } = grammar;
    let mut out = String::new(heap);
    put_read(&mut out, grammar)?;
    put_by_levels(&mut out, sealed, &notes.levels)?;
    for bar in &notes.bars {
        put_by_bar(&mut out, sealed, *bar)?;
    }
    Ok(out)
}
