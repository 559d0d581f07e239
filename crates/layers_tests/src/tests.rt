// What the layers answer on examples.
use crate::samples::{Bare, Chain, Ring};
use automata::automaton::Automaton;
use automata::measure::Measure;
use automata::reading_count::ReadingCount;
use automata::worth::worth;
use layers::trim::Trim;
use merge::merge::Merge;
use product::product::Product;
use refusals::refusal::PileRefusal;
use search::line::Line;
use search::search::search;
use std::test::Fail;
use tickets::checked::CheckedTicket;
use tickets::forms::Forms;

// 1,024 states and 65,536 places are a product, and no more.
#[test]
fn sizes(rt: HostRuntime) {
    let even = Bare::new(32, 256);
    assert!(rt; Product::check(&even, &even).is_ok());
    let wide = Product::check(&Bare::new(41, 1), &Bare::new(25, 1));
    assert!(rt; matches!(wide, Err(PileRefusal::ManyStates)));
    let long = Product::check(&Bare::new(1, 257), &Bare::new(1, 256));
    assert!(rt; matches!(long, Err(PileRefusal::ManyPlaces)));
}

// A root without rows is barren; the one ticket of a chain is as deep as the chain.
#[test]
fn searches(rt: HostRuntime) -> Result<(), Fail> {
    let mut lines = [Line::default(); 64];
    assert!(rt; search(&Bare::new(3, 2), 0, &mut lines)? == 0);
    assert!(rt; search(&Chain::new(40), 40, &mut lines)? == 41);
    assert!(rt; search(&Chain::new(40), 0, &mut lines)? == 1);
    Ok(())
}

// A pile of all layers over two chains accepts what both accept.
#[test]
fn piles(rt: HostRuntime) -> Result<(), Fail> {
    let chain = Chain::new(9);
    Product::check(&chain, &chain)?;
    let trimmed = Trim::new(rt.alloc(), Product::new(chain, chain))?;
    let pile = Merge::new(rt.alloc(), trimmed)?;
    let mut lines = [Line::default(); 100];
    assert!(rt; search(&pile, pile.root(), &mut lines)? == 10);
    let short = Chain::new(8);
    Product::check(&chain, &short)?;
    let barren = Trim::new(rt.alloc(), Product::new(chain, short))?;
    assert!(rt; search(&barren, barren.root(), &mut lines)? == 0);
    Ok(())
}

// The states of a chain differ deep below, and stay apart; those of a ring are one.
#[test]
fn merges(rt: HostRuntime) -> Result<(), Fail> {
    let apart = Merge::new(rt.alloc(), Chain::new(20))?;
    assert!(rt; apart.root() == 20);
    let one = Merge::new(rt.alloc(), Ring::new(20))?;
    assert!(rt; one.root() == 0);
    Ok(())
}

// A ticket of 256 nodes over 64 states × 64 places: each of its 1,048,576 row questions is asked once. To be timed by
// hand.
#[test]
fn large_worth(rt: HostRuntime) -> Result<(), Fail> {
    let arities = [0, 1];
    let forms = Forms::checked(&arities)?;
    let mut nodes = [1; 256];
    nodes[0] = 0;
    CheckedTicket::check(&forms, &nodes)?;
    let ticket = CheckedTicket::new(forms, &nodes);
    let mut scratch = vec![in rt.alloc(); ReadingCount::NONE; 16384]?;
    let count = worth(&Bare::new(64, 64), &ticket, 63, &mut scratch)?;
    assert_eq!(rt; count.count(), 0);
    Ok(())
}
