// A register is asked for a worth, and its book trimmed, in one function: the borrow checker covers that only where a trim
// owns memory.
use automata::automaton::Automaton;
use automata::measure::Measure;
use automata::reading_count::ReadingCount;
use automata::row::Row;
use layers::trim::Trim;
use register::open::Open;
use std::test::Fail;
use tickets::checked::CheckedTicket;

#[test]
fn worth_beside_a_trim(rt: HostRuntime) -> Result<(), Fail> {
    let mut rows = vec![in rt.alloc(); Row::default(); 2048]?;
    Open::check(&rows)?;
    let mut open = Open::blank(&mut rows);
    let form = open.form(0)?;
    let state = open.state()?;
    open.row(state, form, 1, &[])?;
    open.root(state)?;
    open.can_seal()?;
    let sealed = open.seal();
    let nodes = [form];
    let ticket = CheckedTicket::checked(sealed.forms(), &nodes)?;
    let mut scratch = [ReadingCount::NONE; 1];
    assert_eq!(rt; sealed.worth(&ticket, state, &mut scratch)?.count(), 1);
    let trim = Trim::new(rt.alloc(), sealed.book())?;
    assert!(rt; trim.row(state, 0).is_some());
    Ok(())
}
