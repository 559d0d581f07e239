use crate::grammar::Grammar;
use crate::levels::{count_levels, highest_level};
use crate::words::{put_bar, put_read, put_size};
use automata::row::Row;
use fields::fault::Stop;
use rules::bar::Nesting;
use settle::sizes::Size;
use std::test::Fail;

const SHEET: &[u8] =
    b"F\tLIM\t0\nF\tOCO\t2\nS\tE\nR\tE\tLIM\t1\nR\tE\tOCO\t2\tE\tE\nG\tE\nL\tOCO\t2\nT\tLIM\n";

#[test]
fn words_of_a_sheet(rt: HostRuntime) -> Result<(), Fail> {
    let heap = rt.alloc();
    let mut rows = vec![in heap; Row::default(); 2048]?;
    let Ok(grammar) = Grammar::read(heap, &mut rows, SHEET) else {
        return Err(Fail::new("the sheet was not read"));
    };
    assert_eq!(rt; grammar.sealed.states(), 1);
    let mut out = String::new(heap);
    put_read(&mut out, &grammar)?;
    put_bar(
        &mut out,
        Nesting {
            outer: 1,
            position: 0,
            inner: 0,
        },
    )?;
    put_size(&mut out, "merged", Size { states: 1, rows: 2 })?;
    let told =
        "read 2 forms, 1 states, 2 rows, 1 levels, 0 bars, 1 tickets\nbar: form 0 at position 0 of form 1\n  merged: 1 states reached, 2 rows\n";
    assert!(rt; out.as_str() == told);
    Ok(())
}

#[test]
fn a_register_of_no_root(rt: HostRuntime) -> Result<(), Fail> {
    let heap = rt.alloc();
    let mut rows = vec![in heap; Row::default(); 2048]?;
    match Grammar::read(heap, &mut rows, b"S\tE\n") {
        Err(Stop::Refused(fault)) => {
            assert_eq!(rt; fault.line, 0);
            assert!(rt; fault.refusal.layer() == "register");
            Ok(())
        }
        _ => Err(Fail::new("it was sealed")),
    }
}

#[test]
fn levels_above_none(rt: HostRuntime) {
    let levels = [0u16, 2, 0, 1];
    assert_eq!(rt; highest_level(&levels), 2);
    assert_eq!(rt; count_levels(&levels), 2);
    assert_eq!(rt; highest_level(&[]), 0);
}
