use automata::row::Row;
use fields::fault::{Fault, Stop};
use register::open::Open;
use sheet::reader::Reader;
use std::alloc::Global;
use std::process::Abort;
use std::test::Fail;

#[derive(Clone, Copy)]
struct Case {
    sheet: &'static [u8],
    layer: &'static str,
    number: u16,
    line: u32,
    field: u32,
}

// The fault that a sheet ends with, or none where it is read and can be sealed.
fn fault_of(rt: &impl Abort, heap: Global, sheet: &[u8]) -> Result<Option<Fault>, Fail> {
    let mut rows = vec![in heap; Row::default(); 2048]?;
    assert!(rt; Open::check(&rows).is_ok());
    let mut reader = Reader::new(heap, Open::blank(&mut rows));
    match reader.read(sheet) {
        Err(Stop::Refused(fault)) => Ok(Some(fault)),
        Err(Stop::Memory) => Err(Fail::new("no memory")),
        Ok(()) => Ok(
            reader
                .register
                .can_seal()
                .err()
                .map(|refusal| Fault::new(refusal.into(), 0)),
        ),
    }
}

fn ends_with(rt: &impl Abort, heap: Global, case: &Case) -> Result<(), Fail> {
    let Some(fault) = fault_of(rt, heap, case.sheet)? else {
        return Err(Fail::new("a damaged sheet was read"));
    };
    assert_eq!(rt; fault.refusal.number(), case.number);
    assert_eq!(rt; fault.line, case.line);
    assert_eq!(rt; fault.field, case.field);
    assert!(rt; fault.refusal.layer() == case.layer);
    Ok(())
}

#[test]
fn damaged_sheets(rt: HostRuntime) -> Result<(), Fail> {
    let cases = [
        // an empty sheet has no root
        Case {
            sheet: b"",
            layer: "register",
            number: 21,
            line: 0,
            field: 0,
        },
        // an empty line
        Case {
            sheet: b"\n",
            layer: "sheet",
            number: 53,
            line: 1,
            field: 1,
        },
        // an empty line in the middle
        Case {
            sheet: b"F\tLIM\t0\n\nS\tE\n",
            layer: "sheet",
            number: 53,
            line: 2,
            field: 1,
        },
        // no root
        Case {
            sheet: b"F\tLIM\t0\nS\tE\nR\tE\tLIM\t1\n",
            layer: "register",
            number: 21,
            line: 0,
            field: 0,
        },
        // no root, no last LF
        Case {
            sheet: b"F\tLIM\t0\nS\tE\nR\tE\tLIM\t1",
            layer: "register",
            number: 21,
            line: 0,
            field: 0,
        },
        // unknown kind
        Case {
            sheet: b"X\tLIM\t0\n",
            layer: "sheet",
            number: 53,
            line: 1,
            field: 1,
        },
        // small letter kind
        Case {
            sheet: b"f\tLIM\t0\n",
            layer: "sheet",
            number: 53,
            line: 1,
            field: 1,
        },
        // kind of two letters
        Case {
            sheet: b"FF\tLIM\t0\n",
            layer: "sheet",
            number: 53,
            line: 1,
            field: 1,
        },
        // empty kind
        Case {
            sheet: b"\tLIM\t0\n",
            layer: "sheet",
            number: 53,
            line: 1,
            field: 1,
        },
        // a number as kind
        Case {
            sheet: b"1\n",
            layer: "sheet",
            number: 53,
            line: 1,
            field: 1,
        },
        // a CR
        Case {
            sheet: b"F\tLIM\t0\r\n",
            layer: "sheet",
            number: 52,
            line: 1,
            field: 1,
        },
        // a space
        Case {
            sheet: b"F\tLI M\t0\n",
            layer: "sheet",
            number: 52,
            line: 1,
            field: 1,
        },
        // a NUL
        Case {
            sheet: b"F\tLIM\t0\0\n",
            layer: "sheet",
            number: 52,
            line: 1,
            field: 1,
        },
        // an underscore
        Case {
            sheet: b"F\tL_M\t0\n",
            layer: "sheet",
            number: 52,
            line: 1,
            field: 1,
        },
        // a bad byte comes before the kind
        Case {
            sheet: b"X\tL_M\n",
            layer: "sheet",
            number: 52,
            line: 1,
            field: 1,
        },
        // two bytes of a letter outside ASCII
        Case {
            sheet: b"F\tL\xc3\xa9\t0\n",
            layer: "sheet",
            number: 52,
            line: 1,
            field: 1,
        },
        // F without fields
        Case {
            sheet: b"F\n",
            layer: "sheet",
            number: 54,
            line: 1,
            field: 1,
        },
        // F with one field
        Case {
            sheet: b"F\tLIM\n",
            layer: "sheet",
            number: 54,
            line: 1,
            field: 1,
        },
        // F with three fields
        Case {
            sheet: b"F\tLIM\t0\t0\n",
            layer: "sheet",
            number: 54,
            line: 1,
            field: 1,
        },
        // F with an empty third field
        Case {
            sheet: b"F\tLIM\t0\t\n",
            layer: "sheet",
            number: 54,
            line: 1,
            field: 1,
        },
        // S without a name
        Case {
            sheet: b"S\n",
            layer: "sheet",
            number: 54,
            line: 1,
            field: 1,
        },
        // S with two fields
        Case {
            sheet: b"S\tE\tE\n",
            layer: "sheet",
            number: 54,
            line: 1,
            field: 1,
        },
        // R without points
        Case {
            sheet: b"F\tLIM\t0\nF\tOCO\t2\nF\tTHEN\t2\nS\tE\nS\tQ\nR\tE\tLIM\t1\nR\tE\tOCO\t2\tE\tE\nG\tE\nR\tE\tLIM\n",
            layer: "sheet",
            number: 54,
            line: 9,
            field: 1,
        },
        // R with five children
        Case {
            sheet: b"F\tLIM\t0\nF\tOCO\t2\nF\tTHEN\t2\nS\tE\nS\tQ\nR\tE\tLIM\t1\nR\tE\tOCO\t2\tE\tE\nG\tE\nR\tE\tOCO\t1\tE\tE\tE\tE\tE\n",
            layer: "sheet",
            number: 54,
            line: 9,
            field: 1,
        },
        // G without a state
        Case {
            sheet: b"G\n",
            layer: "sheet",
            number: 54,
            line: 1,
            field: 1,
        },
        // G with two fields
        Case {
            sheet: b"G\tE\tE\n",
            layer: "sheet",
            number: 54,
            line: 1,
            field: 1,
        },
        // L without a level
        Case {
            sheet: b"L\tLIM\n",
            layer: "sheet",
            number: 54,
            line: 1,
            field: 1,
        },
        // B with two fields
        Case {
            sheet: b"B\tOCO\t1\n",
            layer: "sheet",
            number: 54,
            line: 1,
            field: 1,
        },
        // B with four fields
        Case {
            sheet: b"B\tOCO\t1\tOCO\tE\n",
            layer: "sheet",
            number: 54,
            line: 1,
            field: 1,
        },
        // an empty name
        Case {
            sheet: b"F\t\t0\n",
            layer: "sheet",
            number: 55,
            line: 1,
            field: 2,
        },
        // a name of 17
        Case {
            sheet: b"F\tABCDEFGHIJKLMNOPQ\t0\n",
            layer: "sheet",
            number: 55,
            line: 1,
            field: 2,
        },
        // a state name of 17
        Case {
            sheet: b"S\tABCDEFGHIJKLMNOPQ\n",
            layer: "sheet",
            number: 55,
            line: 1,
            field: 2,
        },
        // an empty number
        Case {
            sheet: b"F\tLIM\t\n",
            layer: "sheet",
            number: 56,
            line: 1,
            field: 3,
        },
        // a leading zero
        Case {
            sheet: b"F\tLIM\t00\n",
            layer: "sheet",
            number: 56,
            line: 1,
            field: 3,
        },
        // a leading zero before 1
        Case {
            sheet: b"F\tLIM\t01\n",
            layer: "sheet",
            number: 56,
            line: 1,
            field: 3,
        },
        // a number of 65,536
        Case {
            sheet: b"F\tLIM\t65536\n",
            layer: "sheet",
            number: 56,
            line: 1,
            field: 3,
        },
        // an arity of 65,535
        Case {
            sheet: b"F\tLIM\t65535\n",
            layer: "register",
            number: 11,
            line: 1,
            field: 0,
        },
        // a hyphen in a number
        Case {
            sheet: b"F\tLIM\t-1\n",
            layer: "sheet",
            number: 56,
            line: 1,
            field: 3,
        },
        // a letter as a number
        Case {
            sheet: b"F\tLIM\tA\n",
            layer: "sheet",
            number: 56,
            line: 1,
            field: 3,
        },
        // a long number
        Case {
            sheet: b"F\tLIM\t99999999999999999999\n",
            layer: "sheet",
            number: 56,
            line: 1,
            field: 3,
        },
        // an arity of 5
        Case {
            sheet: b"F\tLIM\t5\n",
            layer: "register",
            number: 11,
            line: 1,
            field: 0,
        },
        // a form name given twice
        Case {
            sheet: b"F\tLIM\t0\nF\tLIM\t1\n",
            layer: "sheet",
            number: 57,
            line: 2,
            field: 2,
        },
        // the name comes before the number
        Case {
            sheet: b"F\tLIM\t0\nF\tLIM\t9x\n",
            layer: "sheet",
            number: 57,
            line: 2,
            field: 2,
        },
        // a state name given twice
        Case {
            sheet: b"S\tE\nS\tE\n",
            layer: "sheet",
            number: 57,
            line: 2,
            field: 2,
        },
        // R: state not given
        Case {
            sheet: b"F\tLIM\t0\nF\tOCO\t2\nF\tTHEN\t2\nS\tE\nS\tQ\nR\tE\tLIM\t1\nR\tE\tOCO\t2\tE\tE\nG\tE\nR\tX\tLIM\t1\n",
            layer: "sheet",
            number: 58,
            line: 9,
            field: 2,
        },
        // R: empty state
        Case {
            sheet: b"F\tLIM\t0\nF\tOCO\t2\nF\tTHEN\t2\nS\tE\nS\tQ\nR\tE\tLIM\t1\nR\tE\tOCO\t2\tE\tE\nG\tE\nR\t\tLIM\t1\n",
            layer: "sheet",
            number: 55,
            line: 9,
            field: 2,
        },
        // R: form not given
        Case {
            sheet: b"F\tLIM\t0\nF\tOCO\t2\nF\tTHEN\t2\nS\tE\nS\tQ\nR\tE\tLIM\t1\nR\tE\tOCO\t2\tE\tE\nG\tE\nR\tE\tX\t1\n",
            layer: "sheet",
            number: 58,
            line: 9,
            field: 3,
        },
        // R: empty form
        Case {
            sheet: b"F\tLIM\t0\nF\tOCO\t2\nF\tTHEN\t2\nS\tE\nS\tQ\nR\tE\tLIM\t1\nR\tE\tOCO\t2\tE\tE\nG\tE\nR\tE\t\t1\n",
            layer: "sheet",
            number: 55,
            line: 9,
            field: 3,
        },
        // R: a state's name as a form
        Case {
            sheet: b"F\tLIM\t0\nF\tOCO\t2\nF\tTHEN\t2\nS\tE\nS\tQ\nR\tE\tLIM\t1\nR\tE\tOCO\t2\tE\tE\nG\tE\nR\tE\tE\t1\n",
            layer: "sheet",
            number: 58,
            line: 9,
            field: 3,
        },
        // R: bad points
        Case {
            sheet: b"F\tLIM\t0\nF\tOCO\t2\nF\tTHEN\t2\nS\tE\nS\tQ\nR\tE\tLIM\t1\nR\tE\tOCO\t2\tE\tE\nG\tE\nR\tE\tLIM\tx\n",
            layer: "sheet",
            number: 56,
            line: 9,
            field: 4,
        },
        // R: points 1,001
        Case {
            sheet: b"F\tLIM\t0\nF\tOCO\t2\nF\tTHEN\t2\nS\tE\nS\tQ\nR\tE\tLIM\t1\nR\tE\tOCO\t2\tE\tE\nG\tE\nR\tE\tLIM\t1001\n",
            layer: "register",
            number: 16,
            line: 9,
            field: 0,
        },
        // R: a child too few
        Case {
            sheet: b"F\tLIM\t0\nF\tOCO\t2\nF\tTHEN\t2\nS\tE\nS\tQ\nR\tE\tLIM\t1\nR\tE\tOCO\t2\tE\tE\nG\tE\nR\tE\tOCO\t1\tE\n",
            layer: "register",
            number: 17,
            line: 9,
            field: 0,
        },
        // R: a child too many
        Case {
            sheet: b"F\tLIM\t0\nF\tOCO\t2\nF\tTHEN\t2\nS\tE\nS\tQ\nR\tE\tLIM\t1\nR\tE\tOCO\t2\tE\tE\nG\tE\nR\tE\tLIM\t1\tE\n",
            layer: "register",
            number: 17,
            line: 9,
            field: 0,
        },
        // R: second child not given
        Case {
            sheet: b"F\tLIM\t0\nF\tOCO\t2\nF\tTHEN\t2\nS\tE\nS\tQ\nR\tE\tLIM\t1\nR\tE\tOCO\t2\tE\tE\nG\tE\nR\tE\tOCO\t1\tE\tX\n",
            layer: "sheet",
            number: 58,
            line: 9,
            field: 6,
        },
        // R: first child not given
        Case {
            sheet: b"F\tLIM\t0\nF\tOCO\t2\nF\tTHEN\t2\nS\tE\nS\tQ\nR\tE\tLIM\t1\nR\tE\tOCO\t2\tE\tE\nG\tE\nR\tE\tOCO\t1\tX\tE\n",
            layer: "sheet",
            number: 58,
            line: 9,
            field: 5,
        },
        // R: empty child
        Case {
            sheet: b"F\tLIM\t0\nF\tOCO\t2\nF\tTHEN\t2\nS\tE\nS\tQ\nR\tE\tLIM\t1\nR\tE\tOCO\t2\tE\tE\nG\tE\nR\tE\tOCO\t1\tE\t\n",
            layer: "sheet",
            number: 55,
            line: 9,
            field: 6,
        },
        // G: state not given
        Case {
            sheet: b"F\tLIM\t0\nF\tOCO\t2\nF\tTHEN\t2\nS\tE\nS\tQ\nR\tE\tLIM\t1\nR\tE\tOCO\t2\tE\tE\nG\tE\nG\tX\n",
            layer: "sheet",
            number: 58,
            line: 9,
            field: 2,
        },
        // G: empty state
        Case {
            sheet: b"F\tLIM\t0\nF\tOCO\t2\nF\tTHEN\t2\nS\tE\nS\tQ\nR\tE\tLIM\t1\nR\tE\tOCO\t2\tE\tE\nG\tE\nG\t\n",
            layer: "sheet",
            number: 55,
            line: 9,
            field: 2,
        },
        // L: form not given
        Case {
            sheet: b"F\tLIM\t0\nF\tOCO\t2\nF\tTHEN\t2\nS\tE\nS\tQ\nR\tE\tLIM\t1\nR\tE\tOCO\t2\tE\tE\nG\tE\nL\tX\t1\n",
            layer: "sheet",
            number: 58,
            line: 9,
            field: 2,
        },
        // L: empty level
        Case {
            sheet: b"F\tLIM\t0\nF\tOCO\t2\nF\tTHEN\t2\nS\tE\nS\tQ\nR\tE\tLIM\t1\nR\tE\tOCO\t2\tE\tE\nG\tE\nL\tOCO\t\n",
            layer: "sheet",
            number: 56,
            line: 9,
            field: 3,
        },
        // L: leading zero
        Case {
            sheet: b"F\tLIM\t0\nF\tOCO\t2\nF\tTHEN\t2\nS\tE\nS\tQ\nR\tE\tLIM\t1\nR\tE\tOCO\t2\tE\tE\nG\tE\nL\tOCO\t010\n",
            layer: "sheet",
            number: 56,
            line: 9,
            field: 3,
        },
        // B: outer not given
        Case {
            sheet: b"F\tLIM\t0\nF\tOCO\t2\nF\tTHEN\t2\nS\tE\nS\tQ\nR\tE\tLIM\t1\nR\tE\tOCO\t2\tE\tE\nG\tE\nB\tX\t0\tOCO\n",
            layer: "sheet",
            number: 58,
            line: 9,
            field: 2,
        },
        // B: bad position
        Case {
            sheet: b"F\tLIM\t0\nF\tOCO\t2\nF\tTHEN\t2\nS\tE\nS\tQ\nR\tE\tLIM\t1\nR\tE\tOCO\t2\tE\tE\nG\tE\nB\tOCO\tx\tOCO\n",
            layer: "sheet",
            number: 56,
            line: 9,
            field: 3,
        },
        // B: inner not given
        Case {
            sheet: b"F\tLIM\t0\nF\tOCO\t2\nF\tTHEN\t2\nS\tE\nS\tQ\nR\tE\tLIM\t1\nR\tE\tOCO\t2\tE\tE\nG\tE\nB\tOCO\t0\tX\n",
            layer: "sheet",
            number: 58,
            line: 9,
            field: 4,
        },
        // B: position not below the arity
        Case {
            sheet: b"F\tLIM\t0\nF\tOCO\t2\nF\tTHEN\t2\nS\tE\nS\tQ\nR\tE\tLIM\t1\nR\tE\tOCO\t2\tE\tE\nG\tE\nB\tOCO\t2\tOCO\n",
            layer: "pile",
            number: 28,
            line: 9,
            field: 0,
        },
        // B: outer without children
        Case {
            sheet: b"F\tLIM\t0\nF\tOCO\t2\nF\tTHEN\t2\nS\tE\nS\tQ\nR\tE\tLIM\t1\nR\tE\tOCO\t2\tE\tE\nG\tE\nB\tLIM\t0\tLIM\n",
            layer: "pile",
            number: 28,
            line: 9,
            field: 0,
        },
        // T: no node
        Case {
            sheet: b"F\tLIM\t0\nF\tOCO\t2\nF\tTHEN\t2\nS\tE\nS\tQ\nR\tE\tLIM\t1\nR\tE\tOCO\t2\tE\tE\nG\tE\nT\n",
            layer: "ticket",
            number: 41,
            line: 9,
            field: 0,
        },
        // T: form not given
        Case {
            sheet: b"F\tLIM\t0\nF\tOCO\t2\nF\tTHEN\t2\nS\tE\nS\tQ\nR\tE\tLIM\t1\nR\tE\tOCO\t2\tE\tE\nG\tE\nT\tLIM\tX\n",
            layer: "sheet",
            number: 58,
            line: 9,
            field: 3,
        },
        // T: empty name
        Case {
            sheet: b"F\tLIM\t0\nF\tOCO\t2\nF\tTHEN\t2\nS\tE\nS\tQ\nR\tE\tLIM\t1\nR\tE\tOCO\t2\tE\tE\nG\tE\nT\t\n",
            layer: "sheet",
            number: 55,
            line: 9,
            field: 2,
        },
        // T: too few children at node 0
        Case {
            sheet: b"F\tLIM\t0\nF\tOCO\t2\nF\tTHEN\t2\nS\tE\nS\tQ\nR\tE\tLIM\t1\nR\tE\tOCO\t2\tE\tE\nG\tE\nT\tOCO\n",
            layer: "ticket",
            number: 44,
            line: 9,
            field: 2,
        },
        // T: too few children at node 1
        Case {
            sheet: b"F\tLIM\t0\nF\tOCO\t2\nF\tTHEN\t2\nS\tE\nS\tQ\nR\tE\tLIM\t1\nR\tE\tOCO\t2\tE\tE\nG\tE\nT\tLIM\tOCO\n",
            layer: "ticket",
            number: 44,
            line: 9,
            field: 3,
        },
        // T: two trees
        Case {
            sheet: b"F\tLIM\t0\nF\tOCO\t2\nF\tTHEN\t2\nS\tE\nS\tQ\nR\tE\tLIM\t1\nR\tE\tOCO\t2\tE\tE\nG\tE\nT\tLIM\tLIM\n",
            layer: "ticket",
            number: 45,
            line: 9,
            field: 0,
        },
        // T: two trees, one of them larger
        Case {
            sheet: b"F\tLIM\t0\nF\tOCO\t2\nF\tTHEN\t2\nS\tE\nS\tQ\nR\tE\tLIM\t1\nR\tE\tOCO\t2\tE\tE\nG\tE\nT\tLIM\tLIM\tLIM\tOCO\n",
            layer: "ticket",
            number: 45,
            line: 9,
            field: 0,
        },
        // a ninth B
        Case {
            sheet: b"F\tLIM\t0\nF\tOCO\t2\nF\tTHEN\t2\nS\tE\nS\tQ\nR\tE\tLIM\t1\nR\tE\tOCO\t2\tE\tE\nG\tE\nB\tOCO\t0\tOCO\nB\tOCO\t0\tOCO\nB\tOCO\t0\tOCO\nB\tOCO\t0\tOCO\nB\tOCO\t0\tOCO\nB\tOCO\t0\tOCO\nB\tOCO\t0\tOCO\nB\tOCO\t0\tOCO\nB\tOCO\t0\tOCO\n",
            layer: "sheet",
            number: 59,
            line: 17,
            field: 1,
        },
        // 64 T, then a name given twice
        Case {
            sheet: b"F\tLIM\t0\nF\tOCO\t2\nF\tTHEN\t2\nS\tE\nS\tQ\nR\tE\tLIM\t1\nR\tE\tOCO\t2\tE\tE\nG\tE\nT\tLIM\nT\tLIM\nT\tLIM\nT\tLIM\nT\tLIM\nT\tLIM\nT\tLIM\nT\tLIM\nT\tLIM\nT\tLIM\nT\tLIM\nT\tLIM\nT\tLIM\nT\tLIM\nT\tLIM\nT\tLIM\nT\tLIM\nT\tLIM\nT\tLIM\nT\tLIM\nT\tLIM\nT\tLIM\nT\tLIM\nT\tLIM\nT\tLIM\nT\tLIM\nT\tLIM\nT\tLIM\nT\tLIM\nT\tLIM\nT\tLIM\nT\tLIM\nT\tLIM\nT\tLIM\nT\tLIM\nT\tLIM\nT\tLIM\nT\tLIM\nT\tLIM\nT\tLIM\nT\tLIM\nT\tLIM\nT\tLIM\nT\tLIM\nT\tLIM\nT\tLIM\nT\tLIM\nT\tLIM\nT\tLIM\nT\tLIM\nT\tLIM\nT\tLIM\nT\tLIM\nT\tLIM\nT\tLIM\nT\tLIM\nT\tLIM\nT\tLIM\nT\tLIM\nT\tLIM\nT\tLIM\nT\tLIM\nT\tLIM\nT\tLIM\nS\tE\n",
            layer: "sheet",
            number: 57,
            line: 73,
            field: 2,
        },
    ];
    for case in cases.iter() {
        ends_with(&rt, rt.alloc(), case)?;
    }
    assert_eq!(rt; cases.len(), 75);
    Ok(())
}

const SMALL: &[u8] = b"F\tLIM\t0\nS\tE\nR\tE\tLIM\t1\nG\tE\n";

// The small sheet with a piece many times behind it.
fn grown(heap: Global, piece: &[u8], times: usize) -> Result<Vec<u8>, Fail> {
    let mut sheet = SMALL.to_vec(heap)?;
    for _ in 0..times {
        sheet.extend_from_slice(piece)?;
    }
    Ok(sheet)
}

// The number of the fault; 0 where there is none, as the cases below are written.
fn number_of(rt: &impl Abort, heap: Global, sheet: &[u8]) -> Result<u16, Fail> {
    match fault_of(rt, heap, sheet)? {
        Some(fault) => Ok(fault.refusal.number()),
        None => Ok(0),
    }
}

#[test]
fn limits(rt: HostRuntime) -> Result<(), Fail> {
    let heap = rt.alloc();
    assert_eq!(rt; number_of(&rt, heap, &grown(heap, b"T\tLIM\n", 64)?)?, 0);
    assert_eq!(rt; number_of(&rt, heap, &grown(heap, b"T\tLIM\n", 65)?)?, 59);
    assert_eq!(rt;
        number_of(&rt, heap, &grown(heap, b"R\tE\tLIM\t1000\n", 31)?)?,
        0
    );
    assert_eq!(rt;
        number_of(&rt, heap, &grown(heap, b"R\tE\tLIM\t1000\n", 32)?)?,
        19
    );
    let mut names = grown(heap, b"T", 1)?;
    for _ in 0..257 {
        names.extend_from_slice(b"\tLIM")?;
    }
    assert_eq!(rt; number_of(&rt, heap, &names)?, 42);
    assert_eq!(rt; number_of(&rt, heap, &grown(heap, b"-", 32742)?)?, 53);
    assert_eq!(rt; number_of(&rt, heap, &grown(heap, b"-", 32743)?)?, 51);
    Ok(())
}
