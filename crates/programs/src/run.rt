// A program that answers a sheet.
ghost use Rattle.std.specs.Prelude.{◌≤◌, IfOk};
ghost use Rattle.std.specs.Process.{exit_status};

use crate::sentence::sentence;
use anyhow::anyhow;
use automata::row::Row;
use fields::fault::{Fault, Stop};
use reports::house::House;
use std::alloc::Global;
use std::io::{Read, Write};
use std::process::ExitCode;
use text::faults::fault_line;

fn tell_house(rt: &HostRuntime, house: &House) -> anyhow::Result<()> {
    rt.stdout().write_all(&house.listing)?;
    rt.stderr().write_all(house.report.as_bytes())?;
    Ok(())
}

fn tell_fault(rt: &HostRuntime, fault: Fault) -> anyhow::Result<()> {
    let line = fault_line(rt.alloc(), fault)?;
    let why = sentence(rt.alloc(), fault)?;
    rt.stdout().write_all(&line)?;
    rt.stderr().write_all(why.as_bytes())?;
    Ok(())
}

// Reads a sheet from standard input, and writes the answer to it: the listing, or the fault that stopped it. What it says of
// that to a person goes to standard error.
pub fn run<F: FnOnce(Global, &mut [Row], &[u8]) -> Result<House, Stop>>(
    rt: &HostRuntime,
    answer: F,
) -> anyhow::Result<ExitCode>
    requires { F.IsAlwaysCallable answer }
    ensures { IfOk result (λ code. exit_status code ≤ 1) }
{
    let heap = rt.alloc();
    let mut sheet = Vec::new(heap);
    rt.stdin().read_to_end(&mut sheet)?;
    let mut rows = vec![in heap; Row::default(); 2048]?;
    match answer(heap, &mut rows, &sheet) {
        Ok(house) => {
            tell_house(rt, &house)?;
            Ok(ExitCode::SUCCESS)
        }
        Err(Stop::Refused(fault)) => {
            tell_fault(rt, fault)?;
            Ok(ExitCode::FAILURE)
        }
        Err(Stop::Memory) => Err(anyhow!("there is not enough memory")),
    }
}
