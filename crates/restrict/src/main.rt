// The program: reads a rule sheet from standard input, and writes the listing of the house grammar or the fault that
// stopped it.

#![tactic(auto)]

use house::answer::answer;
use programs::run::run;
use std::process::ExitCode;

fn main(rt: HostRuntime) -> anyhow::Result<ExitCode> {
    run(&rt, answer)
}
