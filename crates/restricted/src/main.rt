// A program beside `restrict`: reads a rule sheet from standard input, and writes the listing of the grammar that its
// restrictions leave, or the fault that stopped it.

#![tactic(auto)]

use programs::run::run;
use restrictions::answer::answer;
use std::process::ExitCode;

fn main(rt: HostRuntime) -> anyhow::Result<ExitCode> {
    run(&rt, answer)
}
