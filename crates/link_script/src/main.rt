#![tactic(auto)]
// Runs a script of calls from standard input, and answers each line before it waits for the next.
mod answer;
mod command;
mod desk;
mod head;
mod lines;
mod script;
mod session;
mod setup;
mod words;

use script::Script;
use setup::run_script;
use std::io::BufReader;

fn read_and_run(rt: &HostRuntime) -> anyhow::Result<()> {
    let heap = rt.alloc();
    let input = BufReader::new(heap, rt.reader())?;
    run_script(rt, &mut Script::new(heap, input)?)
}

fn main(rt: HostRuntime) -> anyhow::Result<()> {
    read_and_run(&rt)
}
