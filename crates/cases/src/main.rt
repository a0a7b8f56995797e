//! The worked cases of the rules and the published vectors, each with what was expected and what came.
//! Run it in the folder that has `siphash-2-4.txt`.
#![tactic(auto)]

mod choice_cases;
mod kind_cases;
mod outcome;
mod seal_cases;
mod vectors;

use console::Tally;
use std::rt::Files;

fn run(rt: &(impl Files + Alloc + Print)) -> anyhow::Result<()> {
    let mut tally = Tally::new(rt);
    vectors::run(rt, &mut tally)?;
    seal_cases::run(&mut tally)?;
    kind_cases::run(&mut tally)?;
    choice_cases::run(&mut tally)?;
    tally.close()?;
    Ok(())
}

fn main(rt: HostRuntime) -> anyhow::Result<()> {
    run(&rt)
}
