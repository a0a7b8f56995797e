//! Paths, damaged packets and the worked packets, each with what was expected and what came.
#![tactic(auto)]

mod check;
mod expected;
mod packet_cases;
mod path_cases;
mod places;
mod reads;
mod sample;
mod shown;
mod worked_cases;

use console::Tally;

fn run(rt: &impl Print) -> anyhow::Result<()> {
    let mut tally = Tally::new(rt);
    path_cases::run(&mut tally)?;
    packet_cases::run(&mut tally)?;
    worked_cases::run(&mut tally)?;
    tally.close()?;
    Ok(())
}

fn main(rt: HostRuntime) -> anyhow::Result<()> {
    run(&rt)
}
