use crate::READING;
use crate::show::Report;
use std::io;
use values::{ChoiceRule, Majority, Reading, Sole};

/// Stations 1 to 4 report what they hold: two the sender's value, one nothing, one another value.
pub(crate) fn tell(rt: &impl Print, value: u64) -> io::Result<()> {
    let other = Reading {
        temperature: 446,
        ..READING
    };
    let reports = [Some(value), Some(value), None, Some(other.into())];
    for (station, report) in (1u8..).zip(reports) {
        println!(rt; "  station {station}: {}", Report(report))?;
    }
    decide(rt, "all four", &reports)?;
    decide(rt, "the first three", &reports[..3])?;
    decide(rt, "the last two", &reports[2..])?;
    decide(rt, "station 3 alone", &reports[2..3])
}

/// What both rules give for the reports.
fn decide(rt: &impl Print, who: &str, reports: &[Option<u64>]) -> io::Result<()> {
    println!(rt; "  {who}:")?;
    choose(rt, "sole value", &Sole, reports)?;
    choose(rt, "majority", &Majority, reports)
}

/// What a rule gives for the reports.
fn choose<C: ChoiceRule>(
    rt: &impl Print,
    name: &str,
    rule: &C,
    reports: &[Option<u64>],
) -> io::Result<()> {
    let chosen = Report(rule.choose(reports));
    println!(rt; "    {name}: {chosen}")
}
