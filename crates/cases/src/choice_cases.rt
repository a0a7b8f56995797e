use crate::outcome::Choice;
use console::Tally;
use std::io;
use values::{ChoiceRule, Majority, Sole};

/// Both rules on lists of reports.
pub(crate) fn run<P: Print>(tally: &mut Tally<P>) -> io::Result<()> {
    both(tally, "()", &[], None, None)?;
    both(tally, "(none, none)", &[None, None], None, None)?;
    both(tally, "(none, 7)", &[None, Some(7)], Some(7), Some(7))?;
    both(tally, "(2, 3)", &[Some(2), Some(3)], None, None)?;
    let two_to_one = [Some(2), Some(2), None, Some(3)];
    both(tally, "(2, 2, none, 3)", &two_to_one, None, Some(2))?;
    let even = [Some(3), Some(2), Some(2), Some(3)];
    both(tally, "(3, 2, 2, 3)", &even, None, None)?;
    let later = [Some(3), None, Some(2), Some(2)];
    both(tally, "(3, none, 2, 2)", &later, None, Some(2))
}

/// What the sole and the majority rule give for a list.
fn both<P: Print>(
    tally: &mut Tally<P>,
    list: &str,
    reports: &[Option<u64>],
    sole: Option<u64>,
    majority: Option<u64>,
) -> io::Result<()> {
    let got = Choice(Sole.choose(reports));
    tally.case("sole value of", list, Choice(sole), got)?;
    let got = Choice(Majority.choose(reports));
    tally.case("majority of", list, Choice(majority), got)
}
