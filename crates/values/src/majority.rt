ghost use Rattle.std.specs.Prelude.{◌≡◌, ◌≤◌, length};
ghost use Rattle.values.specs.Reports.{values, votes, leading, majority, Most, Exactly};
ghost use Rattle.values.specs.Majorities.{majority-silent, only-majority};

use crate::choice::ChoiceRule;

/// Gives the value that makes up more than half of the reports that are values, else none.
#[derive(Clone, Copy)]
pub struct Majority;

/// How many reports are the value `value`.
fn votes(reports: &[Option<u64>], value: u64) -> usize
    ensures count { result ≡ votes value reports.now }
    ensures few { result ≤ length reports.now }
{
    reports
        .iter()
        .filter(|report| **report == Some(value))
        .count()
}

/// Whether `value` makes up more than half of the reports that are values, of which there are `total`.
fn leads(reports: &[Option<u64>], value: u64, total: usize) -> bool
    requires { total ≡ values reports.now }
    ensures { result ≡ leading value reports.now }
{
    total < 2 * votes(reports, value)
}

/// The first value that makes up more than half of the reports that are values, of which there are `total`.
fn leader(reports: &[Option<u64>], total: usize) -> Option<u64>
    requires { total ≡ values reports.now }
    ensures value { result ≡ majority reports.now }
    ensures exact { Exactly result (λ v. Most v reports.now) }
{
    reports
        .iter()
        .copied()
        .flatten()
        .find(|value| leads(reports, *value, total))
}

impl ChoiceRule for Majority {
    ghost meaning = { λ _ rs. majority rs };

    ghost silent = { λ c. majority-silent };

    ghost unanimous = { λ c. only-majority };

    fn choose(&self, reports: &[Option<u64>]) -> Option<u64>
        ensures value { result ≡ majority reports.now }
        ensures exact { Exactly result (λ v. Most v reports.now) }
    {
        let total = reports.iter().copied().flatten().count();
        leader(reports, total)
    }
}
