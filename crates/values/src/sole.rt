ghost use Rattle.std.specs.Prelude.{◌≡◌};
ghost use Rattle.values.specs.Reports.{first_value, agree, sole, Only, Exactly};
ghost use Rattle.values.specs.Soles.{sole-silent, only-sole};

use crate::choice::ChoiceRule;

/// Gives the value if the list has exactly one distinct value, else none.
#[derive(Clone, Copy)]
pub struct Sole;

/// The first report that is a value.
fn first_value(reports: &[Option<u64>]) -> Option<u64>
    ensures { result ≡ first_value reports.now }
{
    reports.iter().copied().flatten().next()
}

/// Whether every report that is a value is `value`.
fn all_are(reports: &[Option<u64>], value: u64) -> bool
    ensures { result ≡ agree value reports.now }
{
    reports.iter().copied().flatten().all(|v| v == value)
}

impl ChoiceRule for Sole {
    ghost meaning = { λ _ rs. sole rs };

    ghost silent = { λ c. sole-silent };

    ghost unanimous = { λ c. only-sole };

    #[tactic(auto, using(crate::proofs::SoleLemmas::exactness))]
    fn choose(&self, reports: &[Option<u64>]) -> Option<u64>
        ensures value { result ≡ sole reports.now }
        ensures exact { Exactly result (λ v. Only v reports.now) }
    {
        let first = first_value(reports)?;
        all_are(reports, first).then_some(first)
    }
}
