use std::fmt;
use values::Reading;

/// A value or none, as a reading.
// `cases` shows a value or none too: how the value is shown is all that there is to either.
#[derive(Clone, Copy)]
pub struct Report(pub Option<u64>);

impl fmt::Display for Report {
    fn fmt<W: fmt::Write>(&self, f: &mut fmt::Formatter<W>) -> fmt::Result {
        match self.0 {
            Some(value) => {
                let reading = Reading::from(value);
                write!(f, "{value:016x}, {reading}")
            }
            None => f.write_str("none"),
        }
    }
}

/// `yes` or `no`.
// A function to a text: a type with `Display` for two words would be longer and no plainer.
pub(crate) fn yes_no(answer: bool) -> &'static str {
    if answer { "yes" } else { "no" }
}
