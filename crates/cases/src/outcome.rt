//! What came of a case, as it is shown.
use std::fmt;

/// A number, in hexadecimal.
#[derive(Clone, Copy, PartialEq, Eq)]
pub struct Bits(pub u64);

impl fmt::Display for Bits {
    fn fmt<W: fmt::Write>(&self, f: &mut fmt::Formatter<W>) -> fmt::Result {
        write!(f, "{:x}", self.0)
    }
}

/// Whether a value is allowed, in words.
// A function to a text: a type with `Display` for two words would be longer and no plainer.
pub(crate) fn allowed(is: bool) -> &'static str {
    if is { "allowed" } else { "not allowed" }
}

/// A value or none.
// `flight` shows a value or none too: how the value is shown is all that there is to either.
#[derive(Clone, Copy, PartialEq, Eq)]
pub struct Choice(pub Option<u64>);

impl fmt::Display for Choice {
    fn fmt<W: fmt::Write>(&self, f: &mut fmt::Formatter<W>) -> fmt::Result {
        match self.0 {
            Some(value) => write!(f, "{value}"),
            None => f.write_str("none"),
        }
    }
}
