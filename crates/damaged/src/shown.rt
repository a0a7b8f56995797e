use std::fmt;

/// A result as a case shows it: by its value, or by why there is none.
#[derive(Clone, Copy, PartialEq, Eq)]
pub struct Shown<T, E>(pub Result<T, E>);

impl<T: fmt::Display, E: fmt::Display> fmt::Display for Shown<T, E> {
    fn fmt<W: fmt::Write>(&self, f: &mut fmt::Formatter<W>) -> fmt::Result {
        match &self.0 {
            Ok(value) => value.fmt(f),
            Err(error) => error.fmt(f),
        }
    }
}
