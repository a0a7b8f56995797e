ghost use Rattle.std.specs.Prelude.{Some};
ghost use Rattle.console.specs.Hexadecimal.{byte_text, hex_text};

use std::fmt;

/// Bytes in hexadecimal, parted by spaces.
// A `Path` shows its stations likewise. One for both would take a trait for how an element is shown: no plainer.
#[derive(Clone, Copy)]
pub struct Hex<'a>(pub &'a [u8]);

impl fmt::Display for Hex<'_> {
    ghost output = { λ hex. Some (hex_text hex.0.now) };

    fn fmt<W: fmt::Write>(&self, f: &mut fmt::Formatter<W>) -> fmt::Result {
        if let [first, rest @ ..] = self.0 {
            write!(f, "{}", Byte(*first))?;
            for byte in rest {
                write!(f, " {}", Byte(*byte))?;
            }
        }
        Ok(())
    }
}

/// A byte in hexadecimal, with two digits.
#[derive(Clone, Copy)]
struct Byte(u8);

impl fmt::Display for Byte {
    ghost output = { λ byte. Some (byte_text byte.0) };

    #[tactic(auto, using(crate::proofs::Digits::styled_byte))]
    fn fmt<W: fmt::Write>(&self, f: &mut fmt::Formatter<W>) -> fmt::Result {
        write!(f, "{:02x}", self.0)
    }
}
