ghost use Rattle.std.specs.Prelude.{◌≡◌, Some};
ghost use Rattle.std.proofs.Common.{lit≤};
ghost use Rattle.values.specs.Readings.{reading_bits, reading_of, in_range, reading_allowed, tenths_text, reading_text};

use crate::kind::Kind;
use std::fmt;

/// A level reading.
#[derive(Clone, Copy, PartialEq, Eq, Debug)]
pub struct Reading {
    /// Height in metres.
    pub height: i32,
    /// Pressure in tenths of hPa.
    pub pressure: u16,
    /// Temperature in tenths of a degree Celsius.
    pub temperature: i16,
}

impl From<u64> for Reading {
    ghost from_gives = { λ bits reading. (reading ≡ reading_of bits) × (reading_bits reading ≡ bits) };

    /// The reading that a value of 64 bits stands for, allowed or not. `u64::from` gives the value back.
    fn from(bits: u64) -> Reading
        ensures value { result ≡ reading_of bits }
        ensures inverse { reading_bits result ≡ bits }
    {
        Reading {
            height: ((bits >> 32) as u32).cast_signed(),
            pressure: ((bits >> 16) & 0xffff) as u16,
            temperature: ((bits & 0xffff) as u16).cast_signed(),
        }
    }
}

impl From<Reading> for u64 {
    ghost from_gives = { λ reading bits. (bits ≡ reading_bits reading) × (reading_of bits ≡ reading) };

    /// The value of 64 bits that stands for this reading. `Reading::from` gives the reading back.
    fn from(reading: Reading) -> u64
        ensures value { result ≡ reading_bits reading }
        ensures inverse { reading_of result ≡ reading }
    {
        let height = u64::from(reading.height.cast_unsigned());
        let pressure = u64::from(reading.pressure);
        let temperature = u64::from(reading.temperature.cast_unsigned());
        (height << 32) + (pressure << 16) + temperature
    }
}

impl Reading {
    /// Whether height, pressure and temperature are all within their limits.
    pub fn is_in_range(&self) -> bool
        ensures { result ≡ in_range self.now }
    {
        (-500..=50_000).contains(&self.height)
            && (1..=11_000).contains(&self.pressure)
            && (-1_000..=600).contains(&self.temperature)
    }
}

impl fmt::Display for Reading {
    ghost output = { λ reading. Some (reading_text reading) };

    fn fmt<W: fmt::Write>(&self, f: &mut fmt::Formatter<W>) -> fmt::Result {
        let height = self.height;
        let pressure = Tenths(self.pressure.into());
        let temperature = Tenths(self.temperature.into());
        write!(
            f,
            "height {height} m, pressure {pressure} hPa, temperature {temperature} °C"
        )
    }
}

/// A number of tenths, as a decimal fraction.
#[derive(Clone, Copy)]
struct Tenths(i32);

impl fmt::Display for Tenths {
    ghost output = { λ tenths. Some (tenths_text tenths.0) };

    fn fmt<W: fmt::Write>(&self, f: &mut fmt::Formatter<W>) -> fmt::Result {
        let sign = if self.0 < 0 { "-" } else { "" };
        let tenths = self.0.unsigned_abs();
        write!(f, "{sign}{}.{}", tenths / 10, tenths % 10)
    }
}

/// The kind of level readings, number 1: it allows the readings that are in range.
#[derive(Clone, Copy)]
pub struct Readings;

impl Readings {
    /// The kind's number.
    pub const NUMBER: u8 = 1;
}

// Like `Kind` for `Notices` but for what it allows: a macro or a wrapper type for both would be no plainer.
impl Kind for Readings {
    ghost number = { λ _. 1 };

    ghost allowed = { λ _ v. reading_allowed v };

    ghost low = { λ _. lit≤ tt };

    ghost high = { λ _. lit≤ tt };

    fn number(&self) -> u8 {
        Readings::NUMBER
    }

    fn allows(&self, value: u64) -> bool {
        Reading::from(value).is_in_range()
    }
}
