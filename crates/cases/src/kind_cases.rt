use crate::outcome::{Bits, allowed};
use console::Tally;
use std::io;
use values::{Kind, Notice, Notices, Reading, Readings};

/// A reading that is in range in every part.
const GOOD: Reading = Reading {
    height: 1000,
    pressure: 9000,
    temperature: 0,
};

/// Both kinds at the edges of what they allow.
pub(crate) fn run<P: Print>(tally: &mut Tally<P>) -> io::Result<()> {
    let number = Bits(Readings.number().into());
    tally.case("kind", "of readings", Bits(1), number)?;
    readings(tally)?;
    bits(tally)?;
    let number = Bits(Notices.number().into());
    tally.case("kind", "of notices", Bits(2), number)?;
    notices(tally)
}

/// Whether the kind allows readings at the limits of each part.
fn readings<P: Print>(tally: &mut Tally<P>) -> io::Result<()> {
    let height = |height| Reading { height, ..GOOD };
    let pressure = |pressure| Reading { pressure, ..GOOD };
    let temperature = |temperature| Reading {
        temperature,
        ..GOOD
    };
    for (name, expected, reading) in [
        ("height -501 m", false, height(-501)),
        ("height -500 m", true, height(-500)),
        ("height 50000 m", true, height(50_000)),
        ("height 50001 m", false, height(50_001)),
        ("pressure 0.0 hPa", false, pressure(0)),
        ("pressure 0.1 hPa", true, pressure(1)),
        ("pressure 1100.0 hPa", true, pressure(11_000)),
        ("pressure 1100.1 hPa", false, pressure(11_001)),
        ("temperature -3276.8 °C", false, temperature(-32_768)),
        ("temperature -100.1 °C", false, temperature(-1_001)),
        ("temperature -100.0 °C", true, temperature(-1_000)),
        ("temperature 60.0 °C", true, temperature(600)),
        ("temperature 60.1 °C", false, temperature(601)),
    ] {
        let got = allowed(Readings.allows(reading.into()));
        tally.case("reading,", name, allowed(expected), got)?;
    }
    Ok(())
}

/// A reading's bits, and the reading of bits.
fn bits<P: Print>(tally: &mut Tally<P>) -> io::Result<()> {
    let lowest = Reading {
        height: -500,
        pressure: 1,
        temperature: -1_000,
    };
    let expected = Bits(0xffff_fe0c_0001_fc18);
    tally.case("reading,", "lowest, bits", expected, Bits(lowest.into()))?;
    let bits = 0x8000_0000_ffff_8000;
    let again = u64::from(Reading::from(bits));
    tally.case("reading,", "of bits, bits", Bits(bits), Bits(again))
}

/// Whether the kind allows a notice, and a notice's bits.
fn notices<P: Print>(tally: &mut Tally<P>) -> io::Result<()> {
    for (name, expected, value) in [
        ("0", false, 0),
        ("1", true, 1),
        ("4", true, 4),
        ("5", false, 5),
        ("2^64 - 1", false, u64::MAX),
    ] {
        let got = allowed(Notices.allows(value));
        tally.case("notice", name, allowed(expected), got)?;
    }
    tally.case("notice", "burst, bits", Bits(2), Bits(Notice::Burst.into()))
}
