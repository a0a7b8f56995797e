use crate::expected::{BY_CODE_BOOK, BY_SIP_HASH, Expected, LENGTHS, PATH_LENGTHS};
use crate::places::Places;
use crate::sample::Sample;
use console::Tally;
use seals::{CodeBook, Seal, SipKeys, counting_keys, counting_words};

/// Packets under both seals.
pub(crate) fn run<P: Print>(tally: &mut Tally<P>) -> anyhow::Result<()> {
    let words = counting_words();
    under(tally, &CodeBook::new(&words), &BY_CODE_BOOK)?;
    under(tally, &SipKeys::new(counting_keys()), &BY_SIP_HASH)
}

/// Packets under one seal.
fn under<P: Print, S: Seal>(
    tally: &mut Tally<P>,
    seal: &S,
    list: &[Expected],
) -> anyhow::Result<()> {
    for expected in list {
        one_packet(tally, seal, expected)?;
    }
    Ok(())
}

/// One packet with its bytes cut, changed, and written at every place.
fn one_packet<P: Print, S: Seal>(
    tally: &mut Tally<P>,
    seal: &S,
    expected: &Expected,
) -> anyhow::Result<()> {
    let subject = expected.subject;
    let path = expected.path()?;
    let mut sample = Sample::new(seal, &path);
    let places = Places::of(seal, &path);
    tally.case(subject, "every length", LENGTHS, sample.lengths())?;
    tally.case(
        subject,
        "every path length",
        PATH_LENGTHS,
        sample.path_lengths(),
    )?;
    tally.case(
        subject,
        "each byte changed",
        expected.changes(),
        sample.changes(),
    )?;
    tally.case(
        subject,
        "places with room, only the packet changed",
        expected.written,
        places.written(),
    )?;
    tally.case(
        subject,
        "places without room, nothing changed",
        expected.refused,
        places.refused(),
    )?;
    Ok(())
}
