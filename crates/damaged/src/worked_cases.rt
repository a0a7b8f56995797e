use crate::check::{Accepted, Refused, check};
use crate::shown::Shown;
use arrayvec::ArrayVec;
use console::Tally;
use packets::{Malformed, read_front};
use seals::{CodeBook, counting_words};
use std::io;
use worked::worked_packets;

const SUBJECT: &str = "worked packets,";

/// The notice as station 0 sends it under the books that count.
const SENT: [u8; 17] = [
    0x02, 0x01, 0x00, 0x01, 0x00, 0x01, 0x00, 0x00, 0x00, 0x00, 0x00, 0x00, 0x00, 0x02, 0x00, 0xaa,
    0x04,
];

/// The notice as station 1 relays it under these books.
const RELAYED: [u8; 20] = [
    0x02, 0x02, 0x00, 0x01, 0x00, 0x01, 0x00, 0x00, 0x00, 0x00, 0x00, 0x00, 0x00, 0x02, 0x00, 0x01,
    0xaa, 0x04, 0x6b, 0xf7,
];

/// At how many places two lists of bytes that are as long as one another differ.
fn differing<const N: usize>(a: &[u8; N], b: &[u8; N]) -> usize {
    a.iter().zip(b).filter(|(x, y)| x != y).count()
}

/// How many bytes the packet at the front of some bytes takes, or why there is none.
fn front(bytes: &[u8]) -> Shown<usize, Malformed> {
    Shown(read_front::<CodeBook<&[u16]>>(bytes).map(|front| front.used))
}

/// The worked packets: their bytes, both read from one list of bytes, and the first with a wrong tag.
pub(crate) fn run<P: Print>(tally: &mut Tally<P>) -> io::Result<()> {
    let (sent, relayed) = worked_packets();
    tally.case(
        SUBJECT,
        "bytes that differ in the sent",
        0,
        differing(&SENT, &sent),
    )?;
    tally.case(
        SUBJECT,
        "bytes that differ in the relayed",
        0,
        differing(&RELAYED, &relayed),
    )?;
    end_to_end(tally, &sent, &relayed)?;
    last_byte(tally, sent)
}

/// Both packets, read from one list of bytes.
fn end_to_end<P: Print>(
    tally: &mut Tally<P>,
    sent: &[u8; 17],
    relayed: &[u8; 20],
) -> io::Result<()> {
    let mut both = ArrayVec::<u8, 37>::new();
    both.try_extend_from_slice(sent).unwrap();
    both.try_extend_from_slice(relayed).unwrap();
    let rest = &both[sent.len()..];
    let nothing = &rest[relayed.len()..];
    let cases = [
        ("end to end, bytes of the first", Ok(17), front(&both)),
        ("end to end, bytes of the second", Ok(20), front(rest)),
        (
            "end to end, after the second",
            Err(Malformed::TooShort),
            front(nothing),
        ),
    ];
    for (name, expected, got) in cases {
        tally.case(SUBJECT, name, Shown(expected), got)?;
    }
    Ok(())
}

/// The sent packet as it is, and with a wrong tag.
fn last_byte<P: Print>(tally: &mut Tally<P>, sent: [u8; 17]) -> io::Result<()> {
    let words = counting_words();
    let seal = CodeBook::new(&words);
    let mut wrong = sent;
    wrong[16] = 0x05;
    let accepted = Shown(check(&seal, &sent));
    tally.case(SUBJECT, "the sent", Shown(Ok(Accepted)), accepted)?;
    tally.case(
        SUBJECT,
        "the sent with last byte 05, bytes",
        Shown(Ok(17)),
        front(&wrong),
    )?;
    let refused = Shown(check(&seal, &wrong));
    tally.case(
        SUBJECT,
        "the sent with last byte 05",
        Shown(Err(Refused::Tag)),
        refused,
    )
}
