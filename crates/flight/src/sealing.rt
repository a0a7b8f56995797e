use crate::show::yes_no;
use console::Hex;
use packets::Header;
use seals::Seal;
use std::io;

/// The sender seals the header; a receiver checks it as sent, as another station's, with one byte changed, and with each
/// bit changed in turn.
pub(crate) fn tell<S: Seal>(rt: &impl Print, seal: &S, header: &Header) -> io::Result<()> {
    let message = header.sealed_by_sender(0);
    let tag = seal.tag(0, &message);
    let width = S::WIDTH;
    let digits = 2 * width;
    println!(rt; "  station 0 seals {}", Hex(&message))?;
    println!(rt; "  with the tag {tag:0digits$x}, of {width} bytes")?;
    let good = yes_no(seal.verify(0, &message, tag));
    println!(rt; "  station 2 checks it: good {good}")?;
    let other = yes_no(seal.verify(1, &message, tag));
    println!(rt; "  as a tag of station 1: good {other}")?;
    let mut changed = message;
    changed[12] = 0xff;
    println!(rt; "  a byte is changed: {}", Hex(&changed))?;
    let found = seal.tag(0, &changed);
    let still = yes_no(seal.verify(0, &changed, tag));
    println!(rt; "  station 2 finds the tag {found:0digits$x}: good {still}")?;
    let detected = changes_detected(seal, &message, tag);
    println!(rt; "  of the 120 changes of one bit it detects {detected}")
}

/// How many changes of one bit of the message make the tag wrong.
// `relay` changes bits likewise: one function for both would take a closure and have a `requires`, as no public function here has.
fn changes_detected<S: Seal>(seal: &S, message: &[u8; 15], tag: u64) -> usize {
    let mut detected = 0usize;
    // Counted in loops: a chain over places and masks would need a closure in a closure, with a copy in it, and be no plainer.
    for (i, byte) in message.iter().enumerate() {
        for mask in [1, 2, 4, 8, 16, 32, 64, 128] {
            let mut changed = *message;
            changed[i] = byte ^ mask;
            if !seal.verify(0, &changed, tag) {
                detected = detected.saturating_add(1);
            }
        }
    }
    detected
}
