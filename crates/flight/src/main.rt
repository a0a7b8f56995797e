//! One level of a sounding on the bench, told step by step: a reading is sealed by its sender, checked by a receiver,
//! damaged on the way, and decided from several stations' reports.
#![tactic(auto)]

mod decision;
mod sealing;
mod show;

use packets::Header;
use seals::{CodeBook, SipKeys, counting_keys, counting_words};
use std::io;
use values::{Kind, Reading, Readings};

/// The reading of the story.
const READING: Reading = Reading {
    height: 9164,
    pressure: 3000,
    temperature: -446,
};

/// The reading, and its header on the way.
fn take_reading(rt: &impl Print) -> io::Result<Header> {
    let value = u64::from(READING);
    let kind = Readings.number();
    let allowed = show::yes_no(Readings.allows(value));
    println!(rt; "The reading")?;
    println!(rt; "  {READING}")?;
    println!(rt; "  as 64 bits: {value:016x}")?;
    println!(rt; "  allowed in kind {kind}: {allowed}")?;
    Ok(Header {
        kind,
        sounding: 1,
        level: 7,
        value,
    })
}

fn main(rt: HostRuntime) -> io::Result<()> {
    println!(rt; "Sounding 1, level 7, sender 0\n")?;
    let header = take_reading(&rt)?;
    println!(rt; "\nSealed by SipHash-2-4")?;
    sealing::tell(&rt, &SipKeys::new(counting_keys()), &header)?;
    println!(rt; "\nSealed by code book")?;
    sealing::tell(&rt, &CodeBook::new(&counting_words()), &header)?;
    println!(rt; "\nDecided from the stations' reports")?;
    decision::tell(&rt, header.value)
}
