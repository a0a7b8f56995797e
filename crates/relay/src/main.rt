//! One level of a sounding on the bench, told step by step: a reading is sent as a packet, relayed from station to station,
//! and damaged on the way.
#![tactic(auto)]

mod changes;
mod receive;
mod relaying;

use packets::Header;
use seals::{CodeBook, SipKeys, counting_keys, counting_words};
use std::io;
use values::{Kind, Reading, Readings};

fn main(rt: HostRuntime) -> io::Result<()> {
    println!(rt; "Sounding 1, level 7, sender 0")?;
    // The reading of `flight`, which tells of the same level: a library for one constant would be no plainer.
    let reading = Reading {
        height: 9164,
        pressure: 3000,
        temperature: -446,
    };
    let header = Header {
        kind: Readings.number(),
        sounding: 1,
        level: 7,
        value: reading.into(),
    };
    println!(rt; "\nRelayed under SipHash-2-4")?;
    relaying::tell(&rt, &SipKeys::new(counting_keys()), header)?;
    println!(rt; "\nRelayed under the code book")?;
    relaying::tell(&rt, &CodeBook::new(&counting_words()), header)
}
