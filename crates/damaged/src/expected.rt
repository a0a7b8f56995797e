use crate::reads::Reads;
use paths::{NotAPath, Path, Row};

/// What is expected of the reads of every length of the bytes, 0 to 60.
pub const LENGTHS: Reads = Reads {
    accepted: 1,
    too_short: 15,
    path_length: 0,
    wrong_length: 45,
    path: 0,
    tag: 0,
};

/// What is expected of the reads with every path length, 0 to 255.
pub const PATH_LENGTHS: Reads = Reads {
    accepted: 1,
    too_short: 0,
    path_length: 252,
    wrong_length: 3,
    path: 0,
    tag: 0,
};

/// What is expected of one packet under one seal.
#[derive(Clone, Copy)]
pub struct Expected {
    pub subject: &'static str,
    /// How many stations its path names; they are 0, 1 and so on.
    pub stations: usize,
    /// How many changes of one byte make its path name a station twice.
    pub path: u32,
    /// How many changes of one byte make a tag wrong.
    pub tag: u32,
    /// At how many of the places 0 to 60 of a buffer of 60 bytes there is room for it.
    pub written: usize,
    /// At how many there is not.
    pub refused: usize,
}

/// What is expected under the code book.
pub const BY_CODE_BOOK: [Expected; 4] = [
    Expected {
        subject: "code book, path (0),",
        stations: 1,
        path: 0,
        tag: 4080,
        written: 44,
        refused: 17,
    },
    Expected {
        subject: "code book, path (0, 1),",
        stations: 2,
        path: 2,
        tag: 4843,
        written: 41,
        refused: 20,
    },
    Expected {
        subject: "code book, path (0, 1, 2),",
        stations: 3,
        path: 6,
        tag: 5604,
        written: 38,
        refused: 23,
    },
    Expected {
        subject: "code book, path (0, 1, 2, 3),",
        stations: 4,
        path: 12,
        tag: 6363,
        written: 35,
        refused: 26,
    },
];

/// What is expected under SipHash.
pub const BY_SIP_HASH: [Expected; 4] = [
    Expected {
        subject: "SipHash, path (0),",
        stations: 1,
        path: 0,
        tag: 5610,
        written: 38,
        refused: 23,
    },
    Expected {
        subject: "SipHash, path (0, 1),",
        stations: 2,
        path: 2,
        tag: 7903,
        written: 29,
        refused: 32,
    },
    Expected {
        subject: "SipHash, path (0, 1, 2),",
        stations: 3,
        path: 6,
        tag: 10194,
        written: 20,
        refused: 41,
    },
    Expected {
        subject: "SipHash, path (0, 1, 2, 3),",
        stations: 4,
        path: 12,
        tag: 12483,
        written: 11,
        refused: 50,
    },
];

impl Expected {
    /// The path (0, 1, ..) of that many stations.
    pub(crate) fn path(&self) -> Result<Path, NotAPath> {
        Path::try_from(Row {
            numbers: [0, 1, 2, 3],
            len: self.stations,
        })
    }

    /// What is expected of the reads with each byte changed: none is accepted.
    pub(crate) fn changes(&self) -> Reads {
        Reads {
            accepted: 0,
            too_short: 0,
            path_length: 252,
            wrong_length: 3,
            path: self.path,
            tag: self.tag,
        }
    }
}
