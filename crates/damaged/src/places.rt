use packets::write;
use paths::Path;
use seals::Seal;
use std::array;
use worked::NOTICE;

/// How many bytes a buffer has.
const ROOM: usize = 60;

/// What every byte of a buffer is before a packet is written to it.
const FILLED: u8 = 0xee;

/// What came of a write.
#[derive(Clone, Copy, PartialEq, Eq)]
enum Write {
    /// It was done, and nothing beside the packet changed.
    Done,
    /// There was no room, and nothing changed.
    Refused,
}

/// What came of writes at every place.
#[derive(Clone, Copy)]
pub struct Places {
    outcomes: [Option<Write>; ROOM + 1],
}

/// Whether every byte is as it was filled.
fn are_filled(bytes: &[u8]) -> bool {
    bytes.iter().all(|byte| *byte == FILLED)
}

/// What came of a write of the notice at a place of a buffer; none if a byte changed that should not.
fn outcome<S: Seal>(seal: &S, path: &Path, at: usize) -> Option<Write> {
    let mut buffer = [FILLED; ROOM];
    match write(seal, NOTICE, path, &mut buffer, at) {
        Some(used) => {
            let beside = are_filled(&buffer[..at]) && are_filled(&buffer[at + used..]);
            beside.then_some(Write::Done)
        }
        None => are_filled(&buffer).then_some(Write::Refused),
    }
}

impl Places {
    /// Writes the notice at the places 0 to the buffer's end.
    pub(crate) fn of<S: Seal>(seal: &S, path: &Path) -> Places {
        Places {
            outcomes: array::from_fn(|at| outcome(seal, path, at)),
        }
    }

    /// At how many places a write has this outcome.
    fn count(&self, wanted: Write) -> usize {
        self.outcomes
            .iter()
            .filter(|outcome| **outcome == Some(wanted))
            .count()
    }

    /// At how many places the packet was written, and nothing beside it changed.
    pub(crate) fn written(&self) -> usize {
        self.count(Write::Done)
    }

    /// At how many places there was no room, and nothing changed.
    pub(crate) fn refused(&self) -> usize {
        self.count(Write::Refused)
    }
}
