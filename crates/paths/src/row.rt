ghost use Rattle.std.specs.Prelude.{◌≡◌, min, length};
ghost use Rattle.paths.specs.Paths.{row_stations};

/// The most stations that a path names.
pub const LONGEST: usize = 4;

/// Station numbers as they were read: the first `len` of `numbers`. Nothing else is known of them.
// A length beside an array: fixed memory, and a vector of fixed room is not `Copy`, as a row is.
#[derive(Clone, Copy, Debug)]
pub struct Row {
    pub numbers: [u8; LONGEST],
    pub len: usize,
}

impl Row {
    /// The stations in the row: its first `len` numbers, at most four.
    pub fn stations(&self) -> &[u8]
        ensures is { result.now ≡ row_stations self.now }
        ensures count { length result.now ≡ min self.now.len 4 }
    {
        &self.numbers[..self.len.min(LONGEST)]
    }
}
