ghost use Rattle.std.specs.Prelude.{◌≡◌, ◌<◌, ◌==◌, ◌≢◌, ◌↔◌, true, false, [], ◌∷◌, length, take, slice_index, Some, IsTrue, IsErrOf};
ghost use Rattle.std.specs.Cmp.{partial_order_from_own_ties};
ghost use Rattle.std.specs.Cmp.Lexicographic.{pointwise};
ghost use Rattle.std.specs.Cmp.Rules.{comparing};
ghost use Rattle.std.specs.Ordering.{on, as_partial_cmp};
ghost use Rattle.std.specs.Result.{result_ok};
ghost use Rattle.std.proofs.Common.{rules};
ghost use Rattle.paths.specs.Stations.{names, distinct, first_of, last_of, extended, compared, IsPathLength, stations_text};

use crate::row::{LONGEST, Row};
use std::cmp::Ordering;
use std::fmt;

/// A path: the stations that a packet has passed. They are one to four, no station is named twice, and `first` is the
/// first of them.
// A length beside an array: fixed memory, and a vector of fixed room is not `Copy`, as a path is.
#[derive(Clone, Copy, Debug)]
pub struct Path {
    numbers: [u8; LONGEST],
    len: usize,
    first: u8,
    ghost table: { length numbers ≡ 4 },
    ghost few: { IsPathLength len },
    ghost apart: { distinct (take len numbers) ≡ true },
    ghost begins: { first_of (take len numbers) ≡ first },
}

/// Why stations are no path.
#[derive(Clone, Copy, Debug, PartialEq, Eq, thiserror::Error)]
pub enum NotAPath {
    /// Its length is not 1 to 4.
    #[error("a path names 1 to 4 stations")]
    Length,
    /// Its length is 1 to 4, and it names a station twice.
    #[error("a station is named twice")]
    StationTwice,
}

/// Whether a station is among those of a list.
// A chain, which the compiler puts in place: `contains` of a slice is a call, and takes several times as long for four stations.
fn among(stations: &[u8], station: u8) -> bool
    ensures { result ≡ names stations.now station }
{
    stations.iter().any(|named| *named == station)
}

/// Whether the station at a place is named before it.
fn is_named_before(stations: &[u8], at: usize) -> bool
    requires { at < length stations.now }
    ensures { result ≡ names (take at stations.now) (slice_index stations.now at) }
{
    among(&stations[..at], stations[at])
}

/// Whether no station is named twice.
fn are_distinct(stations: &[u8]) -> bool
    ensures { result ≡ distinct stations.now }
{
    (0..stations.len()).all(|at| !is_named_before(stations, at))
}

impl TryFrom<Row> for Path {
    ghost use Rattle.paths.specs.Paths.{row_stations, stations_in, path_in, IsPathIn};

    type Error = NotAPath;

    ghost try_from_gives = { IsPathIn };

    /// The path in a row. Its length is looked at first.
    fn try_from(row: Row) -> Result<Path, NotAPath>
        ensures path { stations_in (result_ok result) ≡ path_in row }
        ensures length { IsErrOf result NotAPath.Length ↔ ¬ (IsPathLength row.len) }
        ensures twice { IsErrOf result NotAPath.StationTwice ↔ (IsPathLength row.len × (distinct (row_stations row) ≡ false)) }
    {
        if !(1..=LONGEST).contains(&row.len) {
            return Err(NotAPath::Length);
        }
        if !are_distinct(row.stations()) {
            return Err(NotAPath::StationTwice);
        }
        let Row { numbers, len } = row;
        Ok(Path {
            numbers,
            len,
            first: numbers[0],
        })
    }
}

impl From<Path> for Row {
    ghost use Rattle.paths.specs.Paths.{stations, row_stations, row_of};

    ghost from_gives = { λ path row. (row ≡ row_of path) × (row_stations row ≡ stations path) × (row.len ≡ length (stations path)) };

    /// The path as a plain row.
    fn from(path: Path) -> Row
        ensures is { result ≡ row_of path }
        ensures stations { row_stations result ≡ stations path }
        ensures len { result.len ≡ length (stations path) }
    {
        let Path { numbers, len, .. } = path;
        Row { numbers, len }
    }
}

impl Path {
    ghost use Rattle.paths.specs.Paths.{stations, stations_in};

    /// The path of a sender alone.
    pub fn start(sender: u8) -> Path
        ensures { stations result ≡ sender ∷ [] }
    {
        Path {
            numbers: [sender, 0, 0, 0],
            len: 1,
            first: sender,
        }
    }

    /// The path's stations.
    pub fn stations(&self) -> &[u8]
        ensures is { result.now ≡ stations self.now }
        ensures few { IsPathLength (length result.now) }
        ensures distinct { distinct result.now ≡ true }
    {
        &self.numbers[..self.len]
    }

    /// How many stations the path names, 1 to 4.
    pub fn len(&self) -> usize
        ensures is { result ≡ length (stations self.now) }
        ensures few { IsPathLength result }
    {
        self.len
    }

    /// The sender.
    pub fn first(&self) -> u8
        ensures { result ≡ first_of (stations self.now) }
    {
        self.first
    }

    /// The station that passed the packet on last.
    pub fn last(&self) -> u8
        ensures { result ≡ last_of (stations self.now) }
    {
        self.numbers[self.len - 1]
    }

    /// Whether the path names a station.
    pub fn contains(&self, station: u8) -> bool
        ensures { result ≡ names (stations self.now) station }
    {
        among(self.stations(), station)
    }

    /// The path with one more station. Whether it has four already is looked at first.
    pub fn with(&self, station: u8) -> Result<Path, NotAPath>
        ensures path { stations_in (result_ok result) ≡ extended (stations self.now) station }
        ensures length { IsErrOf result NotAPath.Length ↔ (length (stations self.now) ≡ 4) }
        ensures twice { IsErrOf result NotAPath.StationTwice ↔ ((length (stations self.now) ≢ 4) × (names (stations self.now) station ≡ true)) }
    {
        if self.len == LONGEST {
            Err(NotAPath::Length)
        } else if self.contains(station) {
            Err(NotAPath::StationTwice)
        } else {
            let mut numbers = self.numbers;
            numbers[self.len] = station;
            Ok(Path {
                numbers,
                len: self.len + 1,
                first: self.first,
            })
        }
    }
}

/// The stations, parted by spaces.
// The programs show bytes likewise. One for both would take a trait for how an element is shown: no plainer.
impl fmt::Display for Path {
    ghost use Rattle.paths.specs.Paths.{stations};

    ghost output = { λ path. Some (stations_text (stations path)) };

    fn fmt<W: fmt::Write>(&self, f: &mut fmt::Formatter<W>) -> fmt::Result {
        if let [first, rest @ ..] = self.stations() {
            write!(f, "{first}")?;
            for station in rest {
                write!(f, " {station}")?;
            }
        }
        Ok(())
    }
}

// Equality and order are those of the stations. A derive would compare the numbers past the path's end too.

impl PartialEq for Path {
    ghost use Rattle.paths.specs.Paths.{stations};

    ghost eq = { on stations (pointwise ◌==◌) };

    ghost laws = { Prim.search (comparing, rules) };

    fn eq(&self, other: &Path) -> bool
        ensures { IsTrue result ↔ (stations self.now ≡ stations other.now) }
    {
        self.stations() == other.stations()
    }
}

impl Eq for Path {
    ghost laws = { Prim.search (comparing, rules) };
}

impl Ord for Path {
    ghost use Rattle.paths.specs.Paths.{stations};

    ghost cmp = { on stations compared };

    ghost total = { Prim.search (comparing, rules) };

    ghost matches_partial_cmp = { Prim.search (comparing, rules) };

    ghost matches_eq = { Prim.search (comparing, rules) };

    /// The order of paths, station by station; where one begins with the other, the shorter comes first.
    fn cmp(&self, other: &Path) -> Ordering
        ensures { result ≡ compared (stations self.now) (stations other.now) }
    {
        self.stations().cmp(other.stations())
    }
}

impl PartialOrd for Path {
    ghost use Rattle.paths.specs.Paths.{stations};

    ghost partial_cmp = { as_partial_cmp (on stations compared) };

    ghost laws = { partial_order_from_own_ties (Prim.search (comparing, rules)) (Prim.search (comparing, rules)) };

    fn partial_cmp(&self, other: &Path) -> Option<Ordering> {
        Some(self.cmp(other))
    }
}
