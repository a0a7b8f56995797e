use console::Tally;
use paths::{NotAPath, Path, Row};
use std::cmp::Ordering;
use std::io;

// Functions to a text, here and for yes and no elsewhere: types with `Display` for two or three words would be longer and no plainer.

/// Whether there is a path, in words.
fn found(is: bool) -> &'static str {
    if is { "a path" } else { "no path" }
}

/// Whether a path names a station, in words.
fn named(is: bool) -> &'static str {
    if is { "named" } else { "not named" }
}

/// How one path stands to another, in words.
fn order(order: Ordering) -> &'static str {
    match order {
        Ordering::Less => "before",
        Ordering::Equal => "same",
        Ordering::Greater => "after",
    }
}

/// Paths: which rows are paths, one more station, the parts of a path, and the order of paths.
pub(crate) fn run<P: Print>(tally: &mut Tally<P>) -> anyhow::Result<()> {
    rows(tally)?;
    extensions(tally)?;
    parts(tally)?;
    orders(tally)
}

/// The path of the first `len` numbers.
fn path(numbers: [u8; 4], len: usize) -> Result<Path, NotAPath> {
    Path::try_from(Row { numbers, len })
}

/// Which rows are paths.
fn rows<P: Print>(tally: &mut Tally<P>) -> io::Result<()> {
    let numbers = [0, 1, 2, 3];
    let cases = [
        ("(0, 1)", true, path(numbers, 2)),
        ("(0, 1, 2, 3)", true, path(numbers, 4)),
        ("(0, 1, 0)", false, path([0, 1, 0, 3], 3)),
        ("of length 0", false, path(numbers, 0)),
        ("of length 5", false, path(numbers, 5)),
    ];
    for (name, expected, got) in cases {
        tally.case("row", name, found(expected), found(got.is_ok()))?;
    }
    Ok(())
}

/// Whether there is a path with one more station than the first `len` of 0 to 3.
fn extended(len: usize, station: u8) -> Result<&'static str, NotAPath> {
    let extended = path([0, 1, 2, 3], len)?.with(station);
    Ok(found(extended.is_ok()))
}

/// Paths with one more station.
fn extensions<P: Print>(tally: &mut Tally<P>) -> anyhow::Result<()> {
    tally.case("path", "(0) with 1", found(true), extended(1, 1)?)?;
    tally.case("path", "(0) with 0", found(false), extended(1, 0)?)?;
    tally.case("path", "(0, 1, 2) with 3", found(true), extended(3, 3)?)?;
    tally.case("path", "(0, 1, 2, 3) with 4", found(false), extended(4, 4)?)?;
    Ok(())
}

/// What the path (4, 2, 6) says of itself.
fn parts<P: Print>(tally: &mut Tally<P>) -> anyhow::Result<()> {
    let subject = "path (4, 2, 6),";
    let path = path([4, 2, 0, 0], 2)?.with(6)?;
    tally.case(subject, "first", 4, path.first())?;
    tally.case(subject, "last", 6, path.last())?;
    tally.case(subject, "length", 3, path.len())?;
    tally.case(subject, "station 2", named(true), named(path.contains(2)))?;
    tally.case(subject, "station 0", named(false), named(path.contains(0)))?;
    Ok(())
}

/// Which of two paths comes first.
fn orders<P: Print>(tally: &mut Tally<P>) -> anyhow::Result<()> {
    let one = path([0, 0, 0, 0], 1)?;
    let low = path([0, 1, 0, 0], 2)?;
    let high = path([0, 2, 0, 0], 2)?;
    let cases = [
        ("(0, 1) to (0, 2)", Ordering::Less, low.cmp(&high)),
        ("(0, 2) to (0, 1)", Ordering::Greater, high.cmp(&low)),
        ("(0, 1) to (0, 1)", Ordering::Equal, low.cmp(&low)),
        ("(0) to (0, 1)", Ordering::Less, one.cmp(&low)),
        ("(0, 1) to (0)", Ordering::Greater, low.cmp(&one)),
    ];
    for (name, expected, got) in cases {
        tally.case("order of", name, order(expected), order(got))?;
    }
    Ok(())
}
