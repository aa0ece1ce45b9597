//! The comparison of a transcript with its replay.

ghost use Rattle.std.specs.Prelude.{◌≡◌, ◌↔◌, IsNone};

use std::fmt;
use std::fmt::{Display, Formatter};

/// The first line in which a transcript and its replay differ.
#[derive(Clone, Copy)]
pub struct Difference<'a> {
    /// The number of the line; the first line has the number 1.
    pub number: u64,
    /// The line of the transcript, or `None` if the transcript ends before it.
    pub expected: Option<&'a str>,
    /// The line of the replay, or `None` if the replay ends before it.
    pub replayed: Option<&'a str>,
}

impl Display for Difference<'_> {
    /// Writes three lines, without a line feed after the last one: the number of the line, the line
    /// of the transcript and the line of the replay. The end of either is `(end)`.
    fn fmt<W: fmt::Write>(&self, f: &mut Formatter<W>) -> fmt::Result {
        let number = self.number;
        let expected = self.expected.unwrap_or("(end)");
        let replayed = self.replayed.unwrap_or("(end)");
        write!(
            f,
            "line {number} differs\nexpected {expected}\nreplayed {replayed}"
        )
    }
}

// Returns the first line in which two texts differ. The lines are what stands between line feeds, so
// after a line feed at the end one more line follows, which is empty.
fn first_different_line<'a>(expected: &'a str, replayed: &'a str) -> Difference<'a> {
    let mut expected_lines = expected.split('\n');
    let mut replayed_lines = replayed.split('\n');
    for number in 1..u64::MAX {
        let expected = expected_lines.next();
        let replayed = replayed_lines.next();
        if expected != replayed || expected.is_none() {
            return Difference {
                number,
                expected,
                replayed,
            };
        }
    }
    Difference {
        number: u64::MAX,
        expected: None,
        replayed: None,
    }
}

/// Returns the first line in which the transcript `expected` and its replay `replayed` differ, or
/// `None` if the two are the same text. The lines are what stands between line feeds, so after a
/// line feed at the end one more line follows, which is empty.
pub fn first_difference<'a>(expected: &'a str, replayed: &'a str) -> Option<Difference<'a>>
    ensures { IsNone result ↔ (expected.now ≡ replayed.now) }
{
    if expected == replayed {
        None
    } else {
        Some(first_different_line(expected, replayed))
    }
}
