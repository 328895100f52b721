//! Ranges of bytes.
ghost use Rattle.std.specs.Prelude.{◌≡◌, ◌↔◌, List, ℕ, Some, position};
ghost use Rattle.upload_names.specs.ByteRange.{Span, SpellsRange, range_of, span_length, numeral_value, is_minus};

use std::fmt;
use std::marker::Model;
use std::str::FromStr;

/// The largest number that a range keeps: a text's larger number is read as this one.
const CAP: u64 = 1_000_000_000_000_000_000;

/// A range of positions in a blob, both ends in it (OCI Distribution Specification 1.1, section "Pushing a blob in
/// chunks", `Content-Range`). Its numbers are at most 10^18, above every limit of the service.
#[derive(Clone, Copy)]
pub struct ByteRange {
    /// The position of the first byte, counted from 0; at most 10^18.
    pub first: u64,
    /// The position of the last byte, counted from 0; at most 10^18.
    pub last: u64,
}

impl Model for ByteRange {
    ghost use Rattle.upload_names.specs.ByteRange.{Span, range_cap};

    ghost Value = { Span };

    ghost view = { λ a. record { first = a.first; last = a.last } };

    ghost inverse = { λ s. record { first = s.first; last = s.last } };

    ghost use Rattle.upload_names.specs.declared.range.ByteRange.TheInside.{Inside};
    ghost use Rattle.std.specs.Prelude.{◌≤◌};

    ghost invariant = { λ a. (a.first ≤ range_cap) × (a.last ≤ range_cap) };
}

/// The range's text: both positions in decimal digits, with a hyphen between them.
impl fmt::Display for ByteRange {
    ghost use Rattle.std.specs.Prelude.{◌++◌, decimal, codes};

    ghost output = { λ span. Some (decimal span.first ++ codes "-" ++ decimal span.last) };

    fn fmt<W: fmt::Write>(&self, f: &mut fmt::Formatter<W>) -> fmt::Result {
        let first = self.first;
        let last = self.last;
        write!(f, "{first}-{last}")
    }
}

/// A text that is no range's.
#[derive(Clone, Copy, Debug, Drop, PartialEq, Eq)]
pub struct NotARange;

impl fmt::Display for NotARange {
    ghost use Rattle.std.specs.Prelude.{codes};

    ghost output = { λ _. Some (codes "not a range of bytes") };

    fn fmt<W: fmt::Write>(&self, f: &mut fmt::Formatter<W>) -> fmt::Result {
        f.write_str("not a range of bytes")
    }
}

impl std::error::Error for NotARange {}

/// Reads a range's text, as `ByteRange::read` does.
impl TryFrom<&[u8]> for ByteRange {
    type Error = NotARange;

    ghost use Rattle.std.specs.Result.{result_ok};

    ghost try_from_gives = { λ text result. result_ok result ≡ range_of text.now };

    fn try_from(text: &[u8]) -> Result<ByteRange, NotARange> {
        ByteRange::read(text).ok_or(NotARange)
    }
}

/// Reads a range's text, as `ByteRange::read` does.
impl FromStr for ByteRange {
    type Err = NotARange;

    ghost use Rattle.std.specs.Result.{result_ok};

    ghost from_str_gives = { λ text result. result_ok result ≡ range_of text };

    fn from_str(text: &str) -> Result<ByteRange, NotARange> {
        ByteRange::try_from(text.as_bytes())
    }
}

/// The number that digits spell, or the largest that a range keeps if they spell a larger one. `None`: the text
/// isn't one or more digits.
fn read_number(digits: &[u8]) -> Option<u64>
    ensures { result ≡ numeral_value digits.now }
{
    if digits.is_empty() {
        return None;
    }
    let mut number: u64 = 0;
    for digit in digits {
        if !digit.is_ascii_digit() {
            return None;
        }
        number = (number * 10 + u64::from(*digit - b'0')).min(CAP);
    }
    Some(number)
}

fn first_hyphen(text: &[u8]) -> Option<usize>
    ensures { result ≡ position is_minus text.now }
{
    text.iter().position(|byte| *byte == b'-')
}

impl ByteRange {
    /// Reads a range: digits, a hyphen, digits, of any number. A number above 10^18 is read as 10^18. The last
    /// position may stand before the first.
    pub fn read(text: &[u8]) -> Option<ByteRange>
        ensures { result ≡ range_of text.now }
    {
        let hyphen = first_hyphen(text)?;
        let first = read_number(&text[..hyphen])?;
        let last = read_number(&text[hyphen + 1..])?;
        Some(ByteRange { first, last })
    }

    /// How many positions the range has, or `None` if its last is before its first.
    pub fn length(&self) -> Option<u64>
        ensures { result ≡ span_length self.now }
    {
        if self.last < self.first {
            return None;
        }
        Some(self.last - self.first + 1)
    }
}

/// The law that the test of `specs/ByteRange.antt` decides the definition.
pub fn ranges_are_decided()
    ensures { (text : List ℕ) (span : Span) → (range_of text ≡ Some span) ↔ SpellsRange text span }
{}
