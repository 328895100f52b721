//! Sizes as they are written on the command line.
ghost use Rattle.std.specs.Prelude.{◌≡◌, ◌^◌, ℕ, MatchOption};
ghost use Rattle.std.specs.Str.Parse.{IsNumeral, digits_value};
ghost use Rattle.blobd_words.specs.Size.{IsNumber, WritesAtMost, WritesSize, digits_of, is_slow, unit_of};

use std::str;

const KIB: u64 = 1_024;

const MIB: u64 = 1_048_576;

const GIB: u64 = 1_073_741_824;

/// The largest chunk, in bytes.
const LARGEST_CHUNK: u64 = 2_147_483_648;

/// The largest memory, in bytes.
const LARGEST_MEMORY: u64 = 1_152_921_504_606_846_976;

/// The chunk of a push that names none, in bytes.
pub const USUAL_CHUNK: u64 = 16_777_216;

/// Below so many bytes a chunk costs more by its request than by its bytes.
const SMALL_CHUNK: u64 = 65_536;

/// Up to so many bytes a file goes up at once, whatever its chunks.
const SMALL_FILE: u64 = 4_194_304;

/// What stands before the unit that a word ends with, and how many bytes the unit has. Without a unit it is the whole
/// word, in bytes.
fn split_unit(word: &[u8]) -> (&[u8], u64)
    ensures { (result.0.now ≡ digits_of word.now) × (result.1 ≡ unit_of word.now) }
{
    match word.split_last() {
        Some((b'K', digits)) => (digits, KIB),
        Some((b'M', digits)) => (digits, MIB),
        Some((b'G', digits)) => (digits, GIB),
        _ => (word, 1),
    }
}

/// The number that one or more decimal digits write, if it is below 2^64.
fn read_number(digits: &[u8]) -> Option<u64>
    ensures { MatchOption result ((number : ℕ) → ¬ (IsNumber digits.now number))
        (IsNumber digits.now) }
{
    // A sign is no digit, though `parse` takes a leading plus.
    if matches!(digits, [b'+', ..]) {
        return None;
    }
    match str::from_utf8(digits) {
        Ok(text) => text.parse().ok(),
        Err(_) => None,
    }
}

/// The size that a word writes: decimal digits, and behind them `K`, `M` or `G` if it isn't in bytes; from 1 to `most`
/// bytes.
fn read_at_most(word: &str, most: u64) -> Option<u64>
    ensures { MatchOption result ((size : ℕ) → ¬ (WritesAtMost most word.now size))
        (WritesAtMost most word.now) }
{
    let (digits, unit) = split_unit(word.as_bytes());
    let number = read_number(digits)?;
    match number.checked_mul(unit) {
        Some(size) if size >= 1 && size <= most => Some(size),
        _ => None,
    }
}

/// The size of a chunk that a word writes: as `64K`, `16M` or `1G`, or in bytes; from 1 to 2,147,483,648 bytes.
pub fn read_size(word: &str) -> Option<u64>
    ensures { MatchOption result ((size : ℕ) → ¬ (WritesSize word.now size)) (WritesSize word.now) }
{
    read_at_most(word, LARGEST_CHUNK)
}

/// The size of a memory that a word writes, in the same way; from 1 byte to 2^60.
pub fn read_memory(word: &str) -> Option<u64>
    ensures { MatchOption result ((size : ℕ) → ¬ (WritesAtMost (2 ^ 60) word.now size))
        (WritesAtMost (2 ^ 60) word.now) }
{
    read_at_most(word, LARGEST_MEMORY)
}

/// Whether a file of so many bytes goes up slowly in such chunks.
pub fn is_slow(chunk: u64, size: u64) -> bool
    ensures { result ≡ is_slow chunk size }
{
    chunk < SMALL_CHUNK && size > SMALL_FILE
}

#[cfg(test)]
mod tests {
    use super::*;

    #[test]
    fn sizes(rt: HostRuntime) {
        for (word, size) in [
            ("1", 1),
            ("0064K", 65_536),
            ("1M", MIB),
            ("2G", LARGEST_CHUNK),
            ("2147483648", LARGEST_CHUNK),
            ("2097152K", LARGEST_CHUNK),
        ] {
            assert_eq!(rt; read_size(word), Some(size), "{word}");
        }
    }

    #[test]
    fn no_sizes(rt: HostRuntime) {
        for word in [
            "",
            "0",
            "K",
            "0K",
            "+1",
            "-1",
            "1k",
            "1KB",
            "1 M",
            "K1",
            "1KK",
            "3G",
            "2147483649",
            "2097153K",
            "18446744073709551616",
            "99999999999999999999G",
        ] {
            assert_eq!(rt; read_size(word), None, "{word}");
        }
    }
}
