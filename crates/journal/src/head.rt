//! What stands before the records of a batch.
ghost use Rattle.std.specs.Prelude.{◌≡◌, ◌+◌, ◌++◌, ◌<◌, ◌≤◌, ◌^◌, length, IfSome, IfNone};
ghost use Rattle.journal.specs.Format.{head, numbers, number_bytes, number_of, sum_of, whole};
ghost use Rattle.journal.specs.Reads.{IsHead, IsNoHead};

use crate::sectors::whole;
use std::hash::{DefaultHasher, Hasher};

pub const HEAD_LEN: usize = 32;

/// As many bytes of a head as its numbers have. Behind them is their checksum.
const NUMBERS_LEN: usize = 24;

/// The head of a batch, as it was read.
#[derive(Clone, Copy)]
pub struct Head {
    /// The time of day at which the batch was added, in seconds since 1970.
    pub time: u64,
    /// How many bytes its records take.
    pub len: usize,
}

/// The checksum of a head's numbers: SipHash-1-3 with both keys 0.
fn sum_of(numbers: &[u8]) -> u64
    ensures { result ≡ sum_of numbers.now }
{
    let mut hasher = DefaultHasher::new();
    hasher.write(numbers);
    hasher.finish()
}

/// A head with this checksum, whatever that is.
fn head_with(number: usize, time: u64, len: usize, sum: u64) -> [u8; HEAD_LEN]
    ensures { result ≡ numbers number time len ++ number_bytes sum }
{
    let mut head = [0; HEAD_LEN];
    head[..8].copy_from_slice(&(number as u64).to_be_bytes());
    head[8..16].copy_from_slice(&time.to_be_bytes());
    head[16..NUMBERS_LEN].copy_from_slice(&(len as u64).to_be_bytes());
    head[NUMBERS_LEN..].copy_from_slice(&sum.to_be_bytes());
    head
}

/// A head as it is written.
pub fn head_of(number: usize, time: u64, len: usize) -> [u8; HEAD_LEN]
    ensures { result ≡ head number time len }
{
    let head = head_with(number, time, len, 0);
    head_with(number, time, len, sum_of(&head[..NUMBERS_LEN]))
}

/// The head in these bytes, if it is that of the batch with this number, none of its numbers has changed, and there is
/// room for the batch.
pub fn head_in(bytes: &[u8; HEAD_LEN], number: usize, room: usize) -> Option<Head>
    requires { room < 2 ^ 63 }
    ensures some { IfSome result (λ it. IsHead number bytes.now it) }
    ensures within { IfSome result (λ it. whole (32 + it.len) ≤ room) }
    ensures none { IfNone result (IsNoHead number room bytes.now) }
{
    let number_there = number_in(&bytes[..8]);
    if number_there != number as u64 {
        return None;
    }
    if number_in(&bytes[NUMBERS_LEN..]) != sum_of(&bytes[..NUMBERS_LEN]) {
        return None;
    }
    let time = number_in(&bytes[8..16]);
    let len = number_in(&bytes[16..24]) as usize;
    if len > room {
        return None;
    }
    if whole(HEAD_LEN + len) > room {
        return None;
    }
    Some(Head { time, len })
}

/// A number of eight bytes.
pub fn number_in(bytes: &[u8]) -> u64
    requires { length bytes.now ≡ 8 }
    ensures { result ≡ number_of bytes.now }
{
    let mut number = [0; 8];
    number.copy_from_slice(bytes);
    u64::from_be_bytes(number)
}
