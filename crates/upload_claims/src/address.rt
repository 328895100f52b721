//! Where a record stands, and the checksum of bytes there.
ghost use Rattle.std.specs.Prelude.{◌≡◌};
ghost use Rattle.upload_claims.specs.Records as records;

use core::hash::keyed_hasher;
use std::hash::Hasher;

/// How many bytes a checksum has.
pub const SUM_LEN: usize = 8;

/// Where a record stands. What was written for one address isn't a record at another.
#[derive(Clone, Copy, Debug, PartialEq, Eq)]
pub struct Address {
    /// What names the journal: the first and the last eight bytes of a word that was drawn at random.
    pub journal: (u64, u64),
    /// The number of the batch in the journal.
    pub batch: u64,
    /// How many records of the batch stand before it.
    pub index: u64,
}

/// The checksum of bytes at an address, in two pieces, by which damage is found: SipHash-1-3, keyed by the journal's
/// word.
#[tactic(auto, unfolding(crate::specs::Records::sum))]
pub fn sum(at: &Address, front: &[u8], rest: &[u8]) -> [u8; SUM_LEN]
    ensures { result ≡ records.sum at.now front.now rest.now }
{
    let mut hasher = keyed_hasher(at.journal.0, at.journal.1);
    hasher.write(&at.batch.to_be_bytes());
    hasher.write(&at.index.to_be_bytes());
    hasher.write(front);
    hasher.write(rest);
    hasher.finish().to_be_bytes()
}
