//! The checksum behind the text of an entry.
ghost use Rattle.std.specs.Prelude.{◌≡◌};
ghost use Rattle.upload_journal.specs.Fields.{Gives};
ghost use Rattle.upload_journal.specs.Checksums as sums;

use crate::fault::{EntryFault, ReadError};
use std::hash::{DefaultHasher, Hasher};

/// How many bytes a checksum has.
pub const CHECKSUM_LEN: usize = 8;

/// The checksum of a text, by which damage is found: SipHash-1-3 with both keys 0.
#[tactic(auto, unfolding(crate::specs::Checksums::checksum))]
pub fn checksum(text: &[u8]) -> [u8; CHECKSUM_LEN]
    ensures { result ≡ sums.checksum text.now }
{
    let mut hasher = DefaultHasher::new();
    hasher.write(text);
    hasher.finish().to_be_bytes()
}

/// The text that has its checksum behind it. `Short` comes if there aren't as many bytes as a checksum has.
#[tactic(auto, unfolding(crate::specs::Checksums::checked))]
pub fn checked(bytes: &[u8]) -> Result<&[u8], ReadError>
    ensures { Gives (λ text. text.now) result (sums.checked bytes.now) }
{
    let Some(len) = bytes.len().checked_sub(CHECKSUM_LEN) else {
        return Err(ReadError::Fault(EntryFault::Short));
    };
    let (text, sum) = bytes.split_at(len);
    if sum != checksum(text).as_slice() {
        return Err(ReadError::Fault(EntryFault::BadChecksum));
    }
    Ok(text)
}

/// The text before a checksum, which isn't looked at.
#[tactic(auto, unfolding(crate::specs::Checksums::unchecked))]
pub fn unchecked(bytes: &[u8]) -> Result<&[u8], ReadError>
    ensures { Gives (λ text. text.now) result (sums.unchecked bytes.now) }
{
    match bytes.len().checked_sub(CHECKSUM_LEN) {
        Some(len) => Ok(&bytes[..len]),
        None => Err(ReadError::Fault(EntryFault::Short)),
    }
}
