//! The text of each kind of entry, spelled by hand: it is read, and with a change under its checksum it is refused.
ghost use Rattle.upload_service.specs.Machine.{AreLawful};

use crate::ended::{Done, holds, is_done, is_over};
use std::alloc::{AllocError, Global};
use std::hash::{DefaultHasher, Hasher};
use std::process::Abort;
use upload_journal::{
    Entry, EntryFault, ReadError, moments_text, numbers_text, read_damaged, read_entry,
};
use upload_names::{BlobDigest, RepoName, UploadRef};
use upload_service::{Limits, Service};

const NAME: &[u8] = b"\0\0\0\x05lib/a";

const OTHER: &[u8] = b"\0\0\0\x05lib/b";

const DIGEST: &[u8] =
    b"\0\0\0\x47sha256:ba7816bf8f01cfea414140de5dae2223b00361a396177a9cb410ff61f20015ad";

const AT: &[u8] = b"\0\0\0\x2400000001-0102-8304-8506-0708090a0b0c";

pub const SECRET: &[u8; 12] = b"\x01\x02\x03\x04\x05\x06\x07\x08\x09\x0a\x0b\x0c";

/// The moment of each request.
pub const MOMENT: u64 = 256;

const NOW: &[u8] = b"\0\0\0\0\0\0\x01\0";

const RANGE: &[u8] = b"\x01\0\0\0\0\0\0\0\0\0\0\0\0\0\0\0\x02";

const ABC: &[u8] = b"\0\0\0\0\x03abc";

const TAKEN: &[u8] = b"\x02\0\0\0\0\0\0\0\x03";

/// The files 7 and 8, of one byte and two.
const IN_FILES: &[u8] =
    b"\x01\0\0\0\x02\0\0\0\0\0\0\0\x07\0\0\0\0\0\0\0\x01\0\0\0\0\0\0\0\x08\0\0\0\0\0\0\0\x02";

/// A file of 70,000 times `x`, and the digest of that.
const IN_LARGE: &[u8] = b"\x01\0\0\0\x01\0\0\0\0\0\0\0\x09\0\0\0\0\0\x01\x11\x70";

const LARGE: &[u8] =
    b"\0\0\0\x47sha256:bca09f4a757d5571c7d9f3341d4301f3c391c090826acc1a3013c6bcb7c01722";

const ALL_TAKEN: &[u8] = b"\x02\0\0\0\0\0\x01\x11\x70";

const SOON: &[u8] = b"\0\0\0\0\0\0\x01\x3c";

const LATE: &[u8] = b"\0\0\0\0\0\0\x01\x3d";

/// Texts of entries without their checksums, in parts: an opening, a whole blob, a mount of it, a chunk in files and
/// one in its entry, a close, numbers and moments. Then a large chunk, and a large blob as its upload isn't idle yet,
/// and as it is.
static TEXTS: [&[&[u8]]; 11] = [
    &[b"\x01", NAME, SECRET, NOW, b"\x01", AT],
    &[b"\x02", OTHER, DIGEST, ABC, SECRET, NOW, b"\x03", DIGEST],
    &[b"\x03", NAME, DIGEST, OTHER, SECRET, NOW, b"\x03", DIGEST],
    &[b"\x04", NAME, AT, b"\0", IN_FILES, SECRET, NOW, TAKEN],
    &[b"\x04", NAME, AT, RANGE, ABC, SECRET, NOW, TAKEN],
    &[
        b"\x05", NAME, AT, RANGE, DIGEST, ABC, SECRET, NOW, b"\x03", DIGEST,
    ],
    &[b"\x06\0\0\x01\0"],
    &[b"\x07\0\0\0\0\0\0\x01\0"],
    &[b"\x04", NAME, AT, b"\0", IN_LARGE, SECRET, NOW, ALL_TAKEN],
    &[
        b"\x02", OTHER, LARGE, IN_LARGE, SECRET, SOON, b"\x03", LARGE,
    ],
    &[
        b"\x02", OTHER, LARGE, IN_LARGE, SECRET, LATE, b"\x03", LARGE,
    ],
];

/// The text of the entry at this place of the list, with its checksum.
pub fn text_of(alloc: Global, place: usize) -> Result<Vec<u8>, AllocError> {
    let mut text = Vec::new(alloc);
    for part in TEXTS.get(place).unwrap_or(&TEXTS[0]).iter() {
        text.extend_from_slice(part)?;
    }
    let mut hasher = DefaultHasher::new();
    hasher.write(text.as_slice());
    text.extend_from_slice(&hasher.finish().to_be_bytes())?;
    Ok(text)
}

/// The fault of a text, or None if it is an entry.
fn fault_of(read: Result<Entry, ReadError>) -> Result<Option<EntryFault>, AllocError> {
    match read {
        Ok(_) => Ok(None),
        Err(ReadError::Fault(fault)) => Ok(Some(fault)),
        Err(ReadError::NoMemory) => Err(AllocError),
    }
}

/// With another checksum a text is refused, and what it was is read all the same.
fn check_damaged(rt: &impl Abort, alloc: Global) -> Done {
    let mut text = text_of(alloc, 3)?;
    if let Some(last) = text.last_mut() {
        *last ^= 1;
    }
    let fault = fault_of(read_entry(alloc, &text))?;
    holds(rt, fault == Some(EntryFault::BadChecksum), &"a changed bit");
    let legible = fault_of(read_damaged(alloc, &text))?;
    holds(rt, legible.is_none(), &"what it was");
    Ok(())
}

/// Each text is read.
fn check_texts(rt: &impl Abort, alloc: Global) -> Done {
    for place in 0..TEXTS.len() {
        let read = read_entry(alloc, &text_of(alloc, place)?);
        holds(rt, fault_of(read)?.is_none(), &place);
    }
    check_damaged(rt, alloc)
}

#[test]
fn a_refused_growth_changes_no_entry(rt: HostRuntime) {
    if !is_over(&rt, check_texts(&rt, rt.alloc())) {
        is_done(&rt, check_texts(&rt, rt.alloc()));
    }
}

#[test]
fn checksums_are_as_they_ever_were(rt: HostRuntime) {
    let numbers = b"\x06\0\0\x01\0\x30\x51\x96\x25\x71\x8d\x8e\x86";
    let moments = b"\x07\0\0\0\0\0\0\x01\0\x1d\xf2\x0d\xcc\x77\xf9\xc5\xef";
    holds(&rt, numbers_text(256) == *numbers, &"numbers");
    holds(&rt, moments_text(256) == *moments, &"moments");
}

/// Limits, by which an upload is idle after a minute.
pub fn limits() -> Limits
    ensures { AreLawful result }
{
    Limits {
        max_blob: 100_000,
        max_body: 100_000,
        max_open: 4,
        max_idle: 60,
    }
}

pub fn name_of(alloc: Global, text: &[u8]) -> Result<RepoName, AllocError> {
    match RepoName::read(alloc, text) {
        Ok(name) => Ok(name),
        Err(_) => Err(AllocError),
    }
}

/// How far the upload is, and whether `lib/a` and `lib/b` have the blob.
pub type Seen = (Option<u64>, bool, bool);

pub fn seen_of(alloc: Global, service: &Service) -> Result<Seen, AllocError> {
    let digest = BlobDigest::of_sha256(b"abc");
    let has_a = service.holds(&name_of(alloc, b"lib/a")?, &digest);
    let has_b = service.holds(&name_of(alloc, b"lib/b")?, &digest);
    Ok((service.next_of(&UploadRef::make(1, *SECRET)), has_a, has_b))
}
