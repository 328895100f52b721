//! Entries, read from their texts.
ghost use Rattle.std.specs.Prelude.{◌≡◌, List, ℕ, length, IfOk, Ok, Some};
ghost use Rattle.std.specs.Int.{w32, w64};
ghost use Rattle.upload_journal.specs.Fields.{Gives, byte_at, bytes_at, number_at, text_at, name_at, digest_at};
ghost use Rattle.upload_journal.specs.Fields.{reference_at, span_at, range_at, file_at, files_of, files_at, body_at};
ghost use Rattle.upload_journal.specs.Fields.{reference_in};
ghost use Rattle.upload_journal.specs.Fields.{told_at, here_at};
ghost use Rattle.upload_journal.specs.Entries.{opening_at, single_at, mount_at, chunk_at, close_at, ask_at};
ghost use Rattle.upload_journal.specs.Entries.{exchange_at, entry_at, plain_of, entry_of, entry_text, IsEntry};
ghost use Rattle.upload_journal.specs.Entries.{legible_of};
ghost use Rattle.upload_journal.specs.declared.entries.Entry.{Entry as EntryValue};

use crate::body::{BodyFile, BodyFiles, KeptBody};
use crate::checksum::{checked, unchecked};
use crate::entries::{Entry, KeptAnswer, KeptAsk, KeptExchange};
use crate::fault::{EntryFault, ReadError};
use std::alloc::Global;
use upload_bytes::Body;
use upload_names::{BlobDigest, ByteRange, NameFault, RepoName, UploadRef};

/// The most bytes of a body that is in its entry.
pub const MOST_HERE: usize = 65536;

/// The largest position of a range.
const LAST_POSITION: u64 = 1_000_000_000_000_000_000;

/// Takes this many bytes from the front.
#[tactic(auto, unfolding(crate::specs::Fields::bytes_at))]
fn take_bytes<'t>(len: usize, bytes: &mut &'t [u8]) -> Result<&'t [u8], ReadError>
    ensures taken { Gives (λ x. (x.now, bytes.new.now)) result (bytes_at len bytes.old.now) }
    ensures len { IfOk result (λ x. length x.now ≡ len) }
{
    if bytes.len() < len {
        return Err(ReadError::Fault(EntryFault::Short));
    }
    let (front, rest) = bytes.split_at(len);
    *bytes = rest;
    Ok(front)
}

fn take_byte(bytes: &mut &[u8]) -> Result<u8, ReadError>
    ensures { Gives (λ x. (x, bytes.new.now)) result (byte_at bytes.old.now) }
{
    match *bytes {
        [] => Err(ReadError::Fault(EntryFault::Short)),
        [byte, rest @ ..] => {
            *bytes = rest;
            Ok(*byte)
        }
    }
}

#[tactic(auto, unfolding(crate::specs::Fields::number_at))]
fn take_u32(bytes: &mut &[u8]) -> Result<u32, ReadError>
    ensures { Gives (λ x. (x, bytes.new.now)) result (number_at w32 bytes.old.now) }
{
    let front = take_bytes(4, bytes)?;
    Ok(u32::from_be_bytes([front[0], front[1], front[2], front[3]]))
}

#[tactic(auto, unfolding(crate::specs::Fields::number_at))]
fn take_u64(bytes: &mut &[u8]) -> Result<u64, ReadError>
    ensures { Gives (λ x. (x, bytes.new.now)) result (number_at w64 bytes.old.now) }
{
    let front = take_bytes(8, bytes)?;
    Ok(u64::from_be_bytes([
        front[0], front[1], front[2], front[3], front[4], front[5], front[6], front[7],
    ]))
}

#[tactic(auto, unfolding(crate::specs::Fields::text_at))]
fn take_text<'t>(bytes: &mut &'t [u8]) -> Result<&'t [u8], ReadError>
    ensures { Gives (λ x. (x.now, bytes.new.now)) result (text_at bytes.old.now) }
{
    let len = take_u32(bytes)?;
    take_bytes(len as usize, bytes)
}

#[tactic(auto, unfolding(crate::specs::Fields::name_at))]
fn take_name(alloc: Global, bytes: &mut &[u8]) -> Result<RepoName, ReadError>
    ensures { Gives (λ x. (x, bytes.new.now)) result (name_at bytes.old.now) }
{
    let text = take_text(bytes)?;
    match RepoName::read(alloc, text) {
        Ok(name) => Ok(name),
        Err(NameFault::NotAName) => Err(ReadError::Fault(EntryFault::BadName)),
        Err(NameFault::TooLong) => Err(ReadError::Fault(EntryFault::BadName)),
        Err(NameFault::NoMemory) => Err(ReadError::NoMemory),
    }
}

#[tactic(auto, unfolding(crate::specs::Fields::digest_at))]
fn take_digest(bytes: &mut &[u8]) -> Result<BlobDigest, ReadError>
    ensures { Gives (λ x. (x, bytes.new.now)) result (digest_at bytes.old.now) }
{
    let text = take_text(bytes)?;
    match BlobDigest::read(text) {
        Some(digest) => Ok(digest),
        None => Err(ReadError::Fault(EntryFault::BadDigest)),
    }
}

/// The reference of a text, if that is the one that is written: `UploadRef::read` reads other forms too.
fn reference_in(text: &[u8]) -> Option<UploadRef>
    ensures { result ≡ reference_in text.now }
{
    let at = UploadRef::read(text)?;
    if at.text().as_slice() == text {
        Some(at)
    } else {
        None
    }
}

#[tactic(auto, unfolding(crate::specs::Fields::reference_at))]
fn take_reference(bytes: &mut &[u8]) -> Result<UploadRef, ReadError>
    ensures { Gives (λ x. (x, bytes.new.now)) result (reference_at bytes.old.now) }
{
    let text = take_text(bytes)?;
    match reference_in(text) {
        Some(at) => Ok(at),
        None => Err(ReadError::Fault(EntryFault::BadReference)),
    }
}

#[tactic(auto, unfolding(crate::specs::Fields::span_at))]
fn take_span(bytes: &mut &[u8]) -> Result<ByteRange, ReadError>
    ensures { Gives (λ x. (x, bytes.new.now)) result (span_at bytes.old.now) }
{
    let first = take_u64(bytes)?;
    let last = take_u64(bytes)?;
    if first <= LAST_POSITION && last <= LAST_POSITION {
        Ok(ByteRange { first, last })
    } else {
        Err(ReadError::Fault(EntryFault::BadRange))
    }
}

#[tactic(auto, unfolding(crate::specs::Fields::range_at))]
fn take_range(bytes: &mut &[u8]) -> Result<Option<ByteRange>, ReadError>
    ensures { Gives (λ x. (x, bytes.new.now)) result (range_at bytes.old.now) }
{
    match take_byte(bytes)? {
        0 => Ok(None),
        1 => Ok(Some(take_span(bytes)?)),
        _ => Err(ReadError::Fault(EntryFault::BadRange)),
    }
}

#[tactic(auto, unfolding(crate::specs::Fields::file_at))]
fn take_file(bytes: &mut &[u8]) -> Result<BodyFile, ReadError>
    ensures { Gives (λ x. (x, bytes.new.now)) result (file_at bytes.old.now) }
{
    let number = take_u64(bytes)?;
    let len = take_u64(bytes)?;
    Ok(BodyFile { number, len })
}

/// Takes this many files. Memory is taken as they come, so no more than the text is long.
fn take_files(alloc: Global, count: u32, bytes: &mut &[u8]) -> Result<Vec<BodyFile>, ReadError>
    ensures { Gives (λ x. (x.items, bytes.new.now)) result (files_of count bytes.old.now) }
{
    let mut files = Vec::new(alloc);
    for _ in 0..count {
        files.push(take_file(bytes)?)?;
    }
    Ok(files)
}

#[tactic(auto, unfolding(crate::specs::Fields::files_at))]
fn take_some_files(alloc: Global, bytes: &mut &[u8]) -> Result<BodyFiles, ReadError>
    ensures { Gives (λ x. (x, bytes.new.now)) result (files_at bytes.old.now) }
{
    let count = take_u32(bytes)?;
    if count == 0 {
        return Err(ReadError::Fault(EntryFault::BadBody));
    }
    Ok(BodyFiles::of(take_files(alloc, count, bytes)?))
}

/// Takes the bytes of a body that is in its entry.
#[tactic(auto, unfolding(crate::specs::Fields::here_at))]
fn take_here<'t>(bytes: &mut &'t [u8]) -> Result<&'t [u8], ReadError>
    ensures { Gives (λ x. (x.now, bytes.new.now)) result (here_at bytes.old.now) }
{
    let text = take_text(bytes)?;
    if text.len() > MOST_HERE {
        return Err(ReadError::Fault(EntryFault::BadBody));
    }
    Ok(text)
}

#[tactic(auto, unfolding(crate::specs::Fields::body_at))]
fn take_body(alloc: Global, bytes: &mut &[u8]) -> Result<KeptBody, ReadError>
    ensures { Gives (λ x. (x, bytes.new.now)) result (body_at bytes.old.now) }
{
    match take_byte(bytes)? {
        0 => {
            let copy = Vec::from_slice(alloc, take_here(bytes)?)?;
            Ok(KeptBody::Here(Body::of(alloc, copy)))
        }
        1 => Ok(KeptBody::InFiles(take_some_files(alloc, bytes)?)),
        _ => Err(ReadError::Fault(EntryFault::BadBody)),
    }
}

#[tactic(auto, unfolding(crate::specs::Fields::told_at))]
fn take_told(bytes: &mut &[u8]) -> Result<KeptAnswer, ReadError>
    ensures { Gives (λ x. (x, bytes.new.now)) result (told_at bytes.old.now) }
{
    match take_byte(bytes)? {
        1 => Ok(KeptAnswer::Begun(take_reference(bytes)?)),
        2 => Ok(KeptAnswer::Taken(take_u64(bytes)?)),
        3 => Ok(KeptAnswer::Stored(take_digest(bytes)?)),
        _ => Err(ReadError::Fault(EntryFault::BadAnswer)),
    }
}

#[tactic(auto, unfolding(crate::specs::Entries::opening_at))]
fn take_opening(alloc: Global, bytes: &mut &[u8]) -> Result<KeptAsk, ReadError>
    ensures { Gives (λ x. (x, bytes.new.now)) result (opening_at bytes.old.now) }
{
    let name = take_name(alloc, bytes)?;
    Ok(KeptAsk::Opening { name })
}

#[tactic(auto, unfolding(crate::specs::Entries::single_at))]
fn take_single(alloc: Global, bytes: &mut &[u8]) -> Result<KeptAsk, ReadError>
    ensures { Gives (λ x. (x, bytes.new.now)) result (single_at bytes.old.now) }
{
    let name = take_name(alloc, bytes)?;
    let digest = take_digest(bytes)?;
    let body = take_body(alloc, bytes)?;
    Ok(KeptAsk::Single { name, digest, body })
}

#[tactic(auto, unfolding(crate::specs::Entries::mount_at))]
fn take_mount(alloc: Global, bytes: &mut &[u8]) -> Result<KeptAsk, ReadError>
    ensures { Gives (λ x. (x, bytes.new.now)) result (mount_at bytes.old.now) }
{
    let name = take_name(alloc, bytes)?;
    let digest = take_digest(bytes)?;
    let source = take_name(alloc, bytes)?;
    Ok(KeptAsk::Mount {
        name,
        digest,
        source,
    })
}

#[tactic(auto, unfolding(crate::specs::Entries::chunk_at))]
fn take_chunk(alloc: Global, bytes: &mut &[u8]) -> Result<KeptAsk, ReadError>
    ensures { Gives (λ x. (x, bytes.new.now)) result (chunk_at bytes.old.now) }
{
    let name = take_name(alloc, bytes)?;
    let at = take_reference(bytes)?;
    let range = take_range(bytes)?;
    let body = take_body(alloc, bytes)?;
    Ok(KeptAsk::Chunk {
        name,
        at,
        range,
        body,
    })
}

#[tactic(auto, unfolding(crate::specs::Entries::close_at))]
fn take_close(alloc: Global, bytes: &mut &[u8]) -> Result<KeptAsk, ReadError>
    ensures { Gives (λ x. (x, bytes.new.now)) result (close_at bytes.old.now) }
{
    let name = take_name(alloc, bytes)?;
    let at = take_reference(bytes)?;
    let range = take_range(bytes)?;
    let digest = take_digest(bytes)?;
    let body = take_body(alloc, bytes)?;
    Ok(KeptAsk::Close {
        name,
        at,
        range,
        digest,
        body,
    })
}

/// Takes a request of this kind.
#[tactic(auto, unfolding(crate::specs::Entries::ask_at))]
fn take_ask(alloc: Global, kind: u8, bytes: &mut &[u8]) -> Result<KeptAsk, ReadError>
    ensures { Gives (λ x. (x, bytes.new.now)) result (ask_at kind bytes.old.now) }
{
    match kind {
        1 => take_opening(alloc, bytes),
        2 => take_single(alloc, bytes),
        3 => take_mount(alloc, bytes),
        4 => take_chunk(alloc, bytes),
        5 => take_close(alloc, bytes),
        _ => Err(ReadError::Fault(EntryFault::UnknownKind)),
    }
}

fn take_secret(bytes: &mut &[u8]) -> Result<[u8; 12], ReadError>
    ensures { Gives (λ x. (x, bytes.new.now)) result (bytes_at 12 bytes.old.now) }
{
    let front = take_bytes(12, bytes)?;
    let mut secret = [0u8; 12];
    secret.copy_from_slice(front);
    Ok(secret)
}

#[tactic(auto, unfolding(crate::specs::Entries::exchange_at))]
fn take_exchange(alloc: Global, kind: u8, bytes: &mut &[u8]) -> Result<KeptExchange, ReadError>
    ensures { Gives (λ x. (x, bytes.new.now)) result (exchange_at kind bytes.old.now) }
{
    let ask = take_ask(alloc, kind, bytes)?;
    let secret = take_secret(bytes)?;
    let now = take_u64(bytes)?;
    let answer = take_told(bytes)?;
    Ok(KeptExchange {
        ask,
        secret,
        now,
        answer,
    })
}

#[tactic(auto, unfolding(crate::specs::Entries::entry_at))]
fn take_entry(alloc: Global, bytes: &mut &[u8]) -> Result<Entry, ReadError>
    ensures { Gives (λ x. (x, bytes.new.now)) result (entry_at bytes.old.now) }
{
    match take_byte(bytes)? {
        6 => Ok(Entry::NumbersUpTo(take_u32(bytes)?)),
        7 => Ok(Entry::MomentsUpTo(take_u64(bytes)?)),
        kind => Ok(Entry::Exchange(take_exchange(alloc, kind, bytes)?)),
    }
}

#[tactic(auto, unfolding(crate::specs::Entries::plain_of))]
fn plain(alloc: Global, text: &[u8]) -> Result<Entry, ReadError>
    ensures { Gives (λ x. x) result (plain_of text.now) }
{
    let mut rest = text;
    let entry = take_entry(alloc, &mut rest)?;
    if !rest.is_empty() {
        return Err(ReadError::Fault(EntryFault::Trailing));
    }
    Ok(entry)
}

fn whole(alloc: Global, bytes: &[u8]) -> Result<Entry, ReadError>
    ensures { Gives (λ x. x) result (entry_of bytes.now) }
{
    plain(alloc, checked(bytes)?)
}

/// Reads an entry, which is all of the bytes. It takes memory for the names and the body, or the list of files, that
/// the text has.
pub fn read_entry(alloc: Global, bytes: &[u8]) -> Result<Entry, ReadError>
    // What is read is written so.
    ensures found { IfOk result (λ entry. IsEntry entry × (bytes.now ≡ entry_text entry)) }
    // What is written so is read as that, unless memory runs out.
    ensures only { (entry : EntryValue) → IsEntry entry → bytes.now ≡ entry_text entry
        → Gives (λ x. x) result (Ok entry) }
    // Any other text has the first fault that is met: in the checksum, and then from left to right.
    ensures exact { Gives (λ x. x) result (entry_of bytes.now) }
{
    whole(alloc, bytes)
}

/// Reads what an entry may have been that is damaged: its checksum isn't looked at.
pub fn read_damaged(alloc: Global, bytes: &[u8]) -> Result<Entry, ReadError>
    ensures { Gives (λ x. x) result (legible_of bytes.now) }
{
    plain(alloc, unchecked(bytes)?)
}
