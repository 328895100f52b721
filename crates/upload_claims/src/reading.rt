//! Changes, read from their texts.
ghost use Rattle.std.specs.Prelude.{◌≡◌, length, IfOk};
ghost use Rattle.std.specs.Int.{w32, w64};
ghost use Rattle.upload_claims.specs.Fields.{Gives, byte_at, bytes_at, number_at, text_at, name_at, digest_at};
ghost use Rattle.upload_claims.specs.Fields.{reference_at, stretch_at};
ghost use Rattle.upload_claims.specs.Texts.{began_at, took_at, seen_at, closed_at, stored_at, joined_at, has_at};
ghost use Rattle.upload_claims.specs.Texts.{fields_at, change_at, changes_at, changes_of};

use crate::change::{Change, Place, Stretch};
use crate::fault::{ReadError, RecordFault};
use std::alloc::Global;
use upload_names::{BlobDigest, NameFault, RepoName, UploadRef};
use uuid::Uuid;

/// Takes this many bytes from the front.
#[tactic(auto, unfolding(crate::specs::Fields::bytes_at))]
pub fn take_bytes<'t>(len: usize, bytes: &mut &'t [u8]) -> Result<&'t [u8], ReadError>
    ensures taken { Gives (λ x. (x.now, bytes.new.now)) result (bytes_at len bytes.old.now) }
    ensures len { IfOk result (λ x. length x.now ≡ len) }
{
    if bytes.len() < len {
        return Err(ReadError::Fault(RecordFault::Short));
    }
    let (front, rest) = bytes.split_at(len);
    *bytes = rest;
    Ok(front)
}

pub fn take_byte(bytes: &mut &[u8]) -> Result<u8, ReadError>
    ensures { Gives (λ x. (x, bytes.new.now)) result (byte_at bytes.old.now) }
{
    match *bytes {
        [] => Err(ReadError::Fault(RecordFault::Short)),
        [byte, rest @ ..] => {
            *bytes = rest;
            Ok(*byte)
        }
    }
}

#[tactic(auto, unfolding(crate::specs::Fields::number_at))]
pub fn take_u32(bytes: &mut &[u8]) -> Result<u32, ReadError>
    ensures { Gives (λ x. (x, bytes.new.now)) result (number_at w32 bytes.old.now) }
{
    let front = take_bytes(4, bytes)?;
    Ok(u32::from_be_bytes([front[0], front[1], front[2], front[3]]))
}

#[tactic(auto, unfolding(crate::specs::Fields::number_at))]
pub fn take_u64(bytes: &mut &[u8]) -> Result<u64, ReadError>
    ensures { Gives (λ x. (x, bytes.new.now)) result (number_at w64 bytes.old.now) }
{
    let front = take_bytes(8, bytes)?;
    Ok(u64::from_be_bytes([
        front[0], front[1], front[2], front[3], front[4], front[5], front[6], front[7],
    ]))
}

#[tactic(auto, unfolding(crate::specs::Fields::text_at))]
fn take_text<'t>(bytes: &mut &'t [u8]) -> Result<&'t [u8], ReadError>
    ensures { Gives (λ x. (x.now, bytes.new.now)) result (text_at bytes.old.now) }
{
    let len = take_u32(bytes)?;
    take_bytes(len as usize, bytes)
}

#[tactic(auto, unfolding(crate::specs::Fields::name_at))]
fn take_name(alloc: Global, bytes: &mut &[u8]) -> Result<RepoName, ReadError>
    ensures { Gives (λ x. (x, bytes.new.now)) result (name_at bytes.old.now) }
{
    let text = take_text(bytes)?;
    match RepoName::read(alloc, text) {
        Ok(name) => Ok(name),
        Err(NameFault::NotAName) => Err(ReadError::Fault(RecordFault::BadName)),
        Err(NameFault::TooLong) => Err(ReadError::Fault(RecordFault::BadName)),
        Err(NameFault::NoMemory) => Err(ReadError::NoMemory),
    }
}

#[tactic(auto, unfolding(crate::specs::Fields::digest_at))]
fn take_digest(bytes: &mut &[u8]) -> Result<BlobDigest, ReadError>
    ensures { Gives (λ x. (x, bytes.new.now)) result (digest_at bytes.old.now) }
{
    let text = take_text(bytes)?;
    match BlobDigest::read(text) {
        Some(digest) => Ok(digest),
        None => Err(ReadError::Fault(RecordFault::BadDigest)),
    }
}

/// The reference that has these sixteen bytes.
fn reference_of(id: Uuid) -> UploadRef
    ensures { result ≡ id }
{
    let mut buffer = Uuid::encode_buffer();
    let text = id.hyphenated().encode_lower(&mut buffer);
    match UploadRef::read(text.as_bytes()) {
        Some(at) => at,
        None => unreachable!(),
    }
}

/// Takes the sixteen bytes of a reference.
fn take_reference(bytes: &mut &[u8]) -> Result<UploadRef, ReadError>
    ensures { Gives (λ x. (x, bytes.new.now)) result (reference_at bytes.old.now) }
{
    let front = take_bytes(16, bytes)?;
    match Uuid::from_slice(front) {
        Ok(id) => Ok(reference_of(id)),
        Err(_) => unreachable!(),
    }
}

/// Takes where a body is: the number of the record or the file, and the end.
#[tactic(auto, unfolding(crate::specs::Fields::stretch_at))]
fn take_stretch(bytes: &mut &[u8]) -> Result<Stretch, ReadError>
    ensures { Gives (λ x. (x, bytes.new.now)) result (stretch_at bytes.old.now) }
{
    match take_byte(bytes)? {
        0 => {
            let number = take_u64(bytes)?;
            let end = take_u64(bytes)?;
            Ok(Stretch {
                place: Place::Record(number),
                end,
            })
        }
        1 => {
            let number = take_u64(bytes)?;
            let end = take_u64(bytes)?;
            Ok(Stretch {
                place: Place::File(number),
                end,
            })
        }
        _ => Err(ReadError::Fault(RecordFault::BadPlace)),
    }
}

#[tactic(auto, unfolding(crate::specs::Texts::began_at))]
fn take_began(alloc: Global, bytes: &mut &[u8]) -> Result<Change, ReadError>
    ensures { Gives (λ x. (x, bytes.new.now)) result (began_at bytes.old.now) }
{
    let at = take_reference(bytes)?;
    let name = take_name(alloc, bytes)?;
    let now = take_u64(bytes)?;
    Ok(Change::Began { at, name, now })
}

#[tactic(auto, unfolding(crate::specs::Texts::took_at))]
fn take_took(bytes: &mut &[u8]) -> Result<Change, ReadError>
    ensures { Gives (λ x. (x, bytes.new.now)) result (took_at bytes.old.now) }
{
    let at = take_reference(bytes)?;
    let now = take_u64(bytes)?;
    let from = take_u64(bytes)?;
    let stretch = take_stretch(bytes)?;
    Ok(Change::Took {
        at,
        now,
        from,
        stretch,
    })
}

#[tactic(auto, unfolding(crate::specs::Texts::seen_at))]
fn take_seen(bytes: &mut &[u8]) -> Result<Change, ReadError>
    ensures { Gives (λ x. (x, bytes.new.now)) result (seen_at bytes.old.now) }
{
    let at = take_reference(bytes)?;
    let now = take_u64(bytes)?;
    Ok(Change::Seen { at, now })
}

#[tactic(auto, unfolding(crate::specs::Texts::closed_at))]
fn take_closed(bytes: &mut &[u8]) -> Result<Change, ReadError>
    ensures { Gives (λ x. (x, bytes.new.now)) result (closed_at bytes.old.now) }
{
    let at = take_reference(bytes)?;
    let digest = take_digest(bytes)?;
    let end = take_u64(bytes)?;
    Ok(Change::Closed { at, digest, end })
}

#[tactic(auto, unfolding(crate::specs::Texts::stored_at))]
fn take_stored(bytes: &mut &[u8]) -> Result<Change, ReadError>
    ensures { Gives (λ x. (x, bytes.new.now)) result (stored_at bytes.old.now) }
{
    let digest = take_digest(bytes)?;
    let stretch = take_stretch(bytes)?;
    Ok(Change::Stored { digest, stretch })
}

#[tactic(auto, unfolding(crate::specs::Texts::joined_at))]
fn take_joined(bytes: &mut &[u8]) -> Result<Change, ReadError>
    ensures { Gives (λ x. (x, bytes.new.now)) result (joined_at bytes.old.now) }
{
    let digest = take_digest(bytes)?;
    let from = take_u64(bytes)?;
    let stretch = take_stretch(bytes)?;
    Ok(Change::Joined {
        digest,
        from,
        stretch,
    })
}

#[tactic(auto, unfolding(crate::specs::Texts::has_at))]
fn take_has(alloc: Global, bytes: &mut &[u8]) -> Result<Change, ReadError>
    ensures { Gives (λ x. (x, bytes.new.now)) result (has_at bytes.old.now) }
{
    let name = take_name(alloc, bytes)?;
    let digest = take_digest(bytes)?;
    Ok(Change::Has { name, digest })
}

/// Takes a change of this kind.
#[tactic(auto, unfolding(crate::specs::Texts::fields_at))]
fn take_fields(alloc: Global, kind: u8, bytes: &mut &[u8]) -> Result<Change, ReadError>
    ensures { Gives (λ x. (x, bytes.new.now)) result (fields_at kind bytes.old.now) }
{
    match kind {
        1 => Ok(Change::NumbersUpTo(take_u32(bytes)?)),
        2 => Ok(Change::MomentsUpTo(take_u64(bytes)?)),
        3 => Ok(Change::LapsedBefore(take_u64(bytes)?)),
        4 => take_began(alloc, bytes),
        5 => take_took(bytes),
        6 => take_seen(bytes),
        7 => take_closed(bytes),
        8 => take_stored(bytes),
        9 => Ok(Change::Laid {
            digest: take_digest(bytes)?,
        }),
        10 => take_joined(bytes),
        11 => take_has(alloc, bytes),
        _ => Err(ReadError::Fault(RecordFault::UnknownChange)),
    }
}

#[tactic(auto, unfolding(crate::specs::Texts::change_at))]
fn take_change(alloc: Global, bytes: &mut &[u8]) -> Result<Change, ReadError>
    ensures { Gives (λ x. (x, bytes.new.now)) result (change_at bytes.old.now) }
{
    let kind = take_byte(bytes)?;
    take_fields(alloc, kind, bytes)
}

/// Takes this many changes.
fn take_changes(alloc: Global, count: u8, bytes: &mut &[u8]) -> Result<Vec<Change>, ReadError>
    ensures { Gives (λ x. (x.items, bytes.new.now)) result (changes_at count bytes.old.now) }
{
    let mut changes = Vec::new(alloc);
    for _ in 0..count {
        changes.push(take_change(alloc, bytes)?)?;
    }
    Ok(changes)
}

/// Reads changes, which are all of the text. It takes memory for them and for their names.
#[tactic(auto, unfolding(crate::specs::Texts::changes_of))]
pub fn read_changes(alloc: Global, text: &[u8]) -> Result<Vec<Change>, ReadError>
    ensures { Gives (λ x. x.items) result (changes_of text.now) }
{
    let mut rest = text;
    let count = take_byte(&mut rest)?;
    let changes = take_changes(alloc, count, &mut rest)?;
    if !rest.is_empty() {
        return Err(ReadError::Fault(RecordFault::Trailing));
    }
    Ok(changes)
}
