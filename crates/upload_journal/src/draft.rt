//! Entries, written: before a step what it is given, and behind it the answer.
ghost use Rattle.std.specs.Prelude.{◌≡◌, ◌<◌, ◌≤◌, ◌^◌, ◌++◌, ◌+◌, List, ℕ, length, take, IfOk, OnOk, option_map};
ghost use Rattle.std.specs.Prelude.{vec_len, vec_capacity, IsTrue, ◌↔◌};
ghost use Rattle.std.specs.Int.{w64, to_be_bytes};
ghost use Rattle.std.specs.List.{concat, flat_map};
ghost use Rattle.upload_names.specs.Digest.{digest_text};
ghost use Rattle.upload_names.specs.Reference.{reference_text};
ghost use Rattle.upload_journal.specs.Fields.{measured, range_text, file_text, body_text, told_text};
ghost use Rattle.upload_journal.specs.Entries.{ask_text, asked_text, entry_text};
ghost use Rattle.upload_journal.specs.declared.entries.Entry.TheVariants.{MomentsUpTo, NumbersUpTo};
ghost use Rattle.upload_journal.specs.Short.{told_of, kept_body, kept_range, kept_of, HasPlace, IsPlaced};
ghost use Rattle.upload_journal.specs.Short.{most_behind, PutsAsk, Fits};
ghost use Rattle.upload_journal.specs.Checksums.{with_checksum};

use crate::body::BodyFile;
use crate::checksum::checksum;
use crate::entries::KeptAnswer;
use crate::reading::MOST_HERE;
use std::alloc::{AllocError, Global};
use std::marker::Model;
use upload_bytes::{Body, Part};
use upload_names::{BlobDigest, ByteRange, RepoName, UploadRef};
use upload_service::{Answer, Ask, Extent};

/// Puts a text behind its length.
fn put_text(out: &mut Vec<u8>, text: &[u8]) -> Result<(), AllocError>
    requires { length text.now < 2 ^ 32 }
    ensures { OnOk result (out.new.items ≡ out.old.items ++ measured text.now) }
{
    out.extend_from_slice(&(text.len() as u32).to_be_bytes())?;
    out.extend_from_slice(text)?;
    Ok(())
}

fn put_name(out: &mut Vec<u8>, name: &RepoName) -> Result<(), AllocError>
    ensures { OnOk result (out.new.items ≡ out.old.items ++ measured name.now) }
{
    put_text(out, name.as_str().as_bytes())
}

fn put_digest(out: &mut Vec<u8>, digest: &BlobDigest) -> Result<(), AllocError>
    ensures { OnOk result (out.new.items ≡ out.old.items ++ measured (digest_text digest.now)) }
{
    put_text(out, digest.text().as_bytes())
}

fn put_reference(out: &mut Vec<u8>, at: &UploadRef) -> Result<(), AllocError>
    ensures { OnOk result (out.new.items ≡ out.old.items ++ measured (reference_text at.now)) }
{
    put_text(out, at.text().as_slice())
}

fn put_pair(out: &mut Vec<u8>, first: u64, second: u64) -> Result<(), AllocError>
    ensures { OnOk result (out.new.items
        ≡ out.old.items ++ (to_be_bytes w64 first ++ to_be_bytes w64 second)) }
{
    out.extend_from_slice(&first.to_be_bytes())?;
    out.extend_from_slice(&second.to_be_bytes())?;
    Ok(())
}

fn put_range(out: &mut Vec<u8>, range: Option<ByteRange>) -> Result<(), AllocError>
    ensures { OnOk result (out.new.items ≡ out.old.items ++ range_text range) }
{
    match range {
        None => out.push(0)?,
        Some(range) => {
            out.push(1)?;
            put_pair(out, range.first, range.last)?;
        }
    }
    Ok(())
}

fn put_parts(out: &mut Vec<u8>, parts: &[Part]) -> Result<(), AllocError>
    ensures { OnOk result (out.new.items ≡ out.old.items ++ concat parts.now) }
{
    for part in parts {
        out.extend_from_slice(part.as_slice())?;
    }
    Ok(())
}

/// Puts a body that is kept in its entry.
fn put_body_here(out: &mut Vec<u8>, body: &Body) -> Result<(), AllocError>
    requires { length body.now < 2 ^ 32 }
    ensures { OnOk result (out.new.items ≡ out.old.items ++ measured body.now) }
{
    out.extend_from_slice(&(body.len() as u32).to_be_bytes())?;
    let pieces = body.pieces();
    put_parts(out, pieces.parts.as_slice())?;
    out.extend_from_slice(pieces.last.as_slice())?;
    Ok(())
}

fn put_files(out: &mut Vec<u8>, files: &[BodyFile]) -> Result<(), AllocError>
    ensures { OnOk result (out.new.items ≡ out.old.items ++ flat_map file_text files.now) }
{
    for file in files {
        put_pair(out, file.number, file.len)?;
    }
    Ok(())
}

/// Puts where a body is: in these files, or in the entry if there are none.
fn put_body(out: &mut Vec<u8>, body: &Body, files: &[BodyFile]) -> Result<(), AllocError>
    requires placed { HasPlace body.now files.now }
    requires few { length files.now < 2 ^ 32 }
    ensures { OnOk result (out.new.items
        ≡ out.old.items ++ body_text (kept_body body.now files.now)) }
{
    if files.is_empty() {
        out.push(0)?;
        put_body_here(out, body)?;
    } else {
        out.push(1)?;
        out.extend_from_slice(&(files.len() as u32).to_be_bytes())?;
        put_files(out, files)?;
    }
    Ok(())
}

/// Puts the request, if it can change something, and says whether it can.
fn put_ask(out: &mut Vec<u8>, ask: &Ask, files: &[BodyFile]) -> Result<bool, AllocError>
    requires placed { IsPlaced ask.now files.now }
    requires few { length files.now < 2 ^ 32 }
    ensures { IfOk result (λ kept. PutsAsk kept out.old.items out.new.items
        (kept_of ask.now files.now)) }
{
    match ask {
        Ask::Opening { name } => {
            out.push(1)?;
            put_name(out, name)?;
        }
        Ask::Single {
            name,
            digest: Some(digest),
            body,
        } => {
            out.push(2)?;
            put_name(out, name)?;
            put_digest(out, digest)?;
            put_body(out, body, files)?;
        }
        Ask::Mount {
            name,
            digest,
            source,
        } => {
            out.push(3)?;
            put_name(out, name)?;
            put_digest(out, digest)?;
            put_name(out, source)?;
        }
        Ask::Chunk {
            name,
            at,
            range,
            body,
        } => {
            let Some(range) = kept_range(*range) else {
                return Ok(false);
            };
            out.push(4)?;
            put_name(out, name)?;
            put_reference(out, at)?;
            put_range(out, range)?;
            put_body(out, body, files)?;
        }
        Ask::Close {
            name,
            at,
            range,
            digest: Some(digest),
            body,
        } => {
            let Some(range) = kept_range(*range) else {
                return Ok(false);
            };
            out.push(5)?;
            put_name(out, name)?;
            put_reference(out, at)?;
            put_range(out, range)?;
            put_digest(out, digest)?;
            put_body(out, body, files)?;
        }
        _ => return Ok(false),
    }
    Ok(true)
}

/// Whether the body of a request is in files, or short enough for the entry.
fn is_placed(ask: &Ask, files: &[BodyFile]) -> bool
    ensures { IsTrue result ↔ IsPlaced ask.now files.now }
{
    match ask {
        Ask::Single { body, .. } => has_place(body, files),
        Ask::Chunk { body, .. } => has_place(body, files),
        Ask::Close { body, .. } => has_place(body, files),
        _ => true,
    }
}

fn has_place(body: &Body, files: &[BodyFile]) -> bool
    ensures { IsTrue result ↔ HasPlace body.now files.now }
{
    match files {
        [] => body.len() <= MOST_HERE,
        [_, ..] => true,
    }
}

/// The range that is kept, unless it is bad: then the body is never taken.
fn kept_range(range: Extent) -> Option<Option<ByteRange>>
    ensures { result ≡ kept_range range }
{
    match range {
        Extent::Absent => Some(None),
        Extent::Bad => None,
        Extent::Given(range) => Some(Some(range)),
    }
}

/// The most bytes behind a request: of an answer in short, which are a mark and the text of a digest behind its length,
/// and of a checksum.
const MOST_BEHIND: usize = 148;

/// The text of an entry that is begun before its step: what the service is given. It has room for the answer and the
/// checksum, so that what the step has changed can be written.
#[derive(Drop)]
pub struct Draft {
    bytes: Vec<u8>,
}

impl Model for Draft {
    ghost use Rattle.std.specs.Prelude.{List, ℕ, ◌+◌, ◌≤◌, vec_len, vec_capacity};
    ghost use Rattle.upload_journal.specs.Short.{most_behind};

    ghost Value = { List ℕ };

    ghost view = { λ a. a.bytes.items };

    ghost invariant = { λ a. vec_len a.bytes + most_behind ≤ vec_capacity a.bytes };
}

impl Draft {
    /// Whether a body has its place: it is in these files, or has at most `MOST_HERE` bytes. So it is if there is none.
    pub fn fits(ask: &Ask, files: &[BodyFile]) -> bool
        ensures { IsTrue result ↔ Fits ask.now files.now }
    {
        files.len() <= u32::MAX as usize && is_placed(ask, files)
    }

    /// The text of a request with its secret and its moment, or `None` if the request can't change anything. A body is
    /// in these files, one part behind another, or, if there are none, in the entry.
    pub fn of(
        alloc: Global,
        ask: &Ask,
        files: &[BodyFile],
        secret: &[u8; 12],
        now: u64,
    ) -> Result<Option<Draft>, AllocError>
        requires { Fits ask.now files.now }
        ensures { IfOk result (λ draft. draft
            ≡ option_map (λ kept. asked_text kept secret.now now) (kept_of ask.now files.now)) }
    {
        let mut bytes = Vec::new(alloc);
        if !put_ask(&mut bytes, ask, files)? {
            return Ok(None);
        }
        bytes.extend_from_slice(secret)?;
        bytes.extend_from_slice(&now.to_be_bytes())?;
        bytes.reserve(MOST_BEHIND)?;
        Ok(Some(Draft { bytes }))
    }

    /// The text of the whole entry, or `None` if the answer says that nothing has changed. It takes no memory.
    pub fn finish(self, answer: &Answer) -> Option<Vec<u8>>
        ensures { option_map (λ text. text.items) result
            ≡ option_map (λ told. with_checksum (self ++ told_text told)) (told_of answer.now) }
    {
        let Draft { mut bytes } = self;
        match answer {
            Answer::Begun { at, .. } => put_begun(&mut bytes, at),
            Answer::Taken { next, .. } => put_taken(&mut bytes, *next),
            Answer::Stored { digest, .. } => put_stored(&mut bytes, digest),
            _ => return None,
        }
        let sum = checksum(bytes.as_slice());
        put_reserved(&mut bytes, &sum);
        Some(bytes)
    }
}

/// Puts bytes for which there is room.
fn put_reserved(out: &mut Vec<u8>, bytes: &[u8])
    requires { vec_len out.old + length bytes.now ≤ vec_capacity out.old }
    ensures items { out.new.items ≡ out.old.items ++ bytes.now }
    ensures len { vec_len out.new ≡ vec_len out.old + length bytes.now }
    ensures room { vec_capacity out.old ≤ vec_capacity out.new }
{
    match out.extend_from_slice(bytes) {
        Ok(()) => {}
        Err(_) => unreachable!(),
    }
}

fn put_begun(out: &mut Vec<u8>, at: &UploadRef)
    requires { vec_len out.old + most_behind ≤ vec_capacity out.old }
    ensures items { out.new.items ≡ out.old.items ++ told_text (KeptAnswer.Begun at.now) }
    ensures room { vec_len out.new + 8 ≤ vec_capacity out.new }
{
    put_reserved(out, &[1, 0, 0, 0, 36]);
    put_reserved(out, at.text().as_slice());
}

fn put_taken(out: &mut Vec<u8>, next: u64)
    requires { vec_len out.old + most_behind ≤ vec_capacity out.old }
    ensures items { out.new.items ≡ out.old.items ++ told_text (KeptAnswer.Taken next) }
    ensures room { vec_len out.new + 8 ≤ vec_capacity out.new }
{
    put_reserved(out, &[2]);
    put_reserved(out, &next.to_be_bytes());
}

fn put_stored(out: &mut Vec<u8>, digest: &BlobDigest)
    requires { vec_len out.old + most_behind ≤ vec_capacity out.old }
    ensures items { out.new.items ≡ out.old.items ++ told_text (KeptAnswer.Stored digest.now) }
    ensures room { vec_len out.new + 8 ≤ vec_capacity out.new }
{
    let text = digest.text();
    put_reserved(out, &[3]);
    put_reserved(out, &(text.as_bytes().len() as u32).to_be_bytes());
    put_reserved(out, text.as_bytes());
}

/// The whole text of the entry by which the numbers up to this one are used up.
pub fn numbers_text(number: u32) -> [u8; 13]
    ensures { result ≡ entry_text (NumbersUpTo number) }
{
    let [a, b, c, d] = number.to_be_bytes();
    let text = [6, a, b, c, d];
    let [e, f, g, h, i, j, k, l] = checksum(&text);
    [6, a, b, c, d, e, f, g, h, i, j, k, l]
}

/// The whole text of the entry that promises the moments up to this one.
pub fn moments_text(moment: u64) -> [u8; 17]
    ensures { result ≡ entry_text (MomentsUpTo moment) }
{
    let [a, b, c, d, e, f, g, h] = moment.to_be_bytes();
    let text = [7, a, b, c, d, e, f, g, h];
    let [i, j, k, l, m, n, o, p] = checksum(&text);
    [7, a, b, c, d, e, f, g, h, i, j, k, l, m, n, o, p]
}
