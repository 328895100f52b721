//! The changes of an exchange.
ghost use Rattle.std.specs.Prelude.{◌≡◌, ◌++◌, ◌∷◌, [], IfOk, OnOk};
ghost use Rattle.std.specs.FinMap as map;
ghost use Rattle.upload_names.specs.Reference.{number_of};
ghost use Rattle.upload_claims.specs.Claims.{received_by};
ghost use Rattle.upload_claims.specs.Noted.{brought_by, len_of, sweep, was_seen, seen_by, taken_by, closed_by, blob_by};
ghost use Rattle.upload_claims.specs.Noted.{stored_by, has_by, changes_by, stretch_to};
ghost use Rattle.upload_claims.specs.declared.change.Change.TheVariants.{NumbersUpTo, Began, Took};

use crate::bodies::end_of;
use crate::change::{Change, Place, Stretch};
use crate::claimed::Claimed;
use std::alloc::{AllocError, Global};
use upload_names::{BlobDigest, RepoName, UploadRef};
use upload_service::{Answer, Ask, Limits};

/// What a request brings. It is noted before the request is served, which takes the request.
#[derive(Clone, Copy)]
pub enum Brought {
    /// Nothing that a change is made of.
    Nothing,
    /// A whole blob, of so many bytes.
    Blob(u64),
    /// A chunk of an upload, of so many bytes.
    Chunk(u64),
    /// The last chunk of an upload, of so many bytes.
    Last(UploadRef, u64),
}

impl Brought {
    /// What a request brings.
    pub fn of(ask: &Ask) -> Brought
        ensures { result ≡ brought_by ask.now }
    {
        match ask {
            Ask::Single { body, .. } => Brought::Blob(body.len() as u64),
            Ask::Chunk { body, .. } => Brought::Chunk(body.len() as u64),
            Ask::Close { at, body, .. } => Brought::Last(*at, body.len() as u64),
            _ => Brought::Nothing,
        }
    }

    /// How many bytes.
    fn len(&self) -> u64
        ensures { result ≡ len_of self.now }
    {
        match self {
            Brought::Nothing => 0,
            Brought::Blob(len) | Brought::Chunk(len) | Brought::Last(_, len) => *len,
        }
    }
}

/// What is noted of an exchange, beside its answer.
#[derive(Clone, Copy)]
pub struct Noted {
    pub brought: Brought,
    /// The moment, in seconds, when it was served.
    pub moment: u64,
    /// Where its body is kept. It doesn't matter if that has no bytes.
    pub place: Place,
    /// Whether a whole blob is known to be claimed with just the bytes that were brought: then they aren't kept anew.
    pub known: bool,
}

impl Noted {
    ghost use Rattle.upload_claims.specs.Noted.{stretch_to};

    /// A body that is kept there, and ends there.
    fn stretch_to(&self, end: u64) -> Stretch
        ensures { result ≡ stretch_to self.now end }
    {
        Stretch {
            place: self.place,
            end,
        }
    }
}

/// The changes of an exchange, after these claims. What changes nothing has none, and what does no more than that an
/// upload is seen has one of 25 bytes. An `Err` says that there is no memory, or that an upload that was closed is
/// claimed to have 2^64 bytes or more.
pub fn changes_of(
    alloc: Global,
    limits: &Limits,
    claimed: &Claimed,
    noted: &Noted,
    answer: &Answer,
) -> Result<Vec<Change>, AllocError>
    ensures { IfOk result
        (λ changes. changes.items ≡ changes_by limits.now claimed.now noted.now answer.now) }
{
    let mut changes = Vec::new(alloc);
    match answer {
        Answer::Begun { name, at } => {
            put_sweep(&mut changes, limits, claimed, noted.moment)?;
            put_begun(alloc, &mut changes, at, name, noted.moment)?;
        }
        Answer::Taken { at, next, .. } => put_taken(&mut changes, claimed, noted, at, *next)?,
        Answer::Stored { name, digest } => {
            put_stored(&mut changes, claimed, noted, digest)?;
            put_has(alloc, &mut changes, claimed, name, digest)?;
        }
        Answer::Base
        | Answer::Blob { .. }
        | Answer::Standing { .. }
        | Answer::Misplaced { .. }
        | Answer::Refused(_)
        | Answer::NoMemory => {}
    }
    Ok(changes)
}

fn put_sweep(
    out: &mut Vec<Change>,
    limits: &Limits,
    claimed: &Claimed,
    now: u64,
) -> Result<(), AllocError>
    ensures { OnOk result (out.new.items ≡ out.old.items ++ sweep limits.now claimed.now now) }
{
    if limits.max_open as usize <= claimed.uploads() {
        out.push(Change::LapsedBefore(now.saturating_sub(limits.max_idle)))?;
    }
    Ok(())
}

fn put_begun(
    alloc: Global,
    out: &mut Vec<Change>,
    at: &UploadRef,
    name: &RepoName,
    now: u64,
) -> Result<(), AllocError>
    ensures { OnOk result (out.new.items
        ≡ out.old.items ++ NumbersUpTo (number_of at.now) ∷ Began at.now name.now now ∷ []) }
{
    let name = name.copy(alloc)?;
    out.push(Change::NumbersUpTo(at.number()))?;
    out.push(Change::Began { at: *at, name, now })?;
    Ok(())
}

fn put_taken(
    out: &mut Vec<Change>,
    claimed: &Claimed,
    noted: &Noted,
    at: &UploadRef,
    end: u64,
) -> Result<(), AllocError>
    ensures { OnOk result (out.new.items
        ≡ out.old.items ++ taken_by claimed.now noted.now at.now (len_of noted.now.brought) end) }
{
    let len = noted.brought.len();
    if len == 0 {
        return put_seen(out, claimed, at, noted.moment);
    }
    put_took(out, noted, at, end.saturating_sub(len), end)
}

fn put_seen(
    out: &mut Vec<Change>,
    claimed: &Claimed,
    at: &UploadRef,
    now: u64,
) -> Result<(), AllocError>
    ensures { OnOk result (out.new.items ≡ out.old.items ++ seen_by claimed.now at.now now) }
{
    if !was_seen(claimed, at, now) {
        out.push(Change::Seen { at: *at, now })?;
    }
    Ok(())
}

fn was_seen(claimed: &Claimed, at: &UploadRef, now: u64) -> bool
    ensures { result ≡ was_seen (map.get claimed.now.uploads at.now) now }
{
    match claimed.upload(at) {
        Some(upload) => upload.seen == now,
        None => false,
    }
}

fn put_took(
    out: &mut Vec<Change>,
    noted: &Noted,
    at: &UploadRef,
    from: u64,
    end: u64,
) -> Result<(), AllocError>
    ensures { OnOk result (out.new.items
        ≡ out.old.items ++ Took at.now noted.now.moment from (stretch_to noted.now end) ∷ []) }
{
    out.push(Change::Took {
        at: *at,
        now: noted.moment,
        from,
        stretch: noted.stretch_to(end),
    })?;
    Ok(())
}

fn put_stored(
    out: &mut Vec<Change>,
    claimed: &Claimed,
    noted: &Noted,
    digest: &BlobDigest,
) -> Result<(), AllocError>
    ensures { OnOk result (out.new.items
        ≡ out.old.items ++ stored_by claimed.now noted.now digest.now noted.now.brought) }
{
    match &noted.brought {
        Brought::Blob(len) => put_blob(out, noted, digest, *len),
        Brought::Last(at, len) => put_closed(out, claimed, noted, at, digest, *len),
        Brought::Nothing | Brought::Chunk(_) => Ok(()),
    }
}

fn put_blob(
    out: &mut Vec<Change>,
    noted: &Noted,
    digest: &BlobDigest,
    len: u64,
) -> Result<(), AllocError>
    ensures { OnOk result (out.new.items ≡ out.old.items ++ blob_by noted.now digest.now len) }
{
    if noted.known {
        return Ok(());
    }
    let digest = *digest;
    if len == 0 {
        out.push(Change::Laid { digest })?;
    } else {
        let stretch = noted.stretch_to(len);
        out.push(Change::Stored { digest, stretch })?;
    }
    Ok(())
}

fn put_closed(
    out: &mut Vec<Change>,
    claimed: &Claimed,
    noted: &Noted,
    at: &UploadRef,
    digest: &BlobDigest,
    len: u64,
) -> Result<(), AllocError>
    ensures { OnOk result (out.new.items
        ≡ out.old.items ++ closed_by claimed.now noted.now at.now digest.now len) }
{
    let from = received_by(claimed, at);
    let Some(end) = from.checked_add(len) else {
        return Err(AllocError);
    };
    if len != 0 {
        put_took(out, noted, at, from, end)?;
    }
    out.push(Change::Closed {
        at: *at,
        digest: *digest,
        end,
    })?;
    Ok(())
}

/// How many bytes an upload is claimed to have: 0 if none is claimed.
fn received_by(claimed: &Claimed, at: &UploadRef) -> u64
    ensures { result ≡ received_by (map.get claimed.now.uploads at.now) }
{
    match claimed.upload(at) {
        Some(upload) => end_of(upload.bodies.as_slice()),
        None => 0,
    }
}

fn put_has(
    alloc: Global,
    out: &mut Vec<Change>,
    claimed: &Claimed,
    name: &RepoName,
    digest: &BlobDigest,
) -> Result<(), AllocError>
    ensures { OnOk result (out.new.items
        ≡ out.old.items ++ has_by claimed.now name.now digest.now) }
{
    let pair = (name.copy(alloc)?, *digest);
    if claimed.has(&pair) {
        return Ok(());
    }
    out.push(Change::Has {
        name: pair.0,
        digest: pair.1,
    })?;
    Ok(())
}
