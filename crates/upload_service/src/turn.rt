//! One turn of the service over its tables: a function for each kind of request. In each the growths come before
//! the first change, so that a refused growth leaves the tables as they were.
ghost use Rattle.std.specs.Prelude.{◌≡◌, ◌≢◌, ◌+◌, ◌≤◌, ◌<◌, ◌^◌, ◌++◌, List, ℕ, length, box_value, Some, IsSome};
ghost use Rattle.std.specs.Prelude.{IfSome, IfNone, IfOk, IfErr, OnOk, IsTrue, IsFalse};
ghost use Rattle.std.specs.FinMap as map;
ghost use Rattle.upload_service.specs.UploadView.{AsksOffset};
ghost use Rattle.upload_service.specs.Machine.{Session, Commits, Mounts, Stores, Takes, Comes, Turn, opening as opening_of};
ghost use Rattle.upload_service.specs.Machine.{at_session, awake};
ghost use Rattle.upload_service.specs.Requests.{chunk_ask, turns_away};
ghost use Rattle.upload_bytes.specs.Blobs.{body_in};
ghost use Rattle.upload_names.specs.Digest.{content_digest};
ghost use Rattle.upload_service.specs.Kept.Entries.{session_of};
ghost use Rattle.upload_service.specs.Kept.Tables.{state_of, IsVerdict, chunk_of, close_of, IsPlaced, IsTurnedAway};

use crate::answer::{Answer, Refusal};
use crate::ask::{Ask, Extent, GoneChunk};
use crate::budget::Budget;
use crate::limits::Limits;
use crate::sessions::{OpenSession, Sessions};
use crate::stock::Stock;
use std::alloc::{AllocError, Global};
use upload_bytes::{Blob, Body, Grant, HashPlace, Received, Several, Shares};
use upload_names::{BlobDigest, RepoName, UploadRef};

/// All that a service keeps.
#[derive(Drop)]
pub struct Tables {
    pub alloc: Global,
    pub limits: Limits,
    /// The last number that was given to a session.
    pub issued: u32,
    pub sessions: Sessions,
    pub stock: Stock,
    /// What each change is granted.
    pub budget: Budget,
    /// It covers what the tables take for blobs and their names.
    pub entries: Grant,
}

/// What the tables take for an upload or a blob beside its bytes and its name.
const ENTRY_SIZE: u64 = 512;

/// What the tables take for an upload or a blob under this name, beside its bytes: the name may be kept twice.
fn size_of_entry(name: &RepoName) -> u64 {
    ENTRY_SIZE + 2 * name.as_str().len() as u64
}

impl Tables {
    /// Shares of the bytes that may go if a request is served and changes nothing: of its body.
    pub fn keep_body(&self, ask: &Ask) -> Shares {
        let mut shares = Shares::none(self.alloc);
        if let Ask::Single { body, .. } | Ask::Chunk { body, .. } | Ask::Close { body, .. } = ask {
            body.keep_in(&mut shares);
        }
        shares
    }

    /// Shares of the bytes that may go if a request is served: of its body, of the blob whose place its own takes, and
    /// of idle sessions. Bytes that are in no shared part are few, and go where it is served.
    pub fn keep_leaving(&self, ask: &Ask, now: u64) -> Shares {
        let mut shares = self.keep_body(ask);
        match ask {
            Ask::Opening { .. } => self.sessions.keep_leaving_in(self.limits, now, &mut shares),
            Ask::Mount { digest, source, .. } if !self.stock.contains(source, digest) => {
                self.sessions.keep_leaving_in(self.limits, now, &mut shares);
            }
            Ask::Single {
                digest: Some(digest),
                body,
                ..
            } => {
                self.keep_replaced_in(digest, body.len() as u64, &mut shares);
            }
            Ask::Close {
                at,
                digest: Some(digest),
                body,
                ..
            } => {
                let before = self
                    .sessions
                    .find(at)
                    .map_or(0, |session| session.received.len());
                let size = before.saturating_add(body.len() as u64);
                self.keep_replaced_in(digest, size, &mut shares);
            }
            _ => {}
        }
        shares
    }

    /// Has shares kept of the stored blob of a digest if a blob of this size may take its place. One of another size
    /// can't have the digest, but for a collision.
    fn keep_replaced_in(&self, digest: &BlobDigest, size: u64, shares: &mut Shares) {
        if let Some(blob) = self.stock.get(digest) {
            if blob.len() == size {
                blob.keep_in(shares);
            }
        }
    }

    /// The session of a reference, if it is open under this name and isn't idle.
    fn find_awake(&self, name: &RepoName, at: &UploadRef, now: u64) -> Option<&OpenSession>
        ensures found { IfSome result (λ session. awake (state_of self.now) now at.now
            ≡ Some (session_of session.now)) }
        ensures named { IfSome result (λ session. session.now.name ≡ name.now) }
        ensures none { IfNone result
            ((session : Session) → awake (state_of self.now) now at.now ≡ Some session
            → session.name ≢ name.now) }
    {
        let session = self.sessions.find(at)?;
        if session.is_idle(self.limits.max_idle, now) {
            return None;
        }
        if !session.name.same(name) {
            return None;
        }
        Some(session)
    }
}

/// A body that was sent for an upload, with its range.
#[derive(Drop)]
struct Sent {
    name: RepoName,
    at: UploadRef,
    range: Extent,
    body: Body,
}

/// Such a body that fits.
#[derive(Drop)]
struct Placed {
    name: RepoName,
    at: UploadRef,
    body: Body,
    /// How many bytes the upload has received, behind which it goes.
    next: u64,
}

/// What a body is judged to be.
#[derive(Clone, Copy)]
enum Verdict {
    Fits,
    Misplaced,
    Refused(Refusal),
}

/// Judges a body of this size behind `next` bytes. The offset goes before the range's length, and that before the
/// blob's size.
fn judge(max_blob: u64, next: u64, range: Extent, size: u64) -> Verdict
    ensures verdict { IsVerdict max_blob next range size result }
    ensures small { result ≡ Verdict.Fits → next + size ≤ max_blob }
{
    if let Extent::Bad = range {
        return Verdict::Refused(Refusal::BadRange);
    }
    if let Extent::Given(range) = range {
        if range.first != next {
            return Verdict::Misplaced;
        }
        if range.length() != Some(size) {
            return Verdict::Refused(Refusal::WrongLength);
        }
    }
    if next > max_blob || size > max_blob - next {
        return Verdict::Refused(Refusal::TooLarge);
    }
    Verdict::Fits
}

/// Finds where a body goes. An `Err` has the answer by which it is turned away.
fn place(tables: &Tables, sent: Sent, now: u64) -> Result<Placed, Answer>
    ensures ok { IfOk result (λ placed. IsPlaced (state_of tables.now) now sent placed) }
    ensures err { IfErr result (λ answer. IsTurnedAway (state_of tables.now) now sent answer) }
{
    let Sent {
        name,
        at,
        range,
        body,
    } = sent;
    let Some(session) = tables.find_awake(&name, &at, now) else {
        return Err(Answer::Refused(Refusal::NoUpload));
    };
    let next = session.received.len();
    let size = body.len() as u64;
    match judge(tables.limits.max_blob, next, range, size) {
        Verdict::Fits => Ok(Placed {
            name,
            at,
            body,
            next,
        }),
        Verdict::Misplaced => Err(Answer::Misplaced { name, at, next }),
        Verdict::Refused(refusal) => Err(Answer::Refused(refusal)),
    }
}

/// Tells a session's offset.
fn status(tables: &Tables, name: RepoName, at: UploadRef, now: u64) -> Answer
    ensures { Comes (state_of tables.now) now
        (at_session tables.now.limits.max_blob (awake (state_of tables.now) now at) name at
        AsksOffset)
        result (state_of tables.now) }
{
    let Some(session) = tables.find_awake(&name, &at, now) else {
        return Answer::Refused(Refusal::NoUpload);
    };
    let next = session.received.len();
    Answer::Standing { name, at, next }
}

/// Has a session take a chunk.
fn chunk(tables: &mut Tables, sent: Sent, now: u64) -> Answer
    ensures turn { Comes (state_of tables.old) now (chunk_of (state_of tables.old) now sent) result
        (state_of tables.new) }
    ensures same { IsTrue tables.old.budget → state_of tables.new ≡ state_of tables.old }
{
    let placed = match place(tables, sent, now) {
        Ok(placed) => placed,
        Err(answer) => return answer,
    };
    let Placed {
        name,
        at,
        body,
        next,
    } = placed;
    let Ok(body) = tables.budget.admit(body) else {
        return Answer::NoMemory;
    };
    let next = next + body.len() as u64;
    match tables.sessions.append(&at, body, now) {
        Ok(()) => Answer::Taken { name, at, next },
        Err(_) => Answer::NoMemory,
    }
}

/// Has a session that has received nothing take bytes that are in files. One that has received something is out of
/// memory, if they would be taken.
pub fn restore_chunk(
    tables: &mut Tables,
    name: RepoName,
    at: UploadRef,
    received: Received,
    now: u64,
) -> Answer
    ensures { (secret : List ℕ) → Turn (state_of tables.old)
        (Ask.Chunk name at Extent.Absent received) secret now result (state_of tables.new) }
{
    let Some(session) = tables.find_awake(&name, &at, now) else {
        return Answer::Refused(Refusal::NoUpload);
    };
    let next = session.received.len();
    match judge(tables.limits.max_blob, next, Extent::Absent, received.len()) {
        Verdict::Fits => take_restored(tables, name, at, received, now),
        Verdict::Misplaced => Answer::Misplaced { name, at, next },
        Verdict::Refused(refusal) => Answer::Refused(refusal),
    }
}

/// Has an open session take bytes that are in files, if it has received nothing.
fn take_restored(
    tables: &mut Tables,
    name: RepoName,
    at: UploadRef,
    received: Received,
    now: u64,
) -> Answer
    requires { IsSome (map.get tables.old.sessions at) }
    ensures { (session : Session) → map.get tables.old.sessions at ≡ Some session
        → session.name ≡ name → Comes (state_of tables.old) now
        (Takes name at (session.received ++ received)) result (state_of tables.new) }
{
    let next = received.len();
    match tables.sessions.restore(&at, received, now) {
        Ok(()) => Answer::Taken { name, at, next },
        Err(_) => Answer::NoMemory,
    }
}

/// Stores a blob that is in files, and has this digest.
#[tactic(auto, unfolding(crate::specs::Machine::Turn))]
pub fn restore_single(tables: &mut Tables, name: RepoName, digest: BlobDigest, blob: Blob) -> Answer
    requires { content_digest digest.algorithm blob ≡ digest }
    ensures { (secret : List ℕ) (now : ℕ) → Turn (state_of tables.old)
        (Ask.Single name (Some digest) blob) secret now result (state_of tables.new) }
{
    if blob.len() > tables.limits.max_blob {
        return Answer::Refused(Refusal::TooLarge);
    }
    store_blob(tables, name, digest, blob)
}

/// Answers a chunk whose bytes are gone: by its refusal, or out of memory if it would be taken.
pub fn turn_away(tables: &Tables, chunk: GoneChunk, now: u64) -> Answer
    ensures turn { (secret : List ℕ)
        → Turn (state_of tables.now) (chunk_ask chunk) secret now result (state_of tables.now) }
    ensures away { IsTrue (turns_away result) }
{
    let GoneChunk {
        name,
        at,
        range,
        body,
    } = chunk;
    let Some(session) = tables.find_awake(&name, &at, now) else {
        return Answer::Refused(Refusal::NoUpload);
    };
    let next = session.received.len();
    let size = body.len() as u64;
    match judge(tables.limits.max_blob, next, range, size) {
        Verdict::Fits => Answer::NoMemory,
        Verdict::Misplaced => Answer::Misplaced { name, at, next },
        Verdict::Refused(refusal) => Answer::Refused(refusal),
    }
}

/// Closes a session: what it received and a last body are stored if they have the digest.
fn close<P: HashPlace>(
    tables: &mut Tables,
    hashed_at: &P,
    sent: Sent,
    digest: Option<BlobDigest>,
    now: u64,
) -> Answer
    ensures turn { Comes (state_of tables.old) now (close_of (state_of tables.old) now sent digest)
        result (state_of tables.new) }
    ensures same { IsTrue tables.old.budget → state_of tables.new ≡ state_of tables.old }
{
    let last = match place(tables, sent, now) {
        Ok(placed) => placed,
        Err(answer) => return answer,
    };
    let Some(digest) = digest else {
        return Answer::Refused(Refusal::NoDigest);
    };
    let matches = tables
        .sessions
        .has_digest(hashed_at, &last.at, &digest, &last.body);
    if !matches {
        return Answer::Refused(Refusal::Mismatch);
    }
    commit(tables, last, digest)
}

/// Closes an open session, stores what it received and a last body, and notes the pair.
fn commit(tables: &mut Tables, last: Placed, digest: BlobDigest) -> Answer
    requires open { IsSome (map.get tables.old.sessions last.at) }
    requires fits { (session : Session) → map.get tables.old.sessions last.at ≡ Some session
        → length session.received + length last.body < 2 ^ 64 }
    ensures turn { (now : ℕ) (session : Session) → map.get tables.old.sessions last.at ≡ Some session
        → Comes (state_of tables.old) now
        (Commits last.name last.at digest (session.received ++ last.body)) result
        (state_of tables.new) }
    ensures same { IsTrue tables.old.budget → state_of tables.new ≡ state_of tables.old }
{
    let Placed { name, at, body, .. } = last;
    let Ok(grant) = grant_pair(tables, &name, &digest) else {
        return Answer::NoMemory;
    };
    let Ok(body) = tables.budget.admit(body) else {
        return Answer::NoMemory;
    };
    let Ok(place) = Several::of(tables.alloc, body) else {
        return Answer::NoMemory;
    };
    let Some(received) = tables.sessions.take(tables.alloc, &at) else {
        return Answer::NoMemory;
    };
    let Ok(()) = tables.stock.hold(&name, digest) else {
        tables.sessions.put_back(&at, received);
        return Answer::NoMemory;
    };
    tables.sessions.close(&at);
    let blob = Blob::of_received(tables.alloc, received, place);
    tables.stock.put(digest, blob);
    tables.entries.join(grant);
    Answer::Stored { name, digest }
}

/// Grants what the table takes for a session that is opened. If the table is full, idle ones leave then, which gives
/// back more.
fn grant_opening(tables: &Tables, name: &RepoName) -> Result<Grant, AllocError>
    ensures { OnOk result (IsFalse tables.now.budget) }
{
    let size = size_of_entry(name);
    if tables.sessions.len() >= tables.limits.max_open as usize {
        return tables.budget.grant_over(size);
    }
    tables.budget.grant_sparing(size)
}

/// Grants what the table takes for a pair, if it hasn't that already.
fn grant_pair(tables: &Tables, name: &RepoName, digest: &BlobDigest) -> Result<Grant, AllocError>
    ensures { OnOk result (IsFalse tables.now.budget) }
{
    let size = if tables.stock.contains(name, digest) {
        0
    } else {
        size_of_entry(name)
    };
    tables.budget.grant(size)
}

/// Opens a session.
fn opening(tables: &mut Tables, name: RepoName, secret: [u8; 12], now: u64) -> Answer
    ensures turn { Comes (state_of tables.old) now
        (opening_of (state_of tables.old) name secret now) result
        (state_of tables.new) }
    ensures same { IsTrue tables.old.budget → state_of tables.new ≡ state_of tables.old }
{
    if tables.sessions.is_full(tables.limits, now) || tables.issued == u32::MAX {
        return Answer::Refused(Refusal::TooMany);
    }
    let Ok(grant) = grant_opening(tables, &name) else {
        return Answer::NoMemory;
    };
    let Ok(kept) = name.copy(tables.alloc) else {
        return Answer::NoMemory;
    };
    let at = UploadRef::make(tables.issued + 1, secret);
    let session = OpenSession::new(tables.alloc, kept, now, grant);
    match tables.sessions.begin(tables.limits, at, session) {
        Ok(()) => {
            tables.issued += 1;
            Answer::Begun { name, at }
        }
        Err(_) => Answer::NoMemory,
    }
}

/// Hands out a blob of a repository, or its size alone.
#[tactic(auto, unfolding(crate::specs::Machine::Turn))]
fn has(tables: &Tables, name: RepoName, digest: BlobDigest, head: bool) -> Answer
    ensures { (secret : List ℕ) (now : ℕ)
        → Turn (state_of tables.now) (Ask.Has name digest head) secret now result
        (state_of tables.now) }
{
    if !tables.stock.contains(&name, &digest) {
        return Answer::Refused(Refusal::NoBlob);
    }
    let Some(blob) = tables.stock.get(&digest) else {
        return Answer::Refused(Refusal::NoBlob);
    };
    let size = blob.len();
    if head {
        return Answer::Blob {
            digest,
            size,
            bytes: None,
        };
    }
    match blob.share(tables.alloc) {
        Ok(bytes) => Answer::Blob {
            digest,
            size,
            bytes: Some(bytes),
        },
        Err(_) => Answer::NoMemory,
    }
}

/// Stores a blob of one body.
#[tactic(auto, unfolding(crate::specs::Machine::Turn))]
fn single(tables: &mut Tables, name: RepoName, digest: Option<BlobDigest>, body: Body) -> Answer
    ensures turn { (secret : List ℕ) (now : ℕ)
        → Turn (state_of tables.old) (Ask.Single name digest body) secret now result
        (state_of tables.new) }
    ensures same { IsTrue tables.old.budget → state_of tables.new ≡ state_of tables.old }
{
    if body.len() as u64 > tables.limits.max_blob {
        return Answer::Refused(Refusal::TooLarge);
    }
    let Some(digest) = digest else {
        return Answer::Refused(Refusal::NoDigest);
    };
    let content = body.digest(digest.algorithm());
    if !content.same(&digest) {
        return Answer::Refused(Refusal::Mismatch);
    }
    store_single(tables, name, digest, body)
}

/// Stores a body that has this digest.
fn store_single(tables: &mut Tables, name: RepoName, digest: BlobDigest, body: Body) -> Answer
    ensures turn { (now : ℕ) → Comes (state_of tables.old) now (Stores name digest body) result
        (state_of tables.new) }
    ensures same { IsTrue tables.old.budget → state_of tables.new ≡ state_of tables.old }
{
    let Ok(body) = tables.budget.admit(body) else {
        return Answer::NoMemory;
    };
    let Ok(blob) = Blob::of(tables.alloc, body) else {
        return Answer::NoMemory;
    };
    store_blob(tables, name, digest, blob)
}

/// Stores a blob that has this digest.
fn store_blob(tables: &mut Tables, name: RepoName, digest: BlobDigest, blob: Blob) -> Answer
    ensures turn { (now : ℕ) → Comes (state_of tables.old) now (Stores name digest blob) result
        (state_of tables.new) }
    ensures same { IsTrue tables.old.budget → state_of tables.new ≡ state_of tables.old }
{
    let Ok(grant) = grant_pair(tables, &name, &digest) else {
        return Answer::NoMemory;
    };
    let Ok(()) = tables.stock.store(&name, digest, blob) else {
        return Answer::NoMemory;
    };
    tables.entries.join(grant);
    Answer::Stored { name, digest }
}

/// Notes that a repository has a stored blob.
fn mount(tables: &mut Tables, name: RepoName, digest: BlobDigest) -> Answer
    requires { IsSome (map.get tables.old.stock.blobs digest) }
    ensures turn { (now : ℕ) → Comes (state_of tables.old) now (Mounts name digest) result
        (state_of tables.new) }
    ensures same { IsTrue tables.old.budget → state_of tables.new ≡ state_of tables.old }
{
    let Ok(grant) = grant_pair(tables, &name, &digest) else {
        return Answer::NoMemory;
    };
    let Ok(()) = tables.stock.mount(&name, digest) else {
        return Answer::NoMemory;
    };
    tables.entries.join(grant);
    Answer::Stored { name, digest }
}

/// One turn. A mount of a blob that the other repository doesn't have opens a session.
#[tactic(auto, unfolding(crate::specs::Machine::Turn))]
pub fn turn<P: HashPlace>(
    tables: &mut Tables,
    hashed_at: &P,
    ask: Ask,
    secret: [u8; 12],
    now: u64,
) -> Answer
    ensures turn { Turn (state_of tables.old) ask secret now result (state_of tables.new) }
    ensures same { IsTrue tables.old.budget → state_of tables.new ≡ state_of tables.old }
{
    match ask {
        Ask::Base => Answer::Base,
        Ask::Refused(refusal) => Answer::Refused(refusal),
        Ask::Has { name, digest, head } => has(tables, name, digest, head),
        Ask::Opening { name } => opening(tables, name, secret, now),
        Ask::Mount {
            name,
            digest,
            source,
        } => {
            if tables.stock.contains(&source, &digest) {
                mount(tables, name, digest)
            } else {
                opening(tables, name, secret, now)
            }
        }
        Ask::Single { name, digest, body } => single(tables, name, digest, body),
        Ask::Chunk {
            name,
            at,
            range,
            body,
        } => {
            let sent = Sent {
                name,
                at,
                range,
                body,
            };
            chunk(tables, sent, now)
        }
        Ask::Status { name, at } => status(tables, name, at, now),
        Ask::Close {
            name,
            at,
            range,
            digest,
            body,
        } => {
            let sent = Sent {
                name,
                at,
                range,
                body,
            };
            close(tables, hashed_at, sent, digest, now)
        }
    }
}
