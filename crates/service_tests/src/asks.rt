//! Requests and answers as lines of a table. Tables are statics: a constant's rows are made anew, and proved, wherever
//! it is used.

ghost use Rattle.std.specs.Prelude.{◌≡◌, ◌≤◌, ◌^◌};
ghost use Rattle.upload_service.specs.Machine.{AreLawful};

use std::alloc::{AllocError, Global};
use std::process::Abort;
use upload_bytes::{BlobBytes, Body, BodyBuilder, InPlace};
use upload_names::{Algorithm, BlobDigest, ByteRange, RepoName, UploadRef};
use upload_service::{Answer, Ask, Extent, Limits, Refusal, Service};

/// What a test or a part of one ends with: there may be no memory for what it makes.
pub type Done = Result<(), AllocError>;

/// What is asked, with the texts of digests, references and ranges. No text is no range.
#[derive(Clone, Copy)]
pub enum Word<'w> {
    Base,
    Get(&'w [u8]),
    Head(&'w [u8]),
    Open,
    Single(&'w [u8], &'w [u8]),
    Mount(&'w [u8], &'w [u8]),
    Chunk(&'w [u8], &'w [u8], &'w [u8]),
    Status(&'w [u8]),
    Close(&'w [u8], &'w [u8], &'w [u8], &'w [u8]),
    Judged(Refusal),
}

/// What is answered.
#[derive(Clone, Copy)]
pub enum Told<'t> {
    Welcome,
    Bytes(&'t [u8]),
    Size(u64),
    Begun(&'t [u8]),
    Stored(&'t [u8]),
    Taken(&'t [u8], u64),
    Standing(&'t [u8], u64),
    Misplaced(&'t [u8], u64),
    Refused(Refusal),
}

/// A request under a name at a moment, and its answer.
#[derive(Clone, Copy)]
pub struct Line<'l> {
    pub name: &'l [u8],
    pub now: u64,
    pub word: Word<'l>,
    pub told: Told<'l>,
}

/// A line under a name at a moment: under `lib/a` and at 0 if none is said. A static's value calls no function.
macro_rules! row {
    ($word:expr, $told:expr) => {
        row!(b"lib/a", 0, $word, $told)
    };
    ($name:expr, $now:expr, $word:expr, $told:expr) => {
        $crate::asks::Line {
            name: $name,
            now: $now,
            word: $word,
            told: $told,
        }
    };
}

pub(crate) use row;

/// The references of the first sessions, whose secrets are zero.
pub const U1: &[u8] = b"00000001-0000-8000-8000-000000000000";

pub const U2: &[u8] = b"00000002-0000-8000-8000-000000000000";

pub const U3: &[u8] = b"00000003-0000-8000-8000-000000000000";

/// Ends a test in which something doesn't hold, or in whose tables a row doesn't.
pub fn check(rt: &impl Abort, holds: bool, row: usize, what: &str) {
    assert!(rt; holds, "{row}: {what}");
}

/// Limits of which some are small.
pub fn limits(max_blob: u64, max_open: u32, max_idle: u64) -> Limits
    requires blob { max_blob ≤ 2 ^ 40 }
    requires least_open { 1 ≤ max_open }
    requires most_open { max_open ≤ 1024 }
    requires least_idle { 1 ≤ max_idle }
    requires most_idle { max_idle ≤ 2 ^ 40 }
    ensures { AreLawful result }
{
    Limits {
        max_blob,
        max_body: 2_147_483_648,
        max_open,
        max_idle,
    }
}

/// A name that is known to be one. One growth may be refused.
pub fn name(alloc: Global, text: &[u8]) -> Result<RepoName, AllocError> {
    match RepoName::read(alloc, text) {
        Ok(name) => Ok(name),
        Err(_) => RepoName::read(alloc, text).or(Err(AllocError)),
    }
}

/// A digest that is known to be one.
fn digest(text: &[u8]) -> Result<BlobDigest, AllocError> {
    BlobDigest::read(text).ok_or(AllocError)
}

/// A reference that is known to be one.
pub fn reference(text: &[u8]) -> Result<UploadRef, AllocError> {
    UploadRef::read(text).ok_or(AllocError)
}

fn extent(text: &[u8]) -> Extent {
    match ByteRange::read(text) {
        Some(range) => Extent::Given(range),
        None if text.is_empty() => Extent::Absent,
        None => Extent::Bad,
    }
}

/// A body that carries its SHA-256.
fn body(alloc: Global, content: &[u8]) -> Result<Body, AllocError> {
    let mut body = BodyBuilder::new(alloc, Some(Algorithm::Sha256));
    body.extend(&InPlace, content)?;
    Ok(body.finish(&InPlace))
}

/// The request of a line.
pub fn ask_of(alloc: Global, line: &Line) -> Result<Ask, AllocError> {
    let name = name(alloc, line.name)?;
    match line.word {
        Word::Base => Ok(Ask::Base),
        Word::Judged(refusal) => Ok(Ask::Refused(refusal)),
        Word::Get(text) => has(name, text, false),
        Word::Head(text) => has(name, text, true),
        Word::Open => Ok(Ask::Opening { name }),
        Word::Single(text, content) => Ok(Ask::Single {
            name,
            digest: BlobDigest::read(text),
            body: body(alloc, content)?,
        }),
        Word::Mount(text, source) => mount(alloc, name, text, source),
        Word::Chunk(at, range, content) => Ok(Ask::Chunk {
            name,
            at: reference(at)?,
            range: extent(range),
            body: body(alloc, content)?,
        }),
        Word::Status(at) => Ok(Ask::Status {
            name,
            at: reference(at)?,
        }),
        Word::Close(at, range, text, content) => Ok(Ask::Close {
            name,
            at: reference(at)?,
            range: extent(range),
            digest: BlobDigest::read(text),
            body: body(alloc, content)?,
        }),
    }
}

fn has(name: RepoName, text: &[u8], head: bool) -> Result<Ask, AllocError> {
    let digest = digest(text)?;
    Ok(Ask::Has { name, digest, head })
}

fn mount(alloc: Global, to: RepoName, text: &[u8], source: &[u8]) -> Result<Ask, AllocError> {
    Ok(Ask::Mount {
        name: to,
        digest: digest(text)?,
        source: name(alloc, source)?,
    })
}

/// Whether an answer is what the line says, under the line's name.
pub fn is_told(answer: &Answer, line: &Line) -> bool {
    match (line.told, answer) {
        (Told::Welcome, Answer::Base) => true,
        (Told::Refused(told), Answer::Refused(refusal)) => told == *refusal,
        (Told::Size(told), Answer::Blob { size, bytes, .. }) => told == *size && bytes.is_none(),
        (Told::Bytes(content), Answer::Blob { bytes, .. }) => gives(bytes, content),
        (Told::Begun(told), Answer::Begun { name, at }) => is_at(line, name, told, at),
        (Told::Stored(told), Answer::Stored { name, digest }) => {
            name.as_str().as_bytes() == line.name && digest.text().as_bytes() == told
        }
        (Told::Taken(told, size), Answer::Taken { name, at, next })
        | (Told::Standing(told, size), Answer::Standing { name, at, next })
        | (Told::Misplaced(told, size), Answer::Misplaced { name, at, next }) => {
            is_at(line, name, told, at) && size == *next
        }
        _ => false,
    }
}

/// Whether an answer tells this reference under the line's name.
fn is_at(line: &Line, name: &RepoName, told: &[u8], at: &UploadRef) -> bool {
    name.as_str().as_bytes() == line.name && at.text().as_slice() == told
}

/// Whether the stretches of a blob that was handed out, one after another, are this content.
fn gives(bytes: &Option<BlobBytes>, content: &[u8]) -> bool {
    let Some(bytes) = bytes else {
        return false;
    };
    let mut rest = content;
    for stretch in bytes.stretches() {
        let Ok(stretch) = stretch.as_slice() else {
            return false;
        };
        match rest.strip_prefix(stretch) {
            Some(later) => rest = later,
            None => return false,
        }
    }
    rest.is_empty()
}

/// Whether an answer is what its line says; None if it is that memory is out.
pub fn judge(answer: &Answer, line: &Line) -> Option<bool> {
    match answer {
        Answer::NoMemory => None,
        _ => Some(is_told(answer, line)),
    }
}

/// The request of a line. One growth may be refused.
fn ask_for(alloc: Global, line: &Line) -> Result<Ask, AllocError> {
    match ask_of(alloc, line) {
        Err(AllocError) => ask_of(alloc, line),
        Ok(ask) => Ok(ask),
    }
}

/// Serves a line's request, and judges its answer.
pub fn serve(
    alloc: Global,
    service: &mut Service,
    line: &Line,
) -> Result<Option<bool>, AllocError> {
    let ask = ask_for(alloc, line)?;
    Ok(judge(&service.step(ask, [0; 12], line.now), line))
}
