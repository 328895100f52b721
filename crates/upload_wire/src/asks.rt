//! What a request asks, by its path, method, query and range, and then by its body.
ghost use Rattle.std.specs.Prelude.{◌≡◌, IfOk, IfSome, option_and_then, codes, ◌≢◌, ℕ, List, ◌∷◌, ◌++◌, MatchOption};
ghost use Rattle.upload_names.specs.Digest.{digest_of};
ghost use Rattle.upload_names.specs.Reference.{reference_of};
ghost use Rattle.http_wire.specs.Query.{parameter};
ghost use Rattle.upload_wire.specs.Target.{method_of, named, base_ask, blob_ask, mount_ask, uploads_ask, upload_ask};
ghost use Rattle.upload_wire.specs.Target.{with_body, AsksAt, HeadAsks, HasNoSlash, IsFormOf};
ghost use Rattle.upload_service.specs.Requests.{ask_in};
ghost use Rattle.upload_wire.specs.Inner.Coming.{bytes_in};

use crate::coming::Coming;
use http_uri::{Uri, UriError};
use http_wire::{Framing, parameter};
use std::alloc::{AllocError, Global};
use upload_bytes::{Body, Gone, HashPlace};
use upload_names::{Algorithm, BlobDigest, NameFault, RepoName, UploadRef};
use upload_service::{Ask, Extent, Form, GoneChunk, Refusal, Request};

/// The forms of a path, with their parts.
#[derive(Clone, Copy)]
pub enum PathForm<'p> {
    /// `/v2/`
    Base,
    /// A repository's name, and the text of a digest.
    Blob(&'p [u8], &'p [u8]),
    /// A repository's name.
    Uploads(&'p [u8]),
    /// A repository's name, and the text of a reference.
    Upload(&'p [u8], &'p [u8]),
    /// None of these.
    NoForm,
}

/// The text before the last slash, and the text after it.
fn cut_last(text: &[u8]) -> Option<(&[u8], &[u8])>
    ensures { MatchOption result (HasNoSlash text.now)
        (λ p. (text.now ≡ p.0.now ++ 47 ∷ p.1.now) × HasNoSlash p.1.now) }
{
    for i in (0..text.len()).rev() {
        if text[i] == b'/' {
            return Some((&text[..i], &text[i + 1..]));
        }
    }
    None
}

/// What follows the prefix.
fn after<'t>(text: &'t [u8], prefix: &[u8]) -> Option<&'t [u8]>
    ensures { MatchOption result ((rest : List ℕ) → text.now ≢ prefix.now ++ rest)
        (λ rest. text.now ≡ prefix.now ++ rest.now) }
{
    text.strip_prefix(prefix)
}

/// What stands before the suffix.
fn before<'t>(text: &'t [u8], suffix: &[u8]) -> Option<&'t [u8]>
    ensures { MatchOption result ((front : List ℕ) → text.now ≢ front ++ suffix.now)
        (λ front. text.now ≡ front.now ++ suffix.now) }
{
    text.strip_suffix(suffix)
}

/// The form of a path, which is cut at its last slash and not decoded.
pub fn form_of(path: &[u8]) -> PathForm<'_>
    ensures { IsFormOf path.now result }
{
    let Some(rest) = after(path, b"/v2/") else {
        return PathForm::NoForm;
    };
    if rest.is_empty() {
        return PathForm::Base;
    }
    let Some((front, tail)) = cut_last(rest) else {
        return PathForm::NoForm;
    };
    if let Some(name) = before(front, b"/blobs/uploads") {
        if tail.is_empty() {
            PathForm::Uploads(name)
        } else {
            PathForm::Upload(name, tail)
        }
    } else if let Some(name) = before(front, b"/blobs") {
        PathForm::Blob(name, tail)
    } else {
        PathForm::NoForm
    }
}

/// The methods that requests of the service have.
#[derive(Clone, Copy)]
pub enum Method {
    Get,
    Head,
    Post,
    Patch,
    Put,
    /// None of these.
    Other,
}

/// What a head asks. With its body it is an ask.
#[derive(Drop)]
pub enum HeadAsk {
    /// This, whatever the body: it is dropped.
    Ready(Ask),
    /// This, if the body is empty.
    IfBodiless(Ask),
    /// POST of a whole blob, which is the body.
    Single {
        name: RepoName,
        digest: Option<BlobDigest>,
    },
    /// PATCH that sends a session the body.
    Chunk {
        name: RepoName,
        at: UploadRef,
        range: Extent,
    },
    /// PUT that closes a session behind the body.
    Close {
        name: RepoName,
        at: UploadRef,
        range: Extent,
        digest: Option<BlobDigest>,
    },
}

/// What a head says beside its path: its method, its query, and the range of its body.
#[derive(Clone, Copy)]
struct Parts<'h> {
    method: Method,
    query: &'h [u8],
    range: Extent,
}

/// The method that a text is, exactly.
fn method_of(text: &[u8]) -> Method
    ensures { result ≡ method_of text.now }
{
    if text == b"GET".as_slice() {
        Method::Get
    } else if text == b"HEAD".as_slice() {
        Method::Head
    } else if text == b"POST".as_slice() {
        Method::Post
    } else if text == b"PATCH".as_slice() {
        Method::Patch
    } else if text == b"PUT".as_slice() {
        Method::Put
    } else {
        Method::Other
    }
}

/// A request that isn't let through to the service.
fn refused(refusal: Refusal) -> HeadAsk
    ensures { result ≡ HeadAsk.Ready (Ask.Refused refusal) }
{
    HeadAsk::Ready(Ask::Refused(refusal))
}

/// The name that a text is, if it is one.
fn name_of(alloc: Global, text: &[u8]) -> Result<Option<RepoName>, AllocError>
    ensures { IfOk result (λ o. o ≡ named text.now) }
{
    match RepoName::read(alloc, text) {
        Ok(name) => Ok(Some(name)),
        Err(NameFault::NotAName) => Ok(None),
        Err(NameFault::TooLong) => Ok(None),
        Err(NameFault::NoMemory) => Err(AllocError),
    }
}

/// GET and HEAD of the base path.
fn base_ask(method: Method) -> HeadAsk
    ensures { result ≡ base_ask method }
{
    match method {
        Method::Get | Method::Head => HeadAsk::Ready(Ask::Base),
        _ => refused(Refusal::Method(Form::Base)),
    }
}

/// GET and HEAD of a blob.
fn blob_ask(alloc: Global, method: Method, name: &[u8], tail: &[u8]) -> Result<HeadAsk, AllocError>
    ensures { IfOk result (λ ask. ask ≡ blob_ask (named name.now) tail.now method) }
{
    let Some(name) = name_of(alloc, name)? else {
        return Ok(refused(Refusal::BadName));
    };
    let head = match method {
        Method::Get => false,
        Method::Head => true,
        _ => return Ok(refused(Refusal::Method(Form::Blob))),
    };
    match BlobDigest::read(tail) {
        Some(digest) => Ok(HeadAsk::Ready(Ask::Has { name, digest, head })),
        None => Ok(refused(Refusal::BadDigest)),
    }
}

/// A mount, or an opening if its digest or its source is unreadable.
fn mount_ask(
    alloc: Global,
    name: RepoName,
    digest: Option<BlobDigest>,
    query: &[u8],
) -> Result<HeadAsk, AllocError>
    ensures { IfOk result (λ ask.
        ask ≡ mount_ask name digest (option_and_then named (parameter (codes "from") query.now))) }
{
    let source = match parameter(alloc, query, "from")? {
        Some(text) => name_of(alloc, text.as_str().as_bytes())?,
        None => None,
    };
    Ok(HeadAsk::IfBodiless(match (digest, source) {
        (Some(digest), Some(source)) => Ask::Mount {
            name,
            digest,
            source,
        },
        _ => Ask::Opening { name },
    }))
}

/// POST to a repository's uploads: a mount, a whole blob if the query has its digest, and else an opening.
fn uploads_ask(alloc: Global, name: &[u8], parts: &Parts<'_>) -> Result<HeadAsk, AllocError>
    ensures { IfOk result
        (λ ask. ask ≡ uploads_ask (named name.now) parts.now.method parts.now.query.now) }
{
    let Some(name) = name_of(alloc, name)? else {
        return Ok(refused(Refusal::BadName));
    };
    let Method::Post = parts.method else {
        return Ok(refused(Refusal::Method(Form::Uploads)));
    };
    if let Some(text) = parameter(alloc, parts.query, "mount")? {
        let digest = BlobDigest::read(text.as_str().as_bytes());
        return mount_ask(alloc, name, digest, parts.query);
    }
    match parameter(alloc, parts.query, "digest")? {
        Some(text) => Ok(HeadAsk::Single {
            name,
            digest: BlobDigest::read(text.as_str().as_bytes()),
        }),
        None => Ok(HeadAsk::IfBodiless(Ask::Opening { name })),
    }
}

/// GET, HEAD, PATCH and PUT of an upload.
fn upload_ask(
    alloc: Global,
    name: &[u8],
    tail: &[u8],
    parts: &Parts<'_>,
) -> Result<HeadAsk, AllocError>
    ensures { IfOk result (λ ask. ask
        ≡ upload_ask (named name.now) (reference_of tail.now) parts.now.method parts.now.query.now
        parts.now.range) }
{
    let Some(name) = name_of(alloc, name)? else {
        return Ok(refused(Refusal::BadName));
    };
    let range = parts.range;
    match (parts.method, UploadRef::read(tail)) {
        (Method::Post | Method::Other, _) => Ok(refused(Refusal::Method(Form::Upload))),
        (_, None) => Ok(refused(Refusal::NoUpload)),
        (Method::Get | Method::Head, Some(at)) => Ok(HeadAsk::Ready(Ask::Status { name, at })),
        (Method::Patch, Some(at)) => Ok(HeadAsk::Chunk { name, at, range }),
        (Method::Put, Some(at)) => {
            let digest = match parameter(alloc, parts.query, "digest")? {
                Some(text) => BlobDigest::read(text.as_str().as_bytes()),
                None => None,
            };
            Ok(HeadAsk::Close {
                name,
                at,
                range,
                digest,
            })
        }
    }
}

/// What a request for this path asks.
fn ask_at(alloc: Global, path: &[u8], parts: &Parts<'_>) -> Result<HeadAsk, AllocError>
    ensures { IfOk result (AsksAt path.now parts.now.method parts.now.query.now parts.now.range) }
{
    match form_of(path) {
        PathForm::Base => Ok(base_ask(parts.method)),
        PathForm::Blob(name, tail) => blob_ask(alloc, parts.method, name, tail),
        PathForm::Uploads(name) => uploads_ask(alloc, name, parts),
        PathForm::Upload(name, tail) => upload_ask(alloc, name, tail, parts),
        PathForm::NoForm => Ok(refused(Refusal::NoForm)),
    }
}

/// What a head asks.
pub fn ask_of(
    alloc: Global,
    method: &[u8],
    target: &[u8],
    range: Extent,
) -> Result<HeadAsk, AllocError>
    ensures { IfOk result (HeadAsks method.now target.now range) }
{
    match Uri::from_bytes(alloc, target) {
        Ok(uri) => {
            let parts = Parts {
                method: method_of(method),
                query: uri.query().unwrap_or("").as_bytes(),
                range,
            };
            ask_at(alloc, uri.path().as_bytes(), &parts)
        }
        Err(UriError::Invalid(_)) => Ok(refused(Refusal::NoForm)),
        Err(UriError::OutOfMemory) => Err(AllocError),
    }
}

impl HeadAsk {
    /// The ask with its body. One that carries none drops it, and an opening and a mount refuse it.
    pub fn with_body(self, body: Body) -> Ask
        ensures { result ≡ with_body self body }
    {
        match self {
            HeadAsk::Ready(ask) => ask,
            HeadAsk::IfBodiless(ask) => {
                if body.len() == 0 {
                    ask
                } else {
                    Ask::Refused(Refusal::HasBody)
                }
            }
            HeadAsk::Single { name, digest } => Ask::Single { name, digest, body },
            HeadAsk::Chunk { name, at, range } => Ask::Chunk {
                name,
                at,
                range,
                body,
            },
            HeadAsk::Close {
                name,
                at,
                range,
                digest,
            } => Ask::Close {
                name,
                at,
                range,
                digest,
                body,
            },
        }
    }

    /// Whether it can be asked without its body (`with_gone`).
    pub fn may_lack_body(&self) -> bool {
        match self {
            HeadAsk::Ready(_) | HeadAsk::IfBodiless(_) | HeadAsk::Chunk { .. } => true,
            HeadAsk::Single { .. } | HeadAsk::Close { .. } => false,
        }
    }

    /// The ask with a body that was let go. `None`: it can't be asked so, since its digest is that of the body.
    pub fn with_gone(self, gone: Gone) -> Option<Request>
        ensures { IfSome result (λ request. ask_in request ≡ with_body self gone) }
    {
        match self {
            HeadAsk::Ready(ask) => Some(Request::Held(ask)),
            HeadAsk::IfBodiless(ask) => {
                if gone.len() == 0 {
                    Some(Request::Held(ask))
                } else {
                    Some(Request::Held(Ask::Refused(Refusal::HasBody)))
                }
            }
            HeadAsk::Chunk { name, at, range } => Some(Request::Gone(GoneChunk {
                name,
                at,
                range,
                body: gone,
            })),
            HeadAsk::Single { .. } | HeadAsk::Close { .. } => None,
        }
    }

    /// The ask with what came of its body, which is hashed at a place. `None`: it can't be asked without it.
    pub fn with_what_came<P: HashPlace>(self, body: Coming, place: &P) -> Option<Request>
        ensures { IfSome result (λ request. ask_in request ≡ with_body self (bytes_in body)) }
    {
        match body {
            // It may stay as long as its blob does, so the room that it grew by in advance goes.
            Coming::Held(body) => Some(Request::Held(self.with_body(body.finish(place)))),
            Coming::Gone(gone) => self.with_gone(gone),
        }
    }

    /// By what the body is hashed as it comes: if the service may want the hash of just its bytes. A small chunk, and a
    /// body that comes behind chunks, the service hashes with what is around it; `filled` is an upload that is known to
    /// have bytes. What a chunk will be asked for, its close says; most say SHA-256.
    pub fn hash_wanted(&self, framing: Framing, filled: Option<UploadRef>) -> Option<Algorithm> {
        let is_small = matches!(framing, Framing::Length(length) if length <= 65_536);
        match self {
            HeadAsk::Single { digest, .. } => Some((*digest)?.algorithm()),
            HeadAsk::Chunk { at, range, .. }
                if !is_small && filled != Some(*at) && may_be_first(*range) => {
                Some(Algorithm::Sha256)
            }
            HeadAsk::Close {
                at,
                range,
                digest,
                ..
            } if filled != Some(*at) && may_be_first(*range) => Some((*digest)?.algorithm()),
            _ => None,
        }
    }
}

/// Whether a body of this range may be the first of its upload.
fn may_be_first(range: Extent) -> bool {
    match range {
        Extent::Absent => true,
        Extent::Bad => false,
        Extent::Given(range) => range.first == 0,
    }
}
