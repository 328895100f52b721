//! Uploads into a service, asked of it directly.

use sha2::{Digest, Sha256};
use std::alloc::Global;
use std::io;
use upload_bytes::{Body, InPlace};
use upload_names::{Algorithm, BlobDigest, NameFault, RepoName, UploadRef};
use upload_service::{Answer, Ask, Extent, Limits, Service};

/// The error if the service answers what it must not.
fn unexpected() -> io::Error {
    io::Error::from(io::ErrorKind::InvalidData)
}

pub(crate) fn new_service(alloc: Global) -> Service {
    let limits = Limits {
        max_blob: 17_179_869_184,
        max_body: 2_147_483_648,
        max_open: 1_024,
        max_idle: 3_600,
    };
    Service::new(alloc, limits)
}

fn repository(alloc: Global) -> io::Result<RepoName> {
    RepoName::read(alloc, b"lib/a").map_err(|fault| match fault {
        NameFault::NoMemory => io::Error::from(io::ErrorKind::OutOfMemory),
        NameFault::NotAName | NameFault::TooLong => unexpected(),
    })
}

/// A body of `size` bytes, each of them `byte`.
pub(crate) fn body_of(alloc: Global, size: usize, byte: u8) -> io::Result<Body> {
    let mut bytes = Vec::with_capacity(alloc, size)?;
    bytes.resize(size, byte)?;
    Ok(Body::of(alloc, bytes))
}

/// `count` bodies of one size.
pub(crate) fn bodies_of(alloc: Global, count: u32, size: usize) -> io::Result<Vec<Body>> {
    let mut bodies = Vec::with_capacity(alloc, count as usize)?;
    for i in 0..count {
        bodies.push(body_of(alloc, size, (i % 251) as u8)?)?;
    }
    Ok(bodies)
}

/// The SHA-256 of the bodies, one behind another.
pub(crate) fn hash_of(bodies: &[Body]) -> [u8; 32] {
    let mut hasher = Sha256::new();
    for body in bodies {
        body.hash_into(&mut hasher);
    }
    hasher.finalize()
}

/// The digest that has this hash.
pub(crate) fn digest_of(hash: [u8; 32]) -> io::Result<BlobDigest> {
    let mut text = *b"sha256:0000000000000000000000000000000000000000000000000000000000000000";
    hex::encode_to_slice(hash, &mut text[7..]).map_err(|_| unexpected())?;
    BlobDigest::read(&text).ok_or_else(unexpected)
}

pub(crate) fn open(service: &mut Service, alloc: Global) -> io::Result<UploadRef> {
    let opening = Ask::Opening {
        name: repository(alloc)?,
    };
    match service.step(opening, [0; 12], 0) {
        Answer::Begun { at, .. } => Ok(at),
        _ => Err(unexpected()),
    }
}

/// Sends the session its next chunk, and has its hash catch up, as a keeper does.
pub(crate) fn send(
    service: &mut Service,
    alloc: Global,
    at: UploadRef,
    body: Body,
) -> io::Result<()> {
    let chunk = Ask::Chunk {
        name: repository(alloc)?,
        at,
        range: Extent::Absent,
        body,
    };
    match service.step(chunk, [0; 12], 0) {
        Answer::Taken { at, .. } => {
            let _ = service.catch_up(&InPlace, &at, Algorithm::Sha256);
            Ok(())
        }
        _ => Err(unexpected()),
    }
}

/// Closes the session with no last chunk, and says whether the blob was stored.
pub(crate) fn close(
    service: &mut Service,
    alloc: Global,
    at: UploadRef,
    digest: BlobDigest,
) -> io::Result<bool> {
    let close = Ask::Close {
        name: repository(alloc)?,
        at,
        range: Extent::Absent,
        digest: Some(digest),
        body: Body::of(alloc, Vec::new(alloc)),
    };
    match service.step(close, [0; 12], 0) {
        Answer::Stored { .. } => Ok(true),
        Answer::Refused { .. } => Ok(false),
        _ => Err(unexpected()),
    }
}

/// Opens a session and sends it all bodies.
pub(crate) fn fill(
    service: &mut Service,
    alloc: Global,
    bodies: Vec<Body>,
) -> io::Result<UploadRef> {
    let at = open(service, alloc)?;
    for body in bodies {
        send(service, alloc, at, body)?;
    }
    Ok(at)
}

/// Uploads the four bytes of a number by a session of its own, and says whether the blob was stored.
pub(crate) fn upload_number(service: &mut Service, alloc: Global, number: u32) -> io::Result<bool> {
    let bytes = number.to_be_bytes();
    let digest = BlobDigest::of_sha256(&bytes);
    let at = open(service, alloc)?;
    send(service, alloc, at, Body::of(alloc, bytes.to_vec(alloc)?))?;
    close(service, alloc, at, digest)
}
