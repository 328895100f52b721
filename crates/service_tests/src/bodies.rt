//! Bodies that are hashed, and written to a file, as they come; and what they are granted of a room.

use crate::asks::{Done, check};
use std::alloc::{AllocError, Global};
use std::io::ErrorKind;
use std::process::Abort;
use std::thread::Threads;
use test_support::content_of;
use upload_bytes::{
    Body, BodyBuilder, Grant, HashPlace, InPlace, InThreads, Room, Spool, Spooling,
};
use upload_names::Algorithm::{Sha256, Sha512};
use upload_names::{Algorithm, BlobDigest};

/// The bytes of a part of a body.
const PART_SIZE: usize = 4_194_240;

/// As many bytes as a body has at most that gets no file.
const MOST_WITHOUT: usize = 65_536;

/// Extends a body. One growth may be refused.
fn extend<P: HashPlace>(body: &mut BodyBuilder, place: &P, piece: &[u8]) -> Done {
    match body.extend(place, piece) {
        Err(AllocError) => body.extend(place, piece),
        Ok(()) => Ok(()),
    }
}

/// The body that a content is read into at a place.
fn read_at<P: HashPlace>(
    alloc: Global,
    place: &P,
    hashed: Option<Algorithm>,
    bytes: &[u8],
    step: usize,
) -> Result<Body, AllocError> {
    let mut body = BodyBuilder::new(alloc, hashed);
    for piece in bytes.chunks(step.max(1)) {
        extend(&mut body, place, piece)?;
    }
    Ok(body.finish(place))
}

/// Whether a body's pieces are this content, one after another.
fn holds(body: &Body, content: &[u8]) -> bool {
    let pieces = body.pieces();
    let mut left = content;
    for part in pieces.parts.iter() {
        match left.strip_prefix(part.as_slice()) {
            Some(later) => left = later,
            None => return false,
        }
    }
    left == pieces.last.as_slice()
}

/// Whether a body carries the hash that was asked for, and no other.
fn carries(body: &Body, hashed: Option<Algorithm>) -> bool {
    body.sha256().is_some() == (hashed == Some(Sha256))
        && body.sha512().is_some() == (hashed == Some(Sha512))
}

/// Whether the file of a body has its content, if it could be written. A short body has none, nor has one without a
/// spool.
fn is_filed(body: &Body, content: &[u8], is_spooled: bool) -> bool {
    match body.file() {
        Some(Ok(file)) => file.in_memory() == Some(content) && content.len() > MOST_WITHOUT,
        // A growth was refused.
        Some(Err(error)) => error.kind() == ErrorKind::OutOfMemory,
        None => !is_spooled || content.len() <= MOST_WITHOUT,
    }
}

/// How a content is read, and its digests.
#[derive(Clone, Copy)]
struct Reading {
    /// How many bytes come at once.
    step: usize,
    sha256: BlobDigest,
    sha512: BlobDigest,
    is_spooled: bool,
}

/// Whether the body that a content is read into carries its hash. Ends a test in which it isn't the content.
fn reads<P: HashPlace>(
    rt: &impl Abort,
    alloc: Global,
    place: &P,
    hashed: Option<Algorithm>,
    bytes: &[u8],
    how: &Reading,
) -> Result<bool, AllocError> {
    let body = read_at(alloc, place, hashed, bytes, how.step)?;
    let is_content = holds(&body, bytes)
        && body.digest(Sha256) == how.sha256
        && body.digest(Sha512) == how.sha512
        && is_filed(&body, bytes, how.is_spooled);
    check(rt, is_content, bytes.len(), "the content");
    Ok(carries(&body, hashed))
}

/// A body whose hash found no memory has none. One growth may be refused: the next body has its hash.
fn check_at<P: HashPlace>(
    rt: &impl Abort,
    alloc: Global,
    place: &P,
    bytes: &[u8],
    how: &Reading,
) -> Done {
    for hashed in [None, Some(Sha256), Some(Sha512)] {
        let carries = reads(rt, alloc, place, hashed, bytes, how)?
            || reads(rt, alloc, place, hashed, bytes, how)?;
        check(rt, carries, bytes.len(), "the hash");
    }
    Ok(())
}

/// Reads with a spool in memory, by which large bodies get files. One growth for the spool may be refused.
fn check_spooled<R: Abort + Threads>(rt: &R, alloc: Global, bytes: &[u8], how: &Reading) -> Done {
    let spool = match Spool::in_memory(alloc) {
        Err(AllocError) => Spool::in_memory(alloc)?,
        Ok(spool) => spool,
    };
    let place = Spooling::new(rt, Some(&spool));
    check_at(rt, alloc, &place, bytes, how)?;
    Ok(())
}

/// Reads a content at each place.
fn check_body<R: Abort + Threads>(rt: &R, alloc: Global, bytes: &[u8], step: usize) -> Done {
    let how = Reading {
        step,
        sha256: BlobDigest::of(Sha256, bytes),
        sha512: BlobDigest::of(Sha512, bytes),
        is_spooled: false,
    };
    check_at(rt, alloc, &InPlace, bytes, &how)?;
    check_at(rt, alloc, &InThreads(rt), bytes, &how)?;
    let spooled = Reading {
        is_spooled: true,
        ..how
    };
    check_spooled(rt, alloc, bytes, &spooled)
}

/// Reads so many bytes, `step` of them at once. One growth for the content may be refused.
fn check_size<R: Abort + Threads>(rt: &R, alloc: Global, size: usize, step: usize) -> Done {
    let bytes = match content_of(alloc, size) {
        Err(AllocError) => content_of(alloc, size)?,
        Ok(bytes) => bytes,
    };
    check_body(rt, alloc, bytes.as_slice(), step)
}

/// Sizes about that of the shortest body that gets a file, about the end of a part, and one of two parts.
static SIZES: [usize; 5] = [
    0,
    MOST_WITHOUT,
    MOST_WITHOUT + 1,
    PART_SIZE,
    2 * PART_SIZE + 100,
];

#[test]
fn a_body_is_hashed_across_its_parts(rt: HostRuntime) -> Done {
    for size in SIZES.iter() {
        check_size(&rt, rt.alloc(), *size, 65_536)?;
    }
    Ok(())
}

/// It holds whichever growth is refused: `tests/growths.py` has each refused in turn.
#[test]
fn a_refused_growth_leaves_a_body_and_its_hash(rt: HostRuntime) -> Done {
    check_size(&rt, rt.alloc(), 3, 2)
}

/// So it does as a part comes whole: a body that is out of memory then is as before.
#[test]
fn a_refused_growth_leaves_a_body_at_the_end_of_a_part(rt: HostRuntime) -> Done {
    check_size(&rt, rt.alloc(), PART_SIZE + 3, PART_SIZE - 2)
}

/// Whether a body takes over the hash of another, which is by SHA-512.
fn takes_over(alloc: Global, bytes: &[u8], other: &Body) -> Result<bool, AllocError> {
    let body = read_at(alloc, &InPlace, None, bytes, 2)?.hashed_as(other);
    Ok(holds(&body, bytes) && carries(&body, Some(Sha512)))
}

#[test]
fn a_hash_is_taken_over_of_the_same_bytes(rt: HostRuntime) -> Done {
    let hashed = read_at(rt.alloc(), &InPlace, Some(Sha512), b"abc", 3)?;
    check(&rt, takes_over(rt.alloc(), b"abc", &hashed)?, 0, "the same");
    check(&rt, !takes_over(rt.alloc(), b"abd", &hashed)?, 0, "others");
    Ok(())
}

/// How many bytes a room has.
const ROOM: u64 = 10_000_000;

/// A grant covers what it is asked to as long as there is room, and gives back what it is lowered by. What joins it
/// goes with it; once what has no limit joins it, it has none.
fn check_grant(rt: &impl Abort, room: &Room, grant: &mut Grant) -> Done {
    check(rt, room.left() == ROOM - 1_000, 1, "what is left");
    let is_granted = grant.cover(ROOM).is_ok() && room.left() == 0;
    let is_more = room.grant(1).is_some() || grant.cover(ROOM + 1).is_ok();
    check(rt, is_granted && !is_more, 2, "all is granted");
    grant.lower(500);
    check(rt, room.left() == ROOM - 500, 3, "what it is lowered by");
    grant.join(room.grant(300).ok_or(AllocError)?);
    check(rt, room.left() == ROOM - 800, 4, "what joins it");
    grant.join(Grant::unlimited());
    let is_unlimited = grant.cover(u64::MAX).is_ok() && !grant.is_limited();
    check(rt, is_unlimited && room.left() == ROOM, 5, "no limit");
    Ok(())
}

#[test]
fn grants_come_back(rt: HostRuntime) -> Done {
    let room = Room::of(rt.alloc(), ROOM)?;
    drop(room.grant(700));
    let mut grant = room.grant(1_000).ok_or(AllocError)?;
    check_grant(&rt, &room, &mut grant)
}
