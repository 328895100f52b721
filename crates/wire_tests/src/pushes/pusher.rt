//! A pusher that gives up.
ghost use Rattle.std.specs.Prelude.{◌≤◌};

use super::{End, given_up};
use crate::expect::same;
use crate::texts::UPLOAD;
use std::alloc::{AllocError, Global};
use std::test::Fail;
use upload_client::Heard;
use upload_names::{BlobDigest, Bytes, NameFault, RepoName};
use upload_push::{PushAsk, PushStep, Pusher};

fn pusher(alloc: Global, tries: u32) -> Result<Pusher, NameFault>
    requires { tries ≤ 10 }
{
    let name = RepoName::read(alloc, b"lib/a")?;
    Ok(Pusher::new(name, BlobDigest::of_sha256(b"abcde"), 5, 2, tries))
}

/// A status that a pusher hears, or 0 if it hears nothing, with a place or an error code.
type Reply = (u16, &'static [u8], &'static [u8]);

fn bytes(alloc: Global, text: &[u8]) -> Result<Option<Bytes>, AllocError> {
    if text.is_empty() {
        return Ok(None);
    }
    Ok(Some(Bytes::of(text.to_vec(alloc)?)))
}

fn heard(alloc: Global, (status, place, code): Reply) -> Result<Option<Heard>, AllocError> {
    if status == 0 {
        return Ok(None);
    }
    Ok(Some(Heard {
        status,
        place: bytes(alloc, place)?,
        upto: None,
        code: bytes(alloc, code)?,
    }))
}

/// What a pusher does next.
#[derive(Clone, Copy, Debug, PartialEq, Eq)]
enum Next {
    Chunk,
    Status,
    Head,
    GaveUp(End),
    Other,
}

fn next_of(pusher: &Pusher) -> Next {
    match pusher.next() {
        PushStep::Ask(PushAsk::Chunk { .. }) => Next::Chunk,
        PushStep::Ask(PushAsk::Status { .. }) => Next::Status,
        PushStep::Ask(PushAsk::Head) => Next::Head,
        PushStep::GaveUp(why) => Next::GaveUp(given_up(why)),
        _ => Next::Other,
    }
}

/// What a pusher without any try hears at its opening, and why it gives up then.
static GIVEN_UP: [(Reply, End); 4] = [
    ((0, b"", b""), End::OutOfTries),
    ((503, b"", b""), End::OutOfTries),
    ((202, b"", b""), End::BadServer),
    ((500, b"", b""), End::Refused(500)),
];

/// What a new pusher without tries does next, by what it hears.
fn next_at_once(alloc: Global, reply: Reply) -> Result<Next, Fail> {
    let heard = heard(alloc, reply)?;
    let mut pusher = pusher(alloc, 0)?;
    pusher.heard(heard);
    Ok(next_of(&pusher))
}

#[test]
fn a_pusher_gives_up(rt: HostRuntime) -> Result<(), Fail> {
    for (reply, end) in GIVEN_UP.iter() {
        let found = next_at_once(rt.alloc(), *reply)?;
        same(&rt, found, Next::GaveUp(*end), &reply.0);
    }
    Ok(())
}

/// What a pusher with one try hears, in order, and what it does then.
static LOST_UPLOAD: [(Reply, Next); 5] = [
    ((202, UPLOAD, b""), Next::Chunk),
    ((0, b"", b""), Next::Status),
    ((404, b"", b""), Next::Head),
    ((404, b"", b"BLOB_UNKNOWN"), Next::GaveUp(End::NoBlob)),
    ((200, b"", b""), Next::GaveUp(End::NoBlob)),
];

#[test]
fn a_pusher_looks_for_a_lost_upload(rt: HostRuntime) -> Result<(), Fail> {
    let mut pusher = pusher(rt.alloc(), 1)?;
    for (at, (reply, next)) in LOST_UPLOAD.iter().enumerate() {
        pusher.heard(heard(rt.alloc(), *reply)?);
        same(&rt, next_of(&pusher), *next, &at);
    }
    Ok(())
}
