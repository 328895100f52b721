//! Bodies that were read whole, apart from their shelf.
ghost use Rattle.std.specs.Prelude.{◌≡◌, [], IfSome, IsTrue};
ghost use Rattle.bodies.specs.Reader.{bytes_of, is_over};

use crate::hint::{Bond, HintedClose};
use crate::reader::BodyReader;
use std::alloc::Global;
use std::collections::VecDeque;
use upload_bytes::{Body, BodyBuilder, Front, InPlace, Received};
use upload_names::Algorithm;

/// So many bytes of a file are read at once.
const PIECE: usize = 65536;

/// A file of which nothing was read.
#[derive(Drop)]
pub struct Unread {
    pub reader: BodyReader,
    ghost is_unread: { bytes_of reader ≡ [] },
}

/// A body that was read from its front to its end.
#[derive(Drop)]
pub struct Whole {
    pub reader: BodyReader,
    pub body: Body,
    ghost is_over: { IsTrue (is_over reader) },
    ghost is_read: { bytes_of reader ≡ body },
}

/// What was read for a hint.
#[derive(Drop)]
pub struct Wholes {
    /// The bodies, each in a file.
    pub bodies: VecDeque<Whole>,
    /// The body that is in several files.
    pub joined: Option<Body>,
    /// What an upload has received, for a close without a file.
    pub front: Option<Front>,
}

/// Puts all that a file has behind a body, which may be kept in that file then. None if a read fails or there is no
/// memory.
fn read_rest(reader: &mut BodyReader, body: &mut BodyBuilder) -> Option<()>
    ensures read { IfSome result (λ _. bytes_of reader.old ≡ body.old
        → bytes_of reader.new ≡ body.new) }
    ensures over { IfSome result (λ _. IsTrue (is_over reader.new)) }
{
    let mut piece = [0; PIECE];
    for _ in 0..u64::MAX {
        let n = reader.read(&mut piece).ok()?;
        if n == 0 {
            reader.note_end(body);
            return Some(());
        }
        body.extend(&InPlace, &piece[..n]).ok()?;
    }
    None
}

/// The whole body, hashed as it comes if that is asked for. None if a read fails or there is no memory.
fn read_whole(file: Unread, alloc: Global, hashed: Option<Algorithm>) -> Option<Whole> {
    let mut reader = file.reader;
    let mut body = BodyBuilder::new(alloc, hashed);
    read_rest(&mut reader, &mut body)?;
    let body = body.finish(&InPlace);
    Some(Whole { reader, body })
}

/// The bodies of a hint. None if a read fails or there is no memory.
pub fn read_hinted(
    files: Vec<Unread>,
    bond: Bond,
    hashed: Option<Algorithm>,
    alloc: Global,
) -> Option<Wholes> {
    match bond {
        Bond::Apart => read_each(files, hashed, alloc),
        Bond::OneBody => read_joined(files, hashed, alloc),
        Bond::OneUpload(close) => read_upload(files, close, alloc),
    }
}

/// Bodies by themselves, each hashed as it comes if that is asked for.
fn read_each(files: Vec<Unread>, hashed: Option<Algorithm>, alloc: Global) -> Option<Wholes> {
    let mut bodies = VecDeque::new(alloc);
    for file in files {
        bodies.push_back(read_whole(file, alloc, hashed)?).ok()?;
    }
    Some(Wholes {
        bodies,
        joined: None,
        front: None,
    })
}

/// One body, hashed as it comes if that is asked for.
fn read_joined(files: Vec<Unread>, hashed: Option<Algorithm>, alloc: Global) -> Option<Wholes> {
    let mut body = BodyBuilder::new(alloc, hashed);
    for file in files {
        let mut reader = file.reader;
        read_rest(&mut reader, &mut body)?;
    }
    Some(Wholes {
        bodies: VecDeque::new(alloc),
        joined: Some(body.finish(&InPlace)),
        front: None,
    })
}

/// The bodies of an upload, hashed one behind another: that of its close carries the hash. If that has no file, what
/// the upload has received carries it.
fn read_upload(files: Vec<Unread>, close: HintedClose, alloc: Global) -> Option<Wholes> {
    let mut files = files;
    let last = if close.has_file { files.pop() } else { None };
    let mut received = Received::new(alloc);
    let mut bodies = VecDeque::new(alloc);
    for file in files {
        let whole = read_whole(file, alloc, None)?;
        take_in(&mut received, &whole.body, alloc, close.algorithm)?;
        bodies.push_back(whole).ok()?;
    }
    let mut front = Some(received.front(&InPlace, alloc, close.algorithm)?);
    if let Some(file) = last {
        let last = read_whole(file, alloc, None)?;
        bodies.push_back(hashed_behind(last, front.take()?)).ok()?;
    }
    Some(Wholes {
        bodies,
        joined: None,
        front,
    })
}

/// Has what an upload received take in a body, and hashes it. None if there is no memory.
fn take_in(
    received: &mut Received,
    body: &Body,
    alloc: Global,
    algorithm: Algorithm,
) -> Option<()> {
    let share = body.share(alloc).ok()?;
    received.len().checked_add(share.len() as u64)?;
    received.append(share).ok()?;
    let _ = received.catch_up(&InPlace, alloc, algorithm);
    Some(())
}

/// The same body, hashed behind what its upload has received.
fn hashed_behind(whole: Whole, front: Front) -> Whole {
    let Whole { reader, body } = whole;
    Whole {
        reader,
        body: body.hashed_behind(front),
    }
}
