//! Which bodies a start reads ahead, by the entries that name them, and what it has of them then. No contract tells it,
//! nor does a server show it: what isn't read ahead is read as it is asked for.

use crate::ended::{Done, Ended, holds, is_done, is_over};
use crate::entries::name_of;
use crate::folders::{new_folder, new_shelf, put};
use bodies::{AheadShelf, Hint, Shelf};
use std::alloc::{AllocError, Global};
use std::fs;
use std::process::Abort;
use std::thread::Threads;
use upload_bytes::Body;
use upload_journal::{BodyFile, BodyFiles, Entry, KeptAnswer, KeptAsk, KeptBody, KeptExchange};
use upload_names::{BlobDigest, UploadRef};
use upload_store::Hints;

/// What an entry tells: a whole blob, a chunk of the upload with this number, or its close.
#[derive(Clone, Copy)]
enum Kept {
    Single,
    Chunk(u32),
    Close(u32),
}

/// Entries, and the numbers of their bodies' files. Without any the body is in its entry.
static ENTRIES: [(Kept, &[u64]); 14] = [
    (Kept::Chunk(1), &[1]),
    (Kept::Chunk(2), &[2]),
    (Kept::Chunk(1), &[3]),
    (Kept::Close(1), &[]),
    (Kept::Single, &[4]),
    (Kept::Single, &[]),
    (Kept::Close(2), &[5]),
    (Kept::Single, &[6, 7]),
    // its file isn't there
    (Kept::Single, &[8]),
    // more than two files are too much
    (Kept::Single, &[9, 10, 11]),
    (Kept::Chunk(3), &[12]),
    (Kept::Chunk(3), &[13]),
    (Kept::Chunk(3), &[14]),
    (Kept::Close(3), &[]),
];

/// What a shelf is asked for.
#[derive(Clone, Copy)]
enum Asked {
    Ready(u64),
    Joined(u64),
    Front(u32),
}

/// How many bytes were read ahead, and whether they carry the hash of their blob.
type Found = Option<(u64, bool)>;

/// What a start asks for, in turn.
static ASKED: [(Asked, Found); 18] = [
    (Asked::Ready(1), Some((4, false))),
    (Asked::Ready(2), Some((4, false))),
    (Asked::Front(1), None),
    (Asked::Ready(3), Some((4, false))),
    (Asked::Front(1), Some((8, true))),
    (Asked::Front(1), None),
    (Asked::Ready(4), Some((4, true))),
    (Asked::Ready(4), None),
    (Asked::Ready(5), Some((4, false))),
    (Asked::Ready(6), None),
    (Asked::Joined(6), Some((8, true))),
    (Asked::Joined(6), None),
    (Asked::Ready(8), None),
    (Asked::Joined(9), None),
    (Asked::Ready(12), Some((4, false))),
    (Asked::Ready(13), Some((4, false))),
    (Asked::Ready(14), Some((4, false))),
    (Asked::Front(3), None),
];

fn kept_body(alloc: Global, numbers: &[u64]) -> Result<KeptBody, AllocError> {
    if numbers.is_empty() {
        return Ok(KeptBody::Here(Body::of(alloc, Vec::new(alloc))));
    }
    let mut files = Vec::new(alloc);
    for number in numbers {
        files.push(BodyFile {
            number: *number,
            len: 4,
        })?;
    }
    Ok(KeptBody::InFiles(BodyFiles::of(files)))
}

fn at(number: u32) -> UploadRef {
    UploadRef::make(number, [0; 12])
}

fn entry_of(alloc: Global, kept: Kept, numbers: &[u64]) -> Result<Entry, AllocError> {
    let name = name_of(alloc, b"lib/a")?;
    let body = kept_body(alloc, numbers)?;
    let digest = BlobDigest::of_sha256(b"abc");
    let ask = match kept {
        Kept::Single => KeptAsk::Single { name, digest, body },
        Kept::Chunk(number) => KeptAsk::Chunk {
            name,
            at: at(number),
            range: None,
            body,
        },
        Kept::Close(number) => KeptAsk::Close {
            name,
            at: at(number),
            range: None,
            digest,
            body,
        },
    };
    Ok(Entry::Exchange(KeptExchange {
        ask,
        secret: [0; 12],
        now: 0,
        answer: KeptAnswer::Stored(digest),
    }))
}

/// Copies of the hints that the entries give.
fn hints(alloc: Global) -> Result<Vec<Hint>, AllocError> {
    let mut hints = Hints::new(alloc, 8);
    for (kept, numbers) in ENTRIES.iter() {
        hints.note(&entry_of(alloc, *kept, numbers)?);
    }
    let mut copies = Vec::new(alloc);
    for hint in hints.as_slice() {
        copies.push(hint.copy(alloc)?)?;
    }
    Ok(copies)
}

fn find<S: Shelf>(shelf: &mut S, asked: Asked) -> Found {
    let body = match asked {
        Asked::Ready(number) => shelf.ready(number)?,
        Asked::Joined(first) => shelf.joined(first)?,
        Asked::Front(number) => return shelf.front(&at(number)).map(|front| (front.len(), true)),
    };
    Some((body.len() as u64, body.sha256().is_some()))
}

/// Whether all was read ahead, and hashed. What wasn't read is told so, and a body that wasn't hashed is whole.
fn find_all<S: Shelf>(rt: &impl Abort, shelf: &mut S) -> bool {
    let mut are_all = true;
    for (place, (asked, wanted)) in ASKED.iter().enumerate() {
        let found = find(shelf, *asked);
        let unhashed = wanted.map(|(len, _)| (len, false));
        let is_right = found == *wanted || found == unhashed || found.is_none();
        holds(rt, is_right, &place);
        are_all = are_all && found == *wanted;
    }
    are_all
}

/// Without memory somewhere a body isn't read ahead.
fn check_ahead<R: Abort + Threads>(host: &HostRuntime, rt: &R) -> Done {
    let folder = new_folder(host, "ahead")?;
    let mut shelf = new_shelf(host, &folder)?;
    for number in (1..8).chain(9..15) {
        put(&mut shelf, number, b"four")?;
    }
    let hints = hints(host.alloc())?;
    let mut shelf = AheadShelf::new(rt, host.alloc(), shelf, hints, 1_000_000);
    let are_all = find_all(rt, &mut shelf);
    drop(shelf.into_inner());
    fs::remove_dir_all(host, "ahead")?;
    if are_all {
        Ok(())
    } else {
        Err(Ended::NoMemory)
    }
}

#[test]
fn a_refused_growth_reads_less_ahead(rt: HostRuntime) {
    if !is_over(&rt, check_ahead(&rt, &rt)) {
        is_done(&rt, check_ahead(&rt, &rt));
    }
}
