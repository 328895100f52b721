//! What a reply hands out of a file: all that it was given, or less and the end of the reply.
ghost use Rattle.std.specs.Prelude.{◌≡◌, IfOk};

use crate::expect::{holds, same};
use http_wire::{ByteSink, Excerpt, Failed, Gather, Transcript};
use std::alloc::{AllocError, Global};
use std::test::Fail;
use std::{fs, io};
use upload_bytes::{FilePart, Spool, Stretch, SyncedFile};
use upload_texts::put_stretches;

const HEAD: &[u8] = b"head";

/// Takes so many bytes at a time, out of memory and of files.
#[derive(Drop)]
struct Taker {
    items: Vec<u8>,
    step: usize,
    taken: Transcript,
    failed: u64,
}

impl ByteSink for Taker {
    ghost use Rattle.std.specs.Prelude.{None, true, ◌^◌};

    ghost state = { λ s. record {
      taken = s.taken.bytes;
      contents = None;
      writes = 2 ^ 64;
      failed_writes = s.failed;
      flushed = true;
    } };

    fn write(&mut self, buf: &[u8]) -> Result<usize, Failed> {
        let count = buf.len().min(self.step);
        if (count > 0 || buf.is_empty()) && self.items.extend_from_slice(&buf[..count]).is_ok() {
            self.taken = self.taken.and(&buf[..count]);
            return Ok(count);
        }
        self.failed = self.failed.saturating_add(1);
        Err(Failed)
    }

    fn write_excerpt(&mut self, excerpt: &Excerpt<'_>) -> Result<usize, Failed> {
        let came = excerpt.as_slice();
        let count = came.len().min(self.step);
        if count > 0 && self.items.extend_from_slice(&came[..count]).is_ok() {
            self.taken = self.taken.and_excerpt(excerpt, count);
            return Ok(count);
        }
        self.failed = self.failed.saturating_add(1);
        Err(Failed)
    }

    fn flush(&mut self) -> Result<(), Failed> {
        Ok(())
    }
}

/// A file of so many bytes, of which this many are left when it is read; so many are taken at a time.
#[derive(Clone, Copy)]
struct Row {
    name: &'static str,
    len: usize,
    left: Option<usize>,
    step: usize,
}

/// The pieces that are read of a file are of 1 MiB.
const PIECE: usize = 1_048_576;

const ROWS: [Row; 9] = [
    Row {
        name: "one byte",
        len: 1,
        left: Some(1),
        step: PIECE,
    },
    Row {
        name: "less than a piece",
        len: PIECE - 1,
        left: Some(PIECE - 1),
        step: PIECE,
    },
    Row {
        name: "a piece",
        len: PIECE,
        left: Some(PIECE),
        step: PIECE,
    },
    Row {
        name: "a piece and a byte",
        len: PIECE + 1,
        left: Some(PIECE + 1),
        step: PIECE,
    },
    Row {
        name: "by steps of another size",
        len: 2 * PIECE + 7,
        left: Some(2 * PIECE + 7),
        step: 999_983,
    },
    Row {
        name: "a file that is gone",
        len: PIECE,
        left: None,
        step: PIECE,
    },
    Row {
        name: "an empty one in its place",
        len: 1,
        left: Some(0),
        step: PIECE,
    },
    Row {
        name: "one that lacks its last byte",
        len: PIECE + 1,
        left: Some(PIECE),
        step: PIECE,
    },
    Row {
        name: "one that was cut within its first piece",
        len: PIECE,
        left: Some(PIECE - 1),
        step: PIECE,
    },
];

/// So many bytes, of which no two pieces are alike.
fn content_of(alloc: Global, len: usize) -> Result<Vec<u8>, AllocError> {
    let mut pattern = Vec::new(alloc);
    for byte in 0..251u8 {
        pattern.push(byte)?;
    }
    let mut content = Vec::with_capacity(alloc, len)?;
    for _ in 0..len / 251 + 1 {
        let count = pattern.len().min(len.saturating_sub(content.len()));
        content.extend_from_slice(&pattern.as_slice()[..count])?;
    }
    Ok(content)
}

/// A file that a spool was given this content for, with the number 256 at its shelf.
fn filed(rt: &HostRuntime, spool: &Spool, content: &[u8]) -> io::Result<SyncedFile>
    ensures { IfOk result (λ file. file ≡ content.now) }
{
    let mut file = spool.make(rt.alloc())?;
    file.write(content)?;
    let file = file.sync_all()?;
    if let Some(path) = file.path(rt.alloc())? {
        fs::rename(rt, path.as_str(), "shelf/00/256")?;
    }
    file.note_number(256);
    Ok(file)
}

/// Leaves this much of a file.
fn cut(rt: &HostRuntime, content: &[u8], left: Option<usize>) -> io::Result<()> {
    match left {
        Some(left) => fs::write(rt, "shelf/00/256", &content[..left.min(content.len())]),
        None => fs::remove_file(rt, "shelf/00/256"),
    }
}

/// What is taken of a reply with this stretch, and whether that was all.
fn sent(alloc: Global, stretch: &[Stretch], step: usize) -> (Vec<u8>, bool) {
    let mut taker = Taker {
        items: Vec::new(alloc),
        step,
        taken: Transcript::none(),
        failed: 0,
    };
    let mut head = Gather::new();
    head.put(&mut taker, HEAD);
    put_stretches(&mut head, &mut taker, stretch);
    let is_whole = head.finish(&mut taker, b"").is_ok();
    (taker.items, is_whole)
}

/// Whether a reply with the file of a row is all of it, or ends before its last byte and says so.
fn is_told(rt: &HostRuntime, spool: &Spool, row: &Row) -> Result<bool, Fail> {
    let content = content_of(rt.alloc(), row.len)?;
    let file = filed(rt, spool, content.as_slice())?;
    cut(rt, content.as_slice(), row.left)?;
    let Ok(part) = FilePart::of(rt.alloc(), file, content.len() as u64) else {
        return Ok(false);
    };
    let mut stretches = Vec::new(rt.alloc());
    stretches.push(Stretch::filed(part))?;
    let (items, is_whole) = sent(rt.alloc(), stretches.as_slice(), row.step);
    let Some(rest) = items.as_slice().strip_prefix(HEAD) else {
        return Ok(false);
    };
    let is_front = content.as_slice().starts_with(rest);
    Ok(is_front && is_whole == (row.left == Some(row.len)) && is_whole == (rest.len() == row.len))
}

/// A new shelf, and the spool whose files it takes.
fn new_shelf(rt: &HostRuntime) -> Result<Spool, Fail> {
    let _ = fs::remove_dir_all(rt, "shelf");
    fs::create_dir(rt, "shelf")?;
    fs::create_dir(rt, "shelf/00")?;
    fs::create_dir(rt, "shelf/new")?;
    let path = String::from_str(rt.alloc(), "shelf")?;
    Ok(Spool::in_shelf(rt, path)?)
}

#[test]
fn a_reply_has_all_of_a_file_or_ends(rt: HostRuntime) -> Result<(), Fail> {
    let spool = new_shelf(&rt)?;
    for row in ROWS {
        holds(&rt, is_told(&rt, &spool, &row)?, &row.name);
    }
    Ok(())
}

/// How many files there are in a folder.
fn files_in(rt: &HostRuntime, folder: &str) -> io::Result<usize> {
    let mut count: usize = 0;
    for entry in fs::read_dir(rt, folder)? {
        let _ = entry?;
        count = count.saturating_add(1);
    }
    Ok(count)
}

#[test]
fn a_file_goes_unless_it_has_a_number(rt: HostRuntime) -> Result<(), Fail> {
    let spool = new_shelf(&rt)?;
    let file = filed(&rt, &spool, b"numbered")?;
    holds(&rt, file.has_number(), &"a number");
    drop(file);
    same(&rt, files_in(&rt, "shelf/00")?, 1, &"with a number");
    let file = spool.make(rt.alloc())?.sync_all()?;
    holds(&rt, !file.has_number(), &"no number");
    same(&rt, files_in(&rt, "shelf/new")?, 1, &"before it goes");
    drop(file);
    same(&rt, files_in(&rt, "shelf/new")?, 0, &"without a number");
    Ok(())
}
