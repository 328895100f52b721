//! A whole upload, disturbed: cut, and with reads, writes and flushes that fail.

use super::{CONNECTIONS, Connection};
use crate::expect::holds;
use crate::texts::{are_written, is_front, joined, length_of};
use http_wire::{ToWrite, WireFault};
use std::alloc::{AllocError, Global};
use std::io;
use std::io::{ErrorKind, Write};
use std::process::Abort;
use test_support::{MemorySink, MemorySource};
use upload_wire::{ConnEnd, ConnFault};

const READ: ConnEnd = ConnEnd::Fault(ConnFault::Wire(WireFault::Read));

const TRUNCATED: ConnEnd = ConnEnd::Fault(ConnFault::Wire(WireFault::Truncated));

const WRITE: ConnEnd = ConnEnd::Fault(ConnFault::Write);

impl Connection {
    /// How many requests are whole in its first `count` bytes, of those that are replied to, and how it ends if it is
    /// cut there: the input ends, or reads fail.
    fn cut_at(&self, count: usize, fails: bool) -> (usize, ConnEnd) {
        let mut whole = 0usize;
        let mut end = 0usize;
        for request in self.requests.iter().take(self.replies.len()) {
            let next = end.saturating_add(request.len());
            if next > count {
                break;
            }
            end = next;
            whole = whole.saturating_add(1);
        }
        if whole == self.replies.len() && self.end != ConnEnd::Clean {
            return (whole, self.end);
        }
        if fails {
            return (whole, READ);
        }
        (
            whole,
            if end == count {
                ConnEnd::Clean
            } else {
                TRUNCATED
            },
        )
    }

    /// Whether the front of it is answered as far as its requests are whole.
    fn is_cut(&self, alloc: Global, front: &[u8], fails: bool) -> bool {
        let (whole, wanted) = self.cut_at(front.len(), fails);
        let mut reader = MemorySource::new(front, 65_536, fails);
        let mut writer = MemorySink::new(Vec::new(alloc), 65_536, 65_536);
        let end = self.serve(alloc, &mut reader, &mut writer);
        let replies = self.replies.get(..whole).unwrap_or(self.replies);
        end == wanted && are_written(replies, writer.as_slice())
    }

    /// Whether a writer with so much room, which is too little, has what there is room for.
    fn is_unwritten(&self, alloc: Global, all: &[u8], room: usize) -> bool {
        let mut reader = MemorySource::new(all, 65_536, false);
        let mut writer = MemorySink::new(Vec::new(alloc), 1_000, room);
        let end = self.serve(alloc, &mut reader, &mut writer);
        let written = writer.as_slice();
        end == WRITE && written.len() == room && is_front(self.replies, written)
    }

    /// Whether a writer that takes so many flushes, which are too few, has one reply more.
    fn is_unflushed(&self, alloc: Global, all: &[u8], flushes: usize) -> bool {
        let mut reader = MemorySource::new(all, 65_536, false);
        let items = Vec::new(alloc);
        let mut writer = ToWrite::new(FailingFlush { items, flushes });
        let end = self.serve(alloc, &mut reader, &mut writer);
        let replies = self.replies.get(..=flushes).unwrap_or(self.replies);
        end == WRITE && are_written(replies, &writer.into_inner().items)
    }
}

/// Cuts the first two connections after each byte.
fn cut(rt: &impl Abort, alloc: Global, fails: bool) -> Result<(), AllocError> {
    for connection in CONNECTIONS.iter().take(2) {
        let all = joined(alloc, connection.requests)?;
        for count in 0..=all.len() {
            let is_right = connection.is_cut(alloc, &all[..count], fails);
            holds(rt, is_right, &count);
        }
    }
    Ok(())
}

#[test]
fn connections_are_cut_behind_each_byte(rt: HostRuntime) -> Result<(), AllocError> {
    cut(&rt, rt.alloc(), false)
}

#[test]
fn reads_fail_behind_each_byte(rt: HostRuntime) -> Result<(), AllocError> {
    cut(&rt, rt.alloc(), true)
}

#[test]
fn writes_fail_behind_each_byte(rt: HostRuntime) -> Result<(), AllocError> {
    let [upload, ..] = &CONNECTIONS;
    let all = joined(rt.alloc(), upload.requests)?;
    for room in 0..length_of(upload.replies) {
        holds(&rt, upload.is_unwritten(rt.alloc(), &all, room), &room);
    }
    Ok(())
}

#[test]
fn flushes_fail_behind_each_reply(rt: HostRuntime) -> Result<(), AllocError> {
    for connection in CONNECTIONS.iter() {
        let all = joined(rt.alloc(), connection.requests)?;
        for flushes in 0..connection.replies.len() {
            holds(
                &rt,
                connection.is_unflushed(rt.alloc(), &all, flushes),
                &flushes,
            );
        }
    }
    Ok(())
}

/// Takes all that it is given, and so many flushes.
#[derive(Drop)]
struct FailingFlush {
    items: Vec<u8>,
    flushes: usize,
}

impl Write for FailingFlush {
    fn write(&mut self, buf: &[u8]) -> io::Result<usize> {
        self.items.extend_from_slice(buf)?;
        Ok(buf.len())
    }

    fn flush(&mut self) -> io::Result<()> {
        if self.flushes == 0 {
            return Err(io::Error::from(ErrorKind::BrokenPipe));
        }
        self.flushes -= 1;
        Ok(())
    }
}
