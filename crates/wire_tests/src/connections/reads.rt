//! How often a source is read: no more often than what comes takes, and never again for what has come.
ghost use Rattle.std.specs.Prelude.{◌<◌};

use crate::expect::same;
use crate::texts::LIMITS;
use std::alloc::Global;
use std::test::Fail;
use test_support::{MemorySink, MemorySource};
use upload_service::Service;
use upload_wire::{ConnEnd, ServiceDesk, serve_connection};

/// How many requests of 21 bytes come, how many bytes are in the body of one more, which has a head of some 60 bytes
/// and closes, how many bytes come at a time, how many reads that takes, and how it ends. A read gives at most 65,536
/// bytes.
static READS: [(usize, usize, usize, u64, ConnEnd); 9] = [
    (0, 0, 65_536, 1, ConnEnd::AfterClose),
    (0, 65_000, 65_536, 1, ConnEnd::AfterClose),
    (0, 65_536, 65_536, 2, ConnEnd::AfterClose),
    (0, 200_000, 65_536, 4, ConnEnd::AfterClose),
    (99, 0, 65_536, 1, ConnEnd::AfterClose),
    (99, 0, 21, 102, ConnEnd::AfterClose),
    (99, 0, 20, 107, ConnEnd::AfterClose),
    (8_999, 0, 65_536, 3, ConnEnd::AfterClose),
    (10_000, 0, 65_536, 4, ConnEnd::TooMany),
];

/// What comes.
fn requests(alloc: Global, count: usize, length: usize) -> Result<Vec<u8>, Fail> {
    let mut text = Vec::new(alloc);
    for _ in 0..count {
        text.extend_from_slice(b"GET /v2/ HTTP/1.1\r\n\r\n")?;
    }
    let last = format!(in alloc;
        "GET /v2/ HTTP/1.1\r\nConnection: close\r\nContent-Length: {length}\r\n\r\n"
    )?;
    text.extend_from_slice(last.as_bytes())?;
    text.resize(text.len().saturating_add(length), b'a')?;
    Ok(text)
}

/// How many reads a connection takes of which so many bytes come at a time. Behind its last byte each read fails.
fn reads_of(alloc: Global, text: &[u8], step: usize) -> (u64, ConnEnd)
    requires { 0 < step }
{
    let mut reader = MemorySource::new(text, step, true);
    let mut writer = MemorySink::new(Vec::new(alloc), 65_536, 10_000_000);
    let mut desk = ServiceDesk::new(Service::new(alloc, LIMITS), [0; 12], 0);
    let end = serve_connection(alloc, &mut reader, &mut writer, &mut desk, LIMITS);
    (reader.reads, end)
}

#[test]
fn what_has_come_takes_no_read_of_its_own(rt: HostRuntime) -> Result<(), Fail> {
    for (count, length, step, reads, end) in READS.iter() {
        let text = requests(rt.alloc(), *count, *length)?;
        let found = reads_of(rt.alloc(), &text, *step);
        same(&rt, found, (*reads, *end), count);
    }
    Ok(())
}
