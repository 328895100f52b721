//! A pair of workers over connections that are slow, are cut, or fail in the middle of a call: such a one ends, and the
//! worker's next one is served.
ghost use Rattle.std.specs.Prelude.{◌<◌};

use crate::expect::{holds, same};
use crate::seats::{LIMITS, Still};
use std::alloc::{AllocError, Global};
use std::process::Abort;
use std::sync::Wait;
use std::test::Fail;
use std::thread::Threads;
use std::vec;
use test_support::{MemorySink, MemorySource};
use upload_intake::{Conns, NoGate, Pair, ServeFault, Worker, ZeroSecrets, serve_pair};
use upload_names::{BlobDigest, NameFault, RepoName};
use upload_service::Service;
use upload_wire::NoObserver;

/// What comes over a connection, how many bytes at a time, whether reads fail behind it, and how much room there is for
/// replies.
type Stream = (&'static [u8], usize, bool, usize);

/// A connection for each stream, and what was written to those that were given back.
#[derive(Drop)]
struct Streams {
    alloc: Global,
    streams: vec::IntoIter<Stream>,
    written: Vec<MemorySink>,
}

impl Conns for Streams {
    type In = MemorySource<'static>;

    type Out = MemorySink;

    ghost gives = { λ old given new. Unit {0} };

    ghost takes_back = { λ old conn new. Unit {0} };

    fn next_conn(&mut self) -> Option<(MemorySource<'static>, MemorySink)> {
        let (sent, step, fails, room) = self.streams.next()?;
        let step = step.max(1);
        let source = MemorySource::new(sent, step, fails);
        let sink = MemorySink::new(Vec::new(self.alloc), step, room);
        Some((source, sink))
    }

    fn take_back(&mut self, _source: MemorySource<'static>, sink: MemorySink) {
        // one that isn't kept is missed later
        let _ = self.written.push(sink);
    }
}

type StreamWorker = Worker<Streams, ZeroSecrets, NoGate, NoObserver>;

fn worker(alloc: Global, streams: Vec<Stream>) -> StreamWorker {
    Worker {
        conns: Streams {
            alloc,
            streams: streams.into_iter(),
            written: Vec::new(alloc),
        },
        secrets: ZeroSecrets,
        gate: NoGate,
        observer: NoObserver,
    }
}

fn served<R: Threads + Wait + Sync>(
    rt: &R,
    alloc: Global,
    left: Vec<Stream>,
    right: Vec<Stream>,
) -> Result<Pair<Still, StreamWorker>, ServeFault> {
    let (left, right) = (worker(alloc, left), worker(alloc, right));
    serve_pair(rt, alloc, Service::new(alloc, LIMITS), left, right, Still)
}

/// An opening, two chunks and a close, of 61, 119, 120 and 156 bytes.
const REQUESTS: &[u8] = b"POST /v2/lib/a/blobs/uploads/ HTTP/1.1\r\nContent-Length: 0\r\n\r\n\
    PATCH /v2/lib/a/blobs/uploads/00000001-0000-8000-8000-000000000000 HTTP/1.1\r\nContent-Range: 0-0\r\n\
    Content-Length: 1\r\n\r\na\
    PATCH /v2/lib/a/blobs/uploads/00000001-0000-8000-8000-000000000000 HTTP/1.1\r\nContent-Range: 1-2\r\n\
    Content-Length: 2\r\n\r\nbc\
    PUT /v2/lib/a/blobs/uploads/00000001-0000-8000-8000-000000000000\
    ?digest=sha256:ba7816bf8f01cfea414140de5dae2223b00361a396177a9cb410ff61f20015ad HTTP/1.1\r\n\r\n";

/// The request of the connection behind that.
const STATUS: &[u8] =
    b"GET /v2/lib/a/blobs/uploads/00000001-0000-8000-8000-000000000000 HTTP/1.1\r\n\r\n";

/// How many bytes of the requests come, how many at a time, whether reads fail then, how much room there is, how many
/// of the two connections end well, how many bytes of replies, of 116, 128, 128 and 142, are written, and how the reply
/// over the second one ends: the upload has one byte, or three, or isn't there.
type Row = (usize, usize, bool, usize, u64, usize, &'static [u8]);

static ROWS: [Row; 7] = [
    (456, 999, false, 999, 2, 514, b"to registry\"}]}"),
    (456, 1, false, 999, 2, 514, b"to registry\"}]}"),
    // cut before the last byte of a chunk
    (299, 999, false, 999, 1, 244, b"Range: 0-0\r\n\r\n"),
    (299, 1, true, 999, 1, 244, b"Range: 0-0\r\n\r\n"),
    // behind the last request
    (456, 999, true, 999, 1, 514, b"to registry\"}]}"),
    // within the reply to a chunk, and before the last byte of that to the close
    (456, 999, false, 300, 1, 300, b"Range: 0-2\r\n\r\n"),
    (456, 1, false, 513, 1, 513, b"to registry\"}]}"),
];

/// The streams of a row.
fn streams_of(alloc: Global, row: &Row) -> Result<Vec<Stream>, AllocError> {
    let (comes, step, fails, room, ..) = *row;
    let sent = REQUESTS.get(..comes).unwrap_or(REQUESTS);
    let first = (sent, step, fails, room);
    Vec::from_slice(alloc, &[first, (STATUS, 999, false, 999)])
}

/// What was written to the connection at this place.
fn written_at(streams: &Streams, at: usize) -> &[u8] {
    match streams.written.get(at) {
        Some(sink) => sink.as_slice(),
        None => b"",
    }
}

/// Looks at what is left of a pair that served a row.
fn look(rt: &impl Abort, pair: &Pair<Still, StreamWorker>, row: &Row, at: usize) {
    let (.., clean, written, reply) = *row;
    same(rt, (pair.left.conns, pair.left.clean), (2, clean), &at);
    same(rt, pair.right.conns, 0, &at);
    let streams = &pair.left_worker.conns;
    same(rt, written_at(streams, 0).len(), written, &at);
    holds(rt, written_at(streams, 1).ends_with(reply), &at);
}

#[test]
fn connections_that_fail_end_alone(rt: HostRuntime) -> Result<(), Fail> {
    let alloc = rt.alloc();
    for (at, row) in ROWS.iter().enumerate() {
        let pair = served(&rt, alloc, streams_of(alloc, row)?, Vec::new(alloc))?;
        look(&rt, &pair, row, at);
    }
    Ok(())
}

/// The same blob twice.
const TWICE: &[u8] = b"POST /v2/lib/a/blobs/uploads/\
    ?digest=sha256:ba7816bf8f01cfea414140de5dae2223b00361a396177a9cb410ff61f20015ad HTTP/1.1\r\n\
    Content-Length: 3\r\n\r\nabc\
    POST /v2/lib/a/blobs/uploads/\
    ?digest=sha256:ba7816bf8f01cfea414140de5dae2223b00361a396177a9cb410ff61f20015ad HTTP/1.1\r\n\
    Content-Length: 3\r\n\r\nabc";

/// One connection, which sends that. One growth may be refused.
fn twice(alloc: Global) -> Result<Vec<Stream>, AllocError> {
    let stream = (TWICE, 999, false, 999);
    Vec::from_slice(alloc, &[stream]).or_else(|_| Vec::from_slice(alloc, &[stream]))
}

/// Whether the blob is there. One growth may be refused.
fn has_blob(alloc: Global, service: &Service) -> Result<bool, NameFault> {
    let name = RepoName::read(alloc, b"lib/a").or_else(|_| RepoName::read(alloc, b"lib/a"))?;
    Ok(service.holds(&name, &BlobDigest::of_sha256(b"abc")))
}

/// A pair that is refused memory isn't served, or one connection of it goes without. The test holds whichever one
/// growth is refused: `tests/growths.py` has each of them refused in turn.
#[test]
fn a_refused_growth_is_of_one_worker_or_of_the_pair(rt: HostRuntime) -> Result<(), Fail> {
    let alloc = rt.alloc();
    let (pair, least) = match served(&rt, alloc, twice(alloc)?, twice(alloc)?) {
        // at most one connection was cut short
        Ok(pair) => (pair, 1),
        // the growth that was refused is behind
        Err(_) => (served(&rt, alloc, twice(alloc)?, twice(alloc)?)?, 2),
    };
    same(&rt, (pair.left.conns, pair.right.conns), (1, 1), &"served");
    let clean = pair.left.clean.saturating_add(pair.right.clean);
    holds(&rt, clean >= least, &"ended well");
    // one of two requests had the memory
    holds(&rt, has_blob(alloc, &pair.service)?, &"the blob");
    Ok(())
}
