//! Requests read from memory, one after another, whole and cut.

mod growths;

use crate::expect::{holds, same};
use crate::texts::joined;
use http_wire::{Bad, WireFault};
use std::alloc::{AllocError, Global};
use std::test::Fail;
use test_support::MemorySource;
use upload_service::{Ask, Limits};
use upload_wire::{Next, RequestReader};

/// What a call of `next_request` gave, as far as a test looks at it: of a request how long its body is.
#[derive(Clone, Copy, Debug, PartialEq, Eq)]
enum Kind {
    Request(usize),
    Over,
    Bad(Bad),
    Fault(WireFault),
}

const ENDED: Kind = Kind::Fault(WireFault::Ended);

const TRUNCATED: Kind = Kind::Fault(WireFault::Truncated);

const FAILED: Kind = Kind::Fault(WireFault::Read);

fn size_of(ask: &Ask) -> usize {
    match ask {
        Ask::Single { body, .. } | Ask::Chunk { body, .. } | Ask::Close { body, .. } => body.len(),
        _ => 0,
    }
}

fn kind_of(next: &Result<Next, WireFault>) -> Kind {
    match next {
        Ok(Next::Request { ask, .. }) => Kind::Request(size_of(ask)),
        Ok(Next::Over) => Kind::Over,
        Ok(Next::Bad(why)) => Kind::Bad(*why),
        Err(fault) => Kind::Fault(*fault),
    }
}

/// A reader of the source, with bodies of at most three bytes.
fn reader_of(
    alloc: Global,
    source: MemorySource<'_>,
) -> Result<RequestReader<MemorySource<'_>>, AllocError> {
    let limits = Limits {
        max_blob: 1_000,
        max_body: 3,
        max_open: 1,
        max_idle: 1,
    };
    RequestReader::new(alloc, source, limits)
}

/// What the first two requests of the source are.
fn first_two(alloc: Global, source: MemorySource<'_>) -> Result<[Kind; 2], AllocError> {
    let mut reader = reader_of(alloc, source)?;
    let first = kind_of(&reader.next_request());
    Ok([first, kind_of(&reader.next_request())])
}

/// What is read, and what comes behind it.
static READ: [(&str, [Kind; 2]); 4] = [
    ("", [Kind::Over, Kind::Over]),
    ("GET /v2/ HTTP/1.0\r\n\r\nx", [Kind::Request(0), TRUNCATED]),
    ("GET\n\nGET /v2/ HTTP/1.1\r\n\r\n", [BAD_HEAD, ENDED]),
    (LENGTH_3X, [Kind::Bad(Bad::Length), ENDED]),
];

const BAD_HEAD: Kind = Kind::Bad(Bad::Head);

const LENGTH_3X: &str = "GET /v2/ HTTP/1.1\r\nContent-Length: 3x\r\n\r\nGET /v2/ HTTP/1.1\r\n\r\n";

#[test]
fn requests_are_read_one_after_another(rt: HostRuntime) -> Result<(), Fail> {
    for (text, want) in READ.iter() {
        for step in [1, 1_000] {
            let source = MemorySource::new(text.as_bytes(), step, false);
            same(&rt, first_two(rt.alloc(), source)?, *want, text);
        }
    }
    Ok(())
}

/// Heads that no bytes complete. What is read behind them fails.
static HOPELESS: [&str; 3] = ["GET /v2/ HTTP/9.9\n", "GET /v2/ HTTP/9.9\r\n", MANY_LINES];

/// More lines than a head has, each of them empty.
const MANY_LINES: &str =
    "\n\n\n\n\n\n\n\n\n\n\n\n\n\n\n\n\n\n\n\n\n\n\n\n\n\n\n\n\n\n\n\n\n\n\n\n\n\n\n\n\n\n\n\n\n\n\n\n\n\n\n\n\n\n\n\n\n\n\n\n\n\n\n\n\n\n";

#[test]
fn hopeless_head_is_judged(rt: HostRuntime) -> Result<(), Fail> {
    for text in HOPELESS.iter() {
        let source = MemorySource::new(text.as_bytes(), 1_000, true);
        let [found, _] = first_two(rt.alloc(), source)?;
        same(&rt, found, BAD_HEAD, text);
    }
    Ok(())
}

const PATCH: &str =
    "PATCH /v2/lib/a/blobs/uploads/00000001-0000-8000-8000-000000000000 HTTP/1.1\r\nTransfer-Encoding: ";

/// The field of the transfer coding, with all that comes behind it.
static CODED: [(&str, Kind); 10] = [
    (
        "chunked\r\n\r\n1\r\na\r\n2\r\nbc\r\n0\r\n\r\n",
        Kind::Request(3),
    ),
    ("chunked\r\n\r\n0\r\n\r\n", Kind::Request(0)),
    (
        "chunked\r\n\r\n00000003\r\nabc\r\n0\r\n\r\n",
        Kind::Request(3),
    ),
    ("chunked\r\n\r\n000000003\r\nabc\r\n0\r\n\r\n", BAD_CHUNKS),
    ("chunked\r\n\r\n3;x=1\r\nabc\r\n0\r\n\r\n", BAD_CHUNKS),
    ("chunked\r\n\r\n3\r\nabc\r\n0\r\nX: y\r\n\r\n", BAD_CHUNKS),
    ("chunked\r\n\r\n2\r\nab\r\n2\r\n", Kind::Bad(Bad::TooLarge)),
    ("chunked\r\n\r\n2\r\nb", TRUNCATED),
    (
        "chunked\r\nContent-Length: 3\r\n\r\n",
        Kind::Bad(Bad::Length),
    ),
    ("gzip, chunked\r\n\r\n", Kind::Bad(Bad::Coding)),
];

const BAD_CHUNKS: Kind = Kind::Bad(Bad::Chunks);

/// Whether the first request of the source is this, or, if that was cut, the fault of its end.
fn is_read(
    alloc: Global,
    source: MemorySource<'_>,
    want: Kind,
    cut: Kind,
) -> Result<bool, AllocError> {
    let [found, _] = first_two(alloc, source)?;
    Ok(found == want || found == cut)
}

/// Whether the text is read so at several paces, and cut after each byte: the input ends there, or reads fail.
fn is_read_cut(alloc: Global, text: &[u8], want: Kind) -> Result<bool, AllocError> {
    let mut is_right = true;
    for step in [1, 2, 1_000] {
        let source = MemorySource::new(text, step, false);
        is_right = is_right && is_read(alloc, source, want, want)?;
    }
    for count in 1..text.len() {
        let (ended, failed) = (
            MemorySource::new(&text[..count], 3, false),
            MemorySource::new(&text[..count], 3, true),
        );
        is_right = is_right
            && is_read(alloc, ended, want, TRUNCATED)?
            && is_read(alloc, failed, want, FAILED)?;
    }
    Ok(is_right)
}

#[test]
fn chunked_bodies(rt: HostRuntime) -> Result<(), Fail> {
    for (coded, want) in CODED.iter() {
        let text = joined(rt.alloc(), &[PATCH, coded])?;
        holds(&rt, is_read_cut(rt.alloc(), &text, *want)?, coded);
    }
    Ok(())
}
