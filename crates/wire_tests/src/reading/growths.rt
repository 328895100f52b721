//! A reader that is refused memory ends, and one that has it reads the same text as ever. The test holds whichever one
//! growth is refused: `tests/growths.py` has each of them refused in turn.

use super::{ENDED, Kind, kind_of, reader_of};
use crate::expect::same;
use crate::texts::{CHUNK_A, CLOSE, OPENING, STATUS};
use http_wire::WireFault;
use std::alloc::{AllocError, Global};
use std::process::Abort;
use std::test::Fail;
use test_support::MemorySource;
use upload_wire::RequestReader;

/// A reader of the text. One growth may be refused.
fn reader_for(
    alloc: Global,
    text: &'static str,
) -> Result<RequestReader<MemorySource<'static>>, AllocError> {
    let source = MemorySource::new(text.as_bytes(), 1_000, false);
    let again = MemorySource::new(text.as_bytes(), 1_000, false);
    reader_of(alloc, source).or_else(|_| reader_of(alloc, again))
}

/// What the text is read as, and the two calls behind that. One growth may be refused.
fn first_three(alloc: Global, text: &'static str) -> Result<[Kind; 3], AllocError> {
    let mut reader = reader_for(alloc, text)?;
    let first = kind_of(&reader.next_request());
    let second = kind_of(&reader.next_request());
    Ok([first, second, kind_of(&reader.next_request())])
}

/// Requests that take memory, and how long their bodies are.
static REQUESTS: [(&str, usize); 7] = [
    (OPENING, 0),
    ("POST http://h/v2/lib/a/blobs/uploads/ HTTP/1.1\r\n\r\n", 0),
    (MOUNT, 0),
    (CHUNK_A, 1),
    (CHUNKED, 3),
    (STATUS, 0),
    (CLOSE, 0),
];

const MOUNT: &str = "POST /v2/lib/b/blobs/uploads/\
     ?mount=sha256%3Aba7816bf8f01cfea414140de5dae2223b00361a396177a9cb410ff61f20015ad&from=lib%2Fa HTTP/1.1\r\n\r\n";

const CHUNKED: &str =
    "PATCH /v2/lib/a/blobs/uploads/00000001-0000-8000-8000-000000000000 HTTP/1.1\r\n\
     Transfer-Encoding: chunked\r\n\r\n1\r\na\r\n2\r\nbc\r\n0\r\n\r\n";

/// Reads one request, and with memory again if it was refused.
fn read(rt: &impl Abort, alloc: Global, text: &'static str, size: usize) -> Result<(), AllocError> {
    let mut found = first_three(alloc, text)?;
    if found[0] == Kind::Fault(WireFault::NoMemory) {
        same(rt, (found[1], found[2]), (ENDED, ENDED), &text);
        found = first_three(alloc, text)?;
    }
    same(
        rt,
        found,
        [Kind::Request(size), Kind::Over, Kind::Over],
        &text,
    );
    Ok(())
}

#[test]
fn a_refused_growth_ends_the_reader(rt: HostRuntime) -> Result<(), Fail> {
    for (text, size) in REQUESTS.iter() {
        read(&rt, rt.alloc(), text, *size)?;
    }
    Ok(())
}
