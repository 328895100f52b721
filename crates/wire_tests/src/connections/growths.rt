//! A connection whose service is refused memory says so and goes on, and one whose reader is refused it ends without a
//! reply. The test holds whichever one growth is refused: `tests/growths.py` has each of them refused in turn.

use crate::expect::{holds, same};
use crate::texts::{CHUNK_A, LIMITS, NO_UPLOAD, OPENED, OPENING, TAKEN_0, are_written, joined};
use http_wire::WireFault;
use std::alloc::{AllocError, Global};
use std::process::Abort;
use std::test::Fail;
use test_support::{MemorySink, MemorySource};
use upload_service::Service;
use upload_wire::{ConnEnd, ConnFault, ServiceDesk, serve_connection};

/// What the first chunk brings is moved in; only the next one takes memory.
static REQUESTS: [&str; 4] = [OPENING, CHUNK_A, CHUNK_MORE, CHUNK_MORE];

const CHUNK_MORE: &str =
    "PATCH /v2/lib/a/blobs/uploads/00000001-0000-8000-8000-000000000000 HTTP/1.1\r\nContent-Range: 1-8\r\n\
     Content-Length: 8\r\n\r\nbcdefghi";

const TAKEN_8: &str =
    "HTTP/1.1 202 Accepted\r\nLocation: /v2/lib/a/blobs/uploads/00000001-0000-8000-8000-000000000000\r\nRange: 0-8\r\n\
     Content-Length: 0\r\n\r\n";

const NO_MEMORY: &str = "HTTP/1.1 503 Service Unavailable\r\nContent-Length: 0\r\n\r\n";

/// What they are answered if the service has all its memory; if it had none for the second chunk, and took the same one
/// again; and if it had none for the opening.
static REPLIES: [[&str; 4]; 3] = [
    [
        OPENED,
        TAKEN_0,
        TAKEN_8,
        "HTTP/1.1 416 Range Not Satisfiable\r\n\
         Location: /v2/lib/a/blobs/uploads/00000001-0000-8000-8000-000000000000\r\nRange: 0-8\r\n\
         Content-Type: application/json\r\nContent-Length: 75\r\n\r\n\
         {\"errors\":[{\"code\":\"BLOB_UPLOAD_INVALID\",\"message\":\"blob upload invalid\"}]}",
    ],
    [OPENED, TAKEN_0, NO_MEMORY, TAKEN_8],
    [NO_MEMORY, NO_UPLOAD, NO_UPLOAD, NO_UPLOAD],
];

/// Serves the requests, and gives the connection's end, what was written, and the service. One growth of what they
/// need may be refused.
fn served(
    alloc: Global,
    service: Service,
    requests: &[&str],
) -> Result<(ConnEnd, MemorySink, Service), AllocError> {
    let all = joined(alloc, requests).or_else(|_| joined(alloc, requests))?;
    let room = Vec::with_capacity(alloc, 2_000).or_else(|_| Vec::with_capacity(alloc, 2_000))?;
    let mut writer = MemorySink::new(room, 2_000, 2_000);
    let mut desk = ServiceDesk::new(service, [0; 12], 0);
    let mut reader = MemorySource::new(&all, 2_000, false);
    let end = serve_connection(alloc, &mut reader, &mut writer, &mut desk, LIMITS);
    Ok((end, writer, desk.into_service()))
}

/// The reader was refused memory behind these replies, which are as ever: with memory so are the others.
fn go_on(rt: &impl Abort, alloc: Global, service: Service, written: &[u8]) -> Result<(), Fail> {
    for count in 0..4usize {
        let (replied, left) = REPLIES[0].split_at(count);
        if are_written(replied, written) {
            let (end, writer, _) = served(alloc, service, &REQUESTS[count..])?;
            same(rt, end, ConnEnd::Clean, &"with memory");
            holds(rt, are_written(left, writer.as_slice()), &"with memory");
            return Ok(());
        }
    }
    Err(Fail::new("replies that aren't the connection's"))
}

#[test]
fn a_refused_growth_is_answered_or_ends_the_connection(rt: HostRuntime) -> Result<(), Fail> {
    let alloc = rt.alloc();
    let (end, writer, service) = served(alloc, Service::new(alloc, LIMITS), &REQUESTS)?;
    if end != ConnEnd::Clean {
        let refused = ConnEnd::Fault(ConnFault::Wire(WireFault::NoMemory));
        same(&rt, end, refused, &"its end");
        return go_on(&rt, alloc, service, writer.as_slice());
    }
    let is_right = REPLIES
        .iter()
        .any(|replies| are_written(replies, writer.as_slice()));
    holds(&rt, is_right, &"what was written");
    Ok(())
}
