//! A push over a wire: what it writes, given to a server, gets the replies that it heard, byte for byte.

use super::{End, push_to};
use crate::expect::{same, same_bytes};
use crate::texts::{LIMITS, OPENED, OPENING, STORED, TAKEN_2, joined};
use http_wire::{FromRead, ToWrite};
use std::alloc::Global;
use std::test::Fail;
use test_support::MemorySource;
use upload_client::WireTransport;
use upload_service::Service;
use upload_wire::{ConnEnd, ServiceDesk, serve_connection};

/// The replies to an opening, to the chunks `ab` and `c`, and to the close.
static REPLIES: [&str; 4] = [
    OPENED,
    "HTTP/1.1 202 Accepted\r\nLocation: /v2/lib/a/blobs/uploads/00000001-0000-8000-8000-000000000000\r\nRange: 0-1\r\n\
     Content-Length: 0\r\n\r\n",
    TAKEN_2,
    STORED,
];

/// The requests that get them.
static REQUESTS: [&str; 4] = [
    OPENING,
    "PATCH /v2/lib/a/blobs/uploads/00000001-0000-8000-8000-000000000000 HTTP/1.1\r\nHost: h\r\nContent-Range: 0-1\r\n\
     Content-Type: application/octet-stream\r\nContent-Length: 2\r\n\r\nab",
    "PATCH /v2/lib/a/blobs/uploads/00000001-0000-8000-8000-000000000000 HTTP/1.1\r\nHost: h\r\nContent-Range: 2-2\r\n\
     Content-Type: application/octet-stream\r\nContent-Length: 1\r\n\r\nc",
    "PUT /v2/lib/a/blobs/uploads/00000001-0000-8000-8000-000000000000\
     ?digest=sha256:ba7816bf8f01cfea414140de5dae2223b00361a396177a9cb410ff61f20015ad HTTP/1.1\r\nHost: h\r\n\
     Content-Type: application/octet-stream\r\nContent-Length: 0\r\n\r\n",
];

/// How a push of `abc` ends that hears these replies. What it writes is sent.
fn pushed_over_wire(alloc: Global, replies: &[u8], sent: &mut Vec<u8>) -> Result<End, Fail> {
    // one byte at a time, so that no reply has come before its request
    let source = MemorySource::new(replies, 1, false);
    let mut transport = WireTransport::new(alloc, source, ToWrite::new(sent), b"h")?;
    push_to(alloc, &mut transport, b"abc", 5)
}

/// What a server with a new service replies to these bytes, and how the connection ends.
fn replies_to(alloc: Global, requests: &[u8]) -> (Vec<u8>, ConnEnd) {
    let mut desk = ServiceDesk::new(Service::new(alloc, LIMITS), [0; 12], 0);
    let mut reader = FromRead::new(requests);
    let mut writer = ToWrite::new(Vec::new(alloc));
    let end = serve_connection(alloc, &mut reader, &mut writer, &mut desk, LIMITS);
    (writer.into_inner(), end)
}

#[test]
fn a_push_over_a_wire_is_served(rt: HostRuntime) -> Result<(), Fail> {
    let wanted = joined(rt.alloc(), &REPLIES)?;
    let mut sent = Vec::new(rt.alloc());
    same(
        &rt,
        pushed_over_wire(rt.alloc(), &wanted, &mut sent)?,
        End::Pushed,
        &"a push",
    );
    same_bytes(&rt, &sent, &joined(rt.alloc(), &REQUESTS)?, &"requests");
    let (replies, end) = replies_to(rt.alloc(), &sent);
    same(&rt, end, ConnEnd::Clean, &"the connection's end");
    same_bytes(&rt, &replies, &wanted, &"replies");
    Ok(())
}
