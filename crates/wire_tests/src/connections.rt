//! Connections over memory, against bytes written by hand: whole, disturbed, and by readers and writers of each kind.
//! Those that the program's limits allow are in `tests/connections`.
ghost use Rattle.std.specs.Prelude.{◌<◌};

mod disturbed;
mod growths;
mod hashed;
mod reads;

use crate::expect::{holds, same};
use crate::texts::{
    CHUNK_A, CLOSE, LIMITS, MISPLACED_2, NO_UPLOAD, OPENED, OPENING, STATUS, STORED, TAKEN_0,
    TAKEN_2, are_written, is_front, joined,
};
use http_wire::{ByteSink, ByteSource, ToWrite};
use std::alloc::{AllocError, Global};
use std::io::BufWriter;
use std::test::Fail;
use test_support::{MemorySink, MemorySource};
use upload_service::{Answer, Ask, Limits, Service};
use upload_wire::{ConnEnd, ConnFault, Desk, ServiceDesk, serve_connection};

/// A connection, and how it ends.
struct Connection {
    name: &'static str,
    limits: Limits,
    /// How many numbers of uploads are used up.
    issued: u32,
    /// A bad request ends with the byte at which it is judged. What is sent behind the last reply gets none.
    requests: &'static [&'static str],
    replies: &'static [&'static str],
    end: ConnEnd,
}

static CONNECTIONS: [Connection; 6] = [
    Connection {
        name: "a whole upload",
        limits: LIMITS,
        issued: 0,
        requests: &[
            OPENING, STATUS, CHUNK_A, CHUNK_BC, CHUNK_BC, CLOSE, CHUNK_X, STATUS, CLOSE,
        ],
        replies: &[
            OPENED,
            STANDING,
            TAKEN_0,
            TAKEN_2,
            MISPLACED_2,
            STORED,
            NO_UPLOAD,
            NO_UPLOAD,
            NO_UPLOAD,
        ],
        end: ConnEnd::Clean,
    },
    Connection {
        name: "a head that nothing completes",
        limits: LIMITS,
        issued: 0,
        requests: &["GET /v2/ HTTP/9.9\r\n"],
        replies: &["HTTP/1.1 400 Bad Request\r\nContent-Length: 0\r\nConnection: close\r\n\r\n"],
        end: ConnEnd::AfterBad,
    },
    Connection {
        name: "a chunk past the largest blob, and a second upload if one may be open",
        limits: Limits {
            max_blob: 3,
            max_open: 1,
            ..LIMITS
        },
        issued: 0,
        requests: &[
            OPENING,
            CHUNK_A,
            CHUNK_BC,
            CHUNK_X,
            CHUNK_OF_NOTHING,
            OPENING,
            CLOSE,
            OPENING,
        ],
        replies: &[
            OPENED,
            TAKEN_0,
            TAKEN_2,
            BLOB_TOO_LARGE,
            TAKEN_2,
            TOO_MANY,
            STORED,
            OPENED_2,
        ],
        end: ConnEnd::Clean,
    },
    Connection {
        name: "an opening over the last number",
        limits: LIMITS,
        issued: 4_294_967_294,
        requests: &[OPENING, OPENING],
        replies: &[OPENED_LAST, TOO_MANY],
        end: ConnEnd::Clean,
    },
    Connection {
        name: "an upload behind nine used numbers",
        limits: LIMITS,
        issued: 9,
        requests: &[OPENING, STATUS_10],
        replies: &[OPENED_10, STANDING_10],
        end: ConnEnd::Clean,
    },
    Connection {
        name: "a body past the largest",
        limits: Limits {
            max_body: 3,
            ..LIMITS
        },
        issued: 0,
        requests: &[OPENING, HEAD_OF_4, "abcd", OPENING],
        replies: &[OPENED, BODY_TOO_LARGE],
        end: ConnEnd::AfterBad,
    },
];

const CHUNK_BC: &str =
    "PATCH /v2/lib/a/blobs/uploads/00000001-0000-8000-8000-000000000000 HTTP/1.1\r\nHost: h\r\nContent-Range: 1-2\r\n\
     Content-Length: 2\r\n\r\nbc";

const CHUNK_X: &str =
    "PATCH /v2/lib/a/blobs/uploads/00000001-0000-8000-8000-000000000000 HTTP/1.1\r\nHost: h\r\nContent-Range: 3-3\r\n\
     Content-Length: 1\r\n\r\nx";

const CHUNK_OF_NOTHING: &str =
    "PATCH /v2/lib/a/blobs/uploads/00000001-0000-8000-8000-000000000000 HTTP/1.1\r\n\r\n";

const HEAD_OF_4: &str =
    "PATCH /v2/lib/a/blobs/uploads/00000001-0000-8000-8000-000000000000 HTTP/1.1\r\nContent-Length: 4\r\n\r\n";

const STATUS_10: &str =
    "GET /v2/lib/a/blobs/uploads/0000000A-0000-8000-8000-000000000000 HTTP/1.1\r\n\r\n";

const STANDING: &str =
    "HTTP/1.1 204 No Content\r\nLocation: /v2/lib/a/blobs/uploads/00000001-0000-8000-8000-000000000000\r\n\r\n";

const STANDING_10: &str =
    "HTTP/1.1 204 No Content\r\nLocation: /v2/lib/a/blobs/uploads/0000000a-0000-8000-8000-000000000000\r\n\r\n";

const OPENED_2: &str =
    "HTTP/1.1 202 Accepted\r\nLocation: /v2/lib/a/blobs/uploads/00000002-0000-8000-8000-000000000000\r\n\
     Content-Length: 0\r\n\r\n";

const OPENED_10: &str =
    "HTTP/1.1 202 Accepted\r\nLocation: /v2/lib/a/blobs/uploads/0000000a-0000-8000-8000-000000000000\r\n\
     Content-Length: 0\r\n\r\n";

const OPENED_LAST: &str =
    "HTTP/1.1 202 Accepted\r\nLocation: /v2/lib/a/blobs/uploads/ffffffff-0000-8000-8000-000000000000\r\n\
     Content-Length: 0\r\n\r\n";

const BLOB_TOO_LARGE: &str =
    "HTTP/1.1 413 Content Too Large\r\nContent-Type: application/json\r\nContent-Length: 93\r\n\r\n\
     {\"errors\":[{\"code\":\"SIZE_INVALID\",\"message\":\"provided length did not match content length\"}]}";

const BODY_TOO_LARGE: &str =
    "HTTP/1.1 413 Content Too Large\r\nContent-Length: 0\r\nConnection: close\r\n\r\n";

const TOO_MANY: &str =
    "HTTP/1.1 429 Too Many Requests\r\nContent-Type: application/json\r\nContent-Length: 69\r\n\r\n\
     {\"errors\":[{\"code\":\"TOOMANYREQUESTS\",\"message\":\"too many requests\"}]}";

impl Connection {
    /// Serves it over a service with the zero secret and at moment 0.
    fn serve<S: ByteSource, W: ByteSink>(
        &self,
        alloc: Global,
        reader: &mut S,
        writer: &mut W,
    ) -> ConnEnd {
        if !self.limits.lawful() {
            return ConnEnd::DeskGone;
        }
        let service = Service::after(alloc, self.limits, self.issued);
        let mut desk = ServiceDesk::new(service, [0; 12], 0);
        serve_connection(alloc, reader, writer, &mut desk, self.limits)
    }

    /// Whether it ended as it does, with all its replies.
    fn is_whole(&self, end: ConnEnd, written: &[u8]) -> bool {
        end == self.end && are_written(self.replies, written)
    }
}

/// Whether a connection is answered that comes and leaves by so many bytes at a time.
fn is_answered(
    alloc: Global,
    connection: &Connection,
    read: usize,
    written: usize,
) -> Result<bool, AllocError>
    requires read { 0 < read }
    requires written { 0 < written }
{
    let all = joined(alloc, connection.requests)?;
    let mut writer = MemorySink::new(Vec::new(alloc), written, 65_536);
    let mut reader = MemorySource::new(&all, read, false);
    let end = connection.serve(alloc, &mut reader, &mut writer);
    Ok(connection.is_whole(end, writer.as_slice()))
}

#[test]
fn connections_are_answered_as_written(rt: HostRuntime) -> Result<(), AllocError> {
    for connection in CONNECTIONS.iter() {
        for (read, written) in [(65_536, 65_536), (1, 65_536), (65_536, 1), (1, 1)] {
            let is_right = is_answered(rt.alloc(), connection, read, written)?;
            holds(&rt, is_right, &connection.name);
        }
    }
    Ok(())
}

/// What a writer that buffers holds back, its inner one lacks.
#[test]
fn replies_are_handed_on_by_a_writer_that_buffers(rt: HostRuntime) -> Result<(), Fail> {
    let all = joined(rt.alloc(), CONNECTIONS[0].requests)?;
    let mut reader = MemorySource::new(&all, 65_536, false);
    let held = BufWriter::with_capacity(rt.alloc(), 65_536, Vec::new(rt.alloc()))?;
    let mut writer = ToWrite::new(held);
    let end = CONNECTIONS[0].serve(rt.alloc(), &mut reader, &mut writer);
    let held = writer.into_inner();
    holds(
        &rt,
        CONNECTIONS[0].is_whole(end, held.get_ref()),
        &"what was written",
    );
    Ok(())
}

/// Answers so many asks, and is gone then.
#[derive(Drop)]
struct LeavingDesk {
    left: u64,
    asked: u64,
}

impl Desk for LeavingDesk {
    ghost moves = { λ _ _ _ _. Unit {0} };

    fn ask(&mut self, _ask: Ask) -> Option<Answer> {
        self.asked = self.asked.saturating_add(1);
        if self.left == 0 {
            return None;
        }
        self.left -= 1;
        Some(Answer::Base)
    }
}

/// How many asks a desk answers before it is gone, how much room there is for replies, how a connection of three
/// requests ends then, and how much was written.
static TWO_ASKED: [(u64, usize, ConnEnd, usize); 3] = [
    (1, 65_536, ConnEnd::DeskGone, 38),
    (9, 38, ConnEnd::Fault(ConnFault::Write), 38),
    (9, 40, ConnEnd::Fault(ConnFault::Write), 40),
];

const BASE_REPLY: &str = "HTTP/1.1 200 OK\r\nContent-Length: 0\r\n\r\n";

/// How the three requests to a desk end, into so much room, how many were asked, how many bytes were written, and
/// whether these are the front of two replies.
fn asked_of(alloc: Global, left: u64, room: usize) -> (ConnEnd, u64, usize, bool) {
    let sent = b"GET /v2/ HTTP/1.1\r\n\r\nGET /v2/ HTTP/1.1\r\n\r\nGET /v2/ HTTP/1.1\r\n\r\n";
    let mut desk = LeavingDesk { left, asked: 0 };
    let mut writer = MemorySink::new(Vec::new(alloc), 65_536, room);
    let mut reader = MemorySource::new(sent, 65_536, false);
    let end = serve_connection(alloc, &mut reader, &mut writer, &mut desk, LIMITS);
    let written = writer.as_slice();
    let is_right = is_front(&[BASE_REPLY, BASE_REPLY], written);
    (end, desk.asked, written.len(), is_right)
}

#[test]
fn nothing_is_asked_behind_a_failed_write_or_of_a_desk_that_is_gone(rt: HostRuntime) {
    for (left, room, end, length) in TWO_ASKED.iter() {
        let found = asked_of(rt.alloc(), *left, *room);
        same(&rt, found, (*end, 2, *length, true), room);
    }
}
