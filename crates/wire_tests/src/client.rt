//! Replies that a client reads, what they say, and requests and replies over memory.
ghost use Rattle.std.specs.Prelude.{◌<◌};

pub mod growths;

use crate::expect::{same, same_bytes};
use crate::texts::{MISPLACED_2, NO_UPLOAD, OPENED, STORED, TAKEN_2, UPLOAD, joined};
use http_wire::ToWrite;
use std::alloc::{AllocError, Global};
use std::process::Abort;
use std::test::Fail;
use test_support::MemorySource;
use upload_client::{
    AnswerReader, Heard, HeardFault, Transport, WireTransport, heard_of, read_place,
};
use upload_names::{BlobDigest, Bytes, NameFault, RepoName, UploadRef};
use upload_service::{Answer, Ask, Form, Refusal};
use upload_wire::{Style, write_reply};

/// What a reply says, as far as a test looks at it.
#[derive(Clone, Copy, Debug, PartialEq, Eq)]
struct Told<'a> {
    status: u16,
    place: Option<&'a [u8]>,
    upto: Option<u64>,
    code: Option<&'a [u8]>,
}

fn as_told(heard: &Heard) -> Told<'_> {
    Told {
        status: heard.status,
        place: heard.place.as_ref().map(|place| place.as_slice()),
        upto: heard.upto,
        code: heard.code.as_ref().map(|code| code.as_slice()),
    }
}

const UPLOAD_OPENED: Told<'_> = Told {
    status: 202,
    place: Some(UPLOAD),
    upto: None,
    code: None,
};

const UPLOAD_TAKEN: Told<'_> = Told {
    upto: Some(2),
    ..UPLOAD_OPENED
};

const UPLOAD_MISPLACED: Told<'_> = Told {
    status: 416,
    code: Some(b"BLOB_UPLOAD_INVALID"),
    ..UPLOAD_TAKEN
};

/// What comes, and what it says.
static REPLIES: [(&str, Told<'_>); 5] = [
    (OPENED, UPLOAD_OPENED),
    (TAKEN_2, UPLOAD_TAKEN),
    (MISPLACED_2, UPLOAD_MISPLACED),
    (
        "HTTP/1.1 202 Accepted\r\nLocation: http://h/v2/lib/a/blobs/uploads/00000001-0000-8000-8000-000000000000\r\n\
         Content-Length: 0\r\n\r\n",
        UPLOAD_OPENED,
    ),
    (
        "HTTP/1.1 404 Not Found\r\nContent-Length: 1\r\n\r\nx",
        Told {
            status: 404,
            place: None,
            upto: None,
            code: None,
        },
    ),
];

/// The first reply of a source says this.
fn says(
    rt: &impl Abort,
    alloc: Global,
    source: MemorySource<'_>,
    head: bool,
    want: Told<'_>,
) -> Result<(), Fail> {
    let mut reader = AnswerReader::new(alloc, source)?;
    let Ok(heard) = reader.next_answer(head) else {
        return Err(Fail::new("no reply"));
    };
    same(rt, as_told(&heard), want, &want.status);
    Ok(())
}

#[test]
fn replies_are_heard(rt: HostRuntime) -> Result<(), Fail> {
    for (text, want) in REPLIES.iter() {
        for step in [1, 65_536] {
            let source = MemorySource::new(text.as_bytes(), step, false);
            says(&rt, rt.alloc(), source, false, *want)?;
        }
    }
    Ok(())
}

/// No replies, also with more line feeds behind them. The last is one of lines alone, of which a head has fewer.
static UNREADABLE: [&str; 6] = [
    "HTTP/1.1 100 Continue\r\n\r\n",
    "HTTP/1.1 202 Accepted\r\nRange: 1-2\r\nContent-Length: 0\r\n\r\n",
    "HTTP/1.1 200 OK\r\nContent-Length: 0\r\nContent-Length: 0\r\n\r\n",
    "HTTP/1.1 200 OK\r\nTransfer-Encoding: chunked\r\n\r\n",
    "HTTP/9.9 200 OK\r\n",
    "",
];

/// Replies that are too large with 65,537 bytes behind them.
static TOO_LARGE: [&str; 2] = [
    "HTTP/1.1 200 OK\r\nContent-Length: 65537\r\n\r\n",
    "HTTP/1.1 200 OK\r\n\r\n",
];

/// Replies that end too early.
static CUT: [&str; 3] = [
    "",
    "HTTP/1.1 200 OK\r\nContent-Length: 0\r\n",
    "HTTP/1.1 200 OK\r\nContent-Length: 2\r\n\r\nx",
];

/// Why nothing is heard of a source, and why at the call behind that.
fn faults_of(
    alloc: Global,
    source: MemorySource<'_>,
) -> Result<[Option<HeardFault>; 2], AllocError> {
    let mut reader = AnswerReader::new(alloc, source)?;
    let first = reader.next_answer(false).err();
    Ok([first, reader.next_answer(false).err()])
}

/// Each text, with so many line feeds behind it and then the end or a read that fails, ends the hearing.
fn are_faults(
    rt: &impl Abort,
    alloc: Global,
    texts: &[&str],
    (count, fails): (usize, bool),
    fault: HeardFault,
) -> Result<(), AllocError> {
    for text in texts {
        let mut bytes = text.as_bytes().to_vec(alloc)?;
        bytes.resize(bytes.len().saturating_add(count), b'\n')?;
        let source = MemorySource::new(&bytes, 7, fails);
        let wanted = [Some(fault), Some(HeardFault::Ended)];
        same(rt, faults_of(alloc, source)?, wanted, text);
    }
    Ok(())
}

#[test]
fn faults_end_the_hearing(rt: HostRuntime) -> Result<(), Fail> {
    let alloc = rt.alloc();
    are_faults(&rt, alloc, &UNREADABLE, (66, true), HeardFault::Unreadable)?;
    are_faults(&rt, alloc, &TOO_LARGE, (65_537, true), HeardFault::TooLarge)?;
    are_faults(&rt, alloc, &CUT, (0, false), HeardFault::Truncated)?;
    are_faults(&rt, alloc, &CUT, (0, true), HeardFault::Read)?;
    Ok(())
}

/// What is answered, of an upload under `lib/a` or of the blob `abc`.
#[derive(Clone, Copy)]
enum Said {
    Base,
    /// To a HEAD of the blob.
    Seen,
    Begun,
    Stored,
    Taken(u64),
    Standing(u64),
    Misplaced(u64),
    Refused(Refusal),
    NoMemory,
}

fn answer_of(said: Said, name: RepoName) -> Answer {
    let at = UploadRef::make(1, [0; 12]);
    let digest = BlobDigest::of_sha256(b"abc");
    match said {
        Said::Base => Answer::Base,
        Said::Seen => Answer::Blob {
            digest,
            size: 3,
            bytes: None,
        },
        Said::Begun => Answer::Begun { name, at },
        Said::Stored => Answer::Stored { name, digest },
        Said::Taken(next) => Answer::Taken { name, at, next },
        Said::Standing(next) => Answer::Standing { name, at, next },
        Said::Misplaced(next) => Answer::Misplaced { name, at, next },
        Said::Refused(refusal) => Answer::Refused(refusal),
        Said::NoMemory => Answer::NoMemory,
    }
}

/// One answer of each kind whose reply a client may read.
static ANSWERS: [Said; 18] = [
    Said::Base,
    Said::Seen,
    Said::Begun,
    Said::Stored,
    Said::Taken(0),
    Said::Taken(1),
    Said::Standing(0),
    Said::Standing(9),
    Said::Misplaced(0),
    Said::Misplaced(3),
    Said::Refused(Refusal::NoForm),
    Said::Refused(Refusal::Method(Form::Upload)),
    Said::Refused(Refusal::NoUpload),
    Said::Refused(Refusal::TooLarge),
    Said::Refused(Refusal::Mismatch),
    Said::Refused(Refusal::TooMany),
    Said::Refused(Refusal::NoBlob),
    Said::NoMemory,
];

/// The reply to an answer.
fn reply_to(alloc: Global, answer: &Answer, head: bool) -> Result<Vec<u8>, Fail> {
    let mut writer = ToWrite::new(Vec::new(alloc));
    write_reply(&mut writer, answer, Style { head, keep: true })?;
    Ok(writer.into_inner())
}

/// What is heard of an answer's reply is what is heard of the answer.
fn is_heard(rt: &impl Abort, alloc: Global, answer: &Answer, head: bool) -> Result<(), Fail> {
    let reply = reply_to(alloc, answer, head)?;
    let wanted = heard_of(alloc, answer)?;
    let source = MemorySource::new(&reply, 11, false);
    says(rt, alloc, source, head, as_told(&wanted))
}

#[test]
fn what_is_read_is_what_was_answered(rt: HostRuntime) -> Result<(), Fail> {
    for said in ANSWERS.iter() {
        let answer = answer_of(*said, RepoName::read(rt.alloc(), b"lib/a")?);
        is_heard(&rt, rt.alloc(), &answer, matches!(said, Said::Seen))?;
    }
    Ok(())
}

/// The number of the upload that the place is of, under a name.
fn number_at(alloc: Global, name: &[u8]) -> Result<Option<u32>, NameFault> {
    let name = RepoName::read(alloc, name)?;
    Ok(read_place(UPLOAD, &name).map(|at| at.number()))
}

#[test]
fn places_are_read_under_their_name(rt: HostRuntime) -> Result<(), Fail> {
    same(&rt, number_at(rt.alloc(), b"lib/a")?, Some(1), &"its name");
    same(&rt, number_at(rt.alloc(), b"lib/b")?, None, &"another name");
    Ok(())
}

/// What comes, the statuses that three asks hear of it, and how many of them are sent.
static HEARD: [(&[&str], [u16; 3], usize); 5] = [
    (&[], [0, 0, 0], 1),
    (&[OPENED, TAKEN_2, MISPLACED_2], [202, 202, 416], 3),
    (&[STORED, NO_UPLOAD], [201, 404, 0], 3),
    (
        &[STORED, "HTTP/1.1 100 Continue\r\n\r\n", NO_UPLOAD],
        [201, 0, 0],
        2,
    ),
    (
        &["HTTP/1.0 200 OK\r\nContent-Length: 0\r\n\r\n", NO_UPLOAD],
        [200, 0, 0],
        1,
    ),
];

/// The three requests.
const ASKED: &[u8] = b"GET /v2/ HTTP/1.1\r\nHost: h\r\n\r\n\
    GET /v2/ HTTP/1.1\r\nHost: h\r\n\r\n\
    GET /v2/ HTTP/1.1\r\nHost: h\r\n\r\n";

/// The status that an ask hears, or 0.
fn status(transport: &mut impl Transport) -> u16 {
    transport.ask(Ask::Base).map_or(0, |heard| heard.status)
}

/// The statuses that three asks hear over a wire. What is written is sent.
fn statuses(
    alloc: Global,
    source: MemorySource<'_>,
    sent: &mut Vec<u8>,
) -> Result<[u16; 3], AllocError> {
    let mut transport = WireTransport::new(alloc, source, ToWrite::new(sent), b"h")?;
    let first = status(&mut transport);
    let second = status(&mut transport);
    Ok([first, second, status(&mut transport)])
}

/// So many of three asks are sent, and hear these statuses. Behind the replies each read fails.
fn are_heard(
    rt: &impl Abort,
    alloc: Global,
    replies: &[u8],
    wanted: [u16; 3],
    count: usize,
) -> Result<(), AllocError> {
    let mut sent = Vec::new(alloc);
    let found = statuses(alloc, MemorySource::new(replies, 1, true), &mut sent)?;
    same(rt, found, wanted, &count);
    same_bytes(rt, sent.as_slice(), &ASKED[..count.min(3) * 30], &count);
    Ok(())
}

#[test]
fn a_transport_asks_and_hears_until_a_fault(rt: HostRuntime) -> Result<(), Fail> {
    for (replies, wanted, count) in HEARD.iter() {
        let replies = joined(rt.alloc(), replies)?;
        are_heard(&rt, rt.alloc(), &replies, *wanted, *count)?;
    }
    Ok(())
}
