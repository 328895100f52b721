//! Bodies (RFC 9112, section 6): how long one is, and how it is read behind its head.
ghost use Rattle.std.specs.Prelude.{◌≡◌, ℕ, ◌+◌, ◌*◌, ◌^◌, ◌<◌, ◌≤◌, List, [], ◌++◌, length, Err, OnOk, OnErr, IfOk};
ghost use Rattle.http_wire.specs.Inputs.{ReadsAtMost, input_of};
ghost use Rattle.http_wire.specs.Inner.BodyReading.{ReadsPart, ReadsBytes, body_state};
ghost use Rattle.http_wire.specs.Inner.BodyFinding.{FindsBody};
ghost use Rattle.http_wire.specs.Body.{most_of, length_of, framing_of};
ghost use Rattle.http_wire.specs.Inner.HeadReading.{fields_of};
ghost use Rattle.http_wire.specs.Inner.HeadSpans.{request_spans};

use crate::bytes::ByteSource;
use crate::chunked::read_chunks;
use crate::fault::{Bad, BodyFault};
use crate::fields::{Occurrence, field_named, is_same_word};
use crate::input::Input;
use crate::requests::ParsedRequest;
use std::alloc::AllocError;

/// How a body stands in the input.
#[derive(Clone, Copy, Debug, PartialEq, Eq)]
pub enum Framing {
    /// So many bytes.
    Length(u64),
    /// Chunks, each behind its size, with at most so many bytes in all.
    Chunked { most: u64 },
}

/// The number that the digits of a Content-Length write. `Length`: they are none. `TooLarge`: it is over the limit.
pub fn length_of(value: &[u8], max_body: u64) -> Result<u64, Bad>
    requires { max_body ≤ 2 ^ 31 }
    ensures value { result ≡ length_of max_body value.now }
    ensures kept { IfOk result (λ n. n ≤ max_body) }
{
    if value.is_empty() {
        return Err(Bad::Length);
    }
    let mut total: u64 = 0;
    for b in value {
        if !b.is_ascii_digit() {
            return Err(Bad::Length);
        }
        if total <= max_body {
            total = total * 10 + u64::from(*b - b'0');
        }
    }
    if total > max_body {
        return Err(Bad::TooLarge);
    }
    Ok(total)
}

/// How the body behind a head is written, which has at most `max_body` bytes. `Length`: its length is unreadable or
/// said twice, or it has a coding too. `TooLarge`: its length is over the limit. `Coding`: a coding other than one
/// `chunked` in HTTP/1.1.
pub fn framing_of(head: &[u8], parsed: &ParsedRequest, max_body: u64) -> Result<Framing, Bad>
    requires limit { max_body ≤ 2 ^ 31 }
    requires head { request_spans.IsHeadOf head.now parsed.now }
    ensures framed { result ≡ framing_of max_body parsed.now.spans.version
        (fields_of request_spans head.now parsed.now) }
    ensures kept { IfOk result (λ framing. most_of framing ≤ max_body) }
{
    let coding = field_named(head, parsed, b"transfer-encoding");
    let length = field_named(head, parsed, b"content-length");
    match (coding, length) {
        (Occurrence::Absent, Occurrence::Absent) => Ok(Framing::Length(0)),
        (Occurrence::Absent, Occurrence::Once(value)) => {
            Ok(Framing::Length(length_of(value, max_body)?))
        }
        (Occurrence::Absent, Occurrence::Repeated) => Err(Bad::Length),
        (Occurrence::Once(coding), Occurrence::Absent)
            if parsed.spans.version == 1 && is_same_word(coding, b"chunked") => {
            Ok(Framing::Chunked { most: max_body })
        }
        (_, Occurrence::Absent) => Err(Bad::Coding),
        (_, _) => Err(Bad::Length),
    }
}

/// What a body is put into as it comes.
pub trait BodyBuffer {
    // The bytes that it holds.
    ghost bytes: { Self → List ℕ };

    /// Puts a piece behind the bytes that it holds. An `Err`, out of memory, changes none of them.
    fn extend(&mut self, piece: &[u8]) -> Result<(), AllocError>
        ensures ok { OnOk result (bytes self.new ≡ bytes self.old ++ piece.now) }
        ensures err { OnErr result (bytes self.new ≡ bytes self.old) };

    /// How many bytes it holds.
    fn len(&self) -> usize
        ensures { result ≡ length (bytes self.now) };
}

impl BodyBuffer for Vec<u8> {
    ghost bytes = { λ v. v.items };

    fn extend(&mut self, piece: &[u8]) -> Result<(), AllocError> {
        self.extend_from_slice(piece)
    }

    fn len(&self) -> usize {
        self.as_slice().len()
    }
}

/// How the reading of a body ended.
#[derive(Clone, Copy, Debug, PartialEq, Eq)]
pub enum BodyEnd {
    /// The body came whole.
    Whole,
    /// What came is no body of the framing, and why.
    Refused(Bad),
}

/// Moves some bytes to the end of a body, at least one and no more than are left of it.
fn read_part<S: ByteSource, B: BodyBuffer>(
    input: &mut Input<'_, S>,
    body: &mut B,
    left: usize,
) -> Result<usize, BodyFault>
    requires { 0 < left }
    ensures found { ReadsPart (body_state (input_of S.state input.old) (B.bytes body.old))
        (body_state (input_of S.state input.new) (B.bytes body.new)) left result }
    ensures costs { ReadsAtMost S.state 1 (result ≡ Err BodyFault.Read) input.old input.new }
{
    if input.byte(0)?.is_none() {
        return Err(BodyFault::Truncated);
    }
    let unread = input.unread();
    let count = left.min(unread.len());
    body.extend(&unread[..count])?;
    input.take(count);
    Ok(count)
}

/// Moves so many bytes to the end of a body, which grows as they come, or all up to the end of the input if that
/// comes before them, which is `Truncated`.
pub fn read_bytes<S: ByteSource, B: BodyBuffer>(
    input: &mut Input<'_, S>,
    body: &mut B,
    count: usize,
) -> Result<(), BodyFault>
    ensures found { ReadsBytes (body_state (input_of S.state input.old) (B.bytes body.old))
        (body_state (input_of S.state input.new) (B.bytes body.new)) count result }
    ensures costs { ReadsAtMost S.state count (result ≡ Err BodyFault.Read) input.old input.new }
{
    let mut left = count;
    while left > 0 {
        left -= read_part(input, body, left)?;
    }
    Ok(())
}

/// Reads the body of that framing into an empty buffer, which grows as it comes. `Truncated`: the input ended
/// inside it. `Read`: a read failed. `NoMemory`: a growth was refused.
pub fn read_body<S: ByteSource, B: BodyBuffer>(
    input: &mut Input<'_, S>,
    body: &mut B,
    framing: Framing,
) -> Result<BodyEnd, BodyFault>
    requires limit { most_of framing ≤ 2 ^ 31 }
    requires empty { B.bytes body.old ≡ [] }
    ensures found { FindsBody framing (input_of S.state input.old) (input_of S.state input.new)
        (B.bytes body.new) result }
    ensures costs { ReadsAtMost S.state (12 + 13 * most_of framing) (result ≡ Err BodyFault.Read)
        input.old input.new }
{
    match framing {
        Framing::Length(length) => {
            read_bytes(input, body, length as usize)?;
            Ok(BodyEnd::Whole)
        }
        Framing::Chunked { most } => read_chunks(input, body, most),
    }
}
