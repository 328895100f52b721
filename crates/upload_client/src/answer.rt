//! Replies, read from a source of bytes.
ghost use Rattle.std.specs.Prelude.{◌≡◌, ℕ, ◌==◌, [], length, option_map, Err, IfOk, false, true, is_err};
ghost use Rattle.serde_json.specs.View.{view};
ghost use Rattle.http_wire.specs.States.{input_state};
ghost use Rattle.http_wire.specs.Reading.{Costs};
ghost use Rattle.http_wire.specs.Inputs.{ReadsAtMost, input_of};
ghost use Rattle.http_wire.specs.Fields.{Fields};
ghost use Rattle.upload_client.specs.AnswerText.{ReadsAnswer, code_in, code_of, most_answer_reads, upto_of};
ghost use Rattle.http_wire.specs.Inner.HeadReading.{IsHeadAtFront, fields_of};
ghost use Rattle.http_wire.specs.Inner.HeadSpans.{response_spans};
ghost use Rattle.upload_client.specs.Inner.AnswerReading.{FindsReply, PlaceUnlessNoMemory, Says, SaysBare};

use crate::heard::{Heard, HeardFault, SaidFault};
use http_uri::{Uri, UriError};
use http_wire::{
    ByteSource, HeadRead, Input, ParsedResponse, ReadBuffer, ResponseBodyEnd, Responses,
    first_among, read_head, read_response_body, response_framing, response_keeps_connection,
};
use serde_json::Value;
use std::alloc::{AllocError, Global};
use std::marker::Model;
use upload_names::{ByteRange, Bytes};

/// The most bytes of a reply's body.
const MAX_ANSWER: u64 = 65_536;

/// The first error code of a body.
fn code_of(alloc: Global, body: &[u8]) -> Result<Option<Bytes>, AllocError>
    ensures { IfOk result (λ code. code ≡ code_of body.now) }
{
    let value = match Value::from_slice(alloc, body) {
        Ok(value) => value,
        Err(error) => {
            return if error.is_memory() {
                Err(AllocError)
            } else {
                Ok(None)
            };
        }
    };
    let Some(code) = first_code(&value) else {
        return Ok(None);
    };
    match Vec::from_slice(alloc, code.as_bytes()) {
        Ok(text) => Ok(Some(Bytes::of(text))),
        Err(_) => Err(AllocError),
    }
}

/// The code of the first of the errors.
fn first_code(value: &Value) -> Option<&str>
    ensures { option_map (λ s. s.now) result ≡ code_in (view value.now) }
{
    let first = value.get("errors").and_then(|errors| errors.get(0));
    first
        .and_then(|first| first.get("code"))
        .and_then(Value::as_str)
}

/// The path of a Location.
fn place_of(alloc: Global, value: Option<&[u8]>) -> Result<Option<Bytes>, SaidFault>
    ensures { PlaceUnlessNoMemory (option_map (λ v. v.now) value.entry) result }
{
    let Some(value) = value else {
        return Ok(None);
    };
    let uri = match Uri::from_bytes(alloc, value) {
        Ok(uri) => uri,
        Err(UriError::Invalid(_)) => return Err(SaidFault::Unreadable),
        Err(UriError::OutOfMemory) => return Err(SaidFault::NoMemory),
    };
    match Vec::from_slice(alloc, uri.path().as_bytes()) {
        Ok(path) => Ok(Some(Bytes::of(path))),
        Err(_) => Err(SaidFault::NoMemory),
    }
}

/// The last position of a Range, which begins at 0.
fn upto_of(value: Option<&[u8]>) -> Result<Option<u64>, SaidFault>
    ensures { result ≡ upto_of (option_map (λ v. v.now) value.entry) }
{
    let Some(value) = value else {
        return Ok(None);
    };
    match ByteRange::read(value) {
        Some(range) => {
            if range.first == 0 {
                Ok(Some(range.last))
            } else {
                Err(SaidFault::Unreadable)
            }
        }
        None => Err(SaidFault::Unreadable),
    }
}

/// What a head says, with no code yet.
fn said_of(alloc: Global, head: &[u8], parsed: &ParsedResponse) -> Result<Heard, SaidFault>
    requires { response_spans.IsHeadOf head.now parsed.now }
    ensures { SaysBare parsed.now.spans.code (fields_of response_spans head.now parsed.now) result }
{
    let headers = &parsed.headers[..parsed.spans.headers];
    let place = place_of(alloc, first_among(head, headers, b"location"))?;
    let upto = upto_of(first_among(head, headers, b"range"))?;
    Ok(Heard {
        status: parsed.spans.code,
        place,
        upto,
        code: None,
    })
}

/// What a head said, and the code of the body.
fn with_code(alloc: Global, said: Result<Heard, SaidFault>, body: &[u8]) -> Result<Heard, SaidFault>
    ensures { (status : ℕ) (fields : Fields) → SaysBare status fields said
        → Says status fields body.now result }
{
    let said = said?;
    match code_of(alloc, body) {
        Ok(code) => Ok(Heard { code, ..said }),
        Err(_) => Err(SaidFault::NoMemory),
    }
}

/// A reply, read whole.
#[derive(Drop)]
struct ReplyRead {
    heard: Heard,
    /// Whether the connection stays behind it.
    keep: bool,
}

/// Reads the body behind a head, and takes both.
fn read_framed<S: ByteSource>(
    alloc: Global,
    input: &mut Input<'_, S>,
    parsed: &ParsedResponse,
    head_only: bool,
) -> Result<ReplyRead, HeardFault>
    requires { IsHeadAtFront response_spans input.old.buffer.now parsed.now }
    ensures found { FindsReply head_only (input_of S.state input.old) (input_of S.state input.new)
        result }
    ensures costs { ReadsAtMost S.state 65537 (result ≡ Err HeardFault.Read) input.old input.new }
{
    let head = &input.unread()[..parsed.spans.len];
    let framing = response_framing(head, parsed, head_only, MAX_ANSWER)?;
    // What the head says is heard once the body is there.
    let said = said_of(alloc, head, parsed);
    let keep = response_keeps_connection(head, parsed, framing);
    input.take(parsed.spans.len);
    let mut body = Vec::new(alloc);
    match read_response_body(input, &mut body, framing)? {
        ResponseBodyEnd::Whole => {
            let heard = with_code(alloc, said, &body)?;
            Ok(ReplyRead { heard, keep })
        }
        ResponseBodyEnd::TooLarge => Err(HeardFault::TooLarge),
    }
}

/// Reads the next reply.
fn read_answer<S: ByteSource>(
    alloc: Global,
    input: &mut Input<'_, S>,
    head_only: bool,
) -> Result<ReplyRead, HeardFault>
    ensures found { FindsReply head_only (input_of S.state input.old) (input_of S.state input.new)
        result }
    ensures costs { ReadsAtMost S.state most_answer_reads (result ≡ Err HeardFault.Read)
        input.old input.new }
{
    match read_head::<Responses, S>(input)? {
        HeadRead::Head(parsed) => read_framed(alloc, input, &parsed, head_only),
        HeadRead::Over => Err(HeardFault::Truncated),
        HeadRead::Refused => Err(HeardFault::Unreadable),
        HeadRead::TooLong => Err(HeardFault::TooLarge),
    }
}

/// Reads the replies to a client's requests, one after another.
#[derive(Drop)]
pub struct AnswerReader<S: ByteSource> {
    alloc: Global,
    source: S,
    buffer: ReadBuffer,
    ended: bool,
    keep: bool,
}

impl<S: ByteSource> Model for AnswerReader<S> {
    ghost use Rattle.http_wire.specs.States.{input_state};
    ghost use Rattle.upload_client.specs.AnswerText.{AnswerReaderState};

    ghost Value = { AnswerReaderState };

    ghost view = { λ r. record {
      input = input_state r.buffer (S.state r.source);
      ended = r.ended;
      keep = r.keep;
    } };
}

impl<S: ByteSource> AnswerReader<S> {
    /// A reader of the replies that the source gives. It takes a buffer of 65,536 bytes.
    pub fn new(alloc: Global, source: S) -> Result<AnswerReader<S>, AllocError>
    where
        S: Drop,
        ensures { IfOk result (λ reader. reader ≡ record {
          input = input_state [] (S.state source);
          ended = false;
          keep = true;
        }) }
    {
        let buffer = ReadBuffer::new(alloc)?;
        Ok(AnswerReader::over(alloc, source, buffer))
    }

    /// A reader of the replies that the source gives, through this buffer, which is empty.
    pub(crate) fn over(alloc: Global, source: S, buffer: ReadBuffer) -> AnswerReader<S>
    where
        S: Drop,
        requires { buffer ≡ [] }
        ensures { result ≡ record {
          input = input_state [] (S.state source);
          ended = false;
          keep = true;
        } }
    {
        AnswerReader {
            alloc,
            source,
            buffer,
            ended: false,
            keep: true,
        }
    }

    /// Reads the reply to one request, whose method was HEAD if `head`, and takes just its bytes.
    /// The faults come in this order, and after one every call answers `Ended` and reads nothing:
    ///
    /// - `Unreadable`, `TooLarge` or `Truncated` for a head that is none, that has over 16,384 bytes,
    ///   or that the input ends before;
    /// - `Unreadable` for a status below 200, a Transfer-Encoding, and a Content-Length that is no
    ///   number or is said twice; `TooLarge` for one over 65,536 of a reply that has a body;
    /// - `Truncated` for an input that ends before so many bytes, and `TooLarge` for a body without a
    ///   length that goes on behind 65,536;
    /// - `Unreadable` for a Location that is no URI, and then for a Range that isn't one from 0.
    ///
    /// `Read` comes only if a read failed in this call, before the reply had come whole, and
    /// `NoMemory` if a growth was refused.
    pub fn next_answer(&mut self, head: bool) -> Result<Heard, HeardFault>
        ensures ended { self.old.ended ≡ true
            → (result ≡ Err HeardFault.Ended) × (self.new ≡ self.old) }
        ensures found { self.old.ended ≡ false
            → ReadsAnswer head self.old.input self.new.input result self.new.keep }
        ensures ends { self.new.ended ≡ is_err result }
        ensures costs { Costs most_answer_reads (result ≡ Err HeardFault.Read)
            self.old.input.source self.new.input.source }
    {
        if self.ended {
            return Err(HeardFault::Ended);
        }
        let mut input = Input::new(&mut self.source, &mut self.buffer);
        let reply = read_answer(self.alloc, &mut input, head);
        self.ended = reply.is_err();
        let reply = reply?;
        self.keep = reply.keep;
        Ok(reply.heard)
    }

    /// Whether the connection stays after the reply that was read last: its version is HTTP/1.1, no `Connection` field
    /// lists `close`, and its body doesn't go to the end of the input (RFC 9112, sections 6.3 and 9.3). `true` before
    /// the first reply; behind a fault it says nothing.
    pub fn keeps_connection(&self) -> bool
        ensures { result ≡ self.now.keep }
    {
        self.keep
    }

    /// The source, as the replies that were read left it.
    pub fn into_source(self) -> S
        ensures { S.state result ≡ self.input.source }
    {
        let AnswerReader { source, .. } = self;
        source
    }

    /// Whether nothing was read after that reply.
    pub(crate) fn holds_none(&self) -> bool
        ensures { result ≡ (length self.now.input.held == 0) }
    {
        self.buffer.len() == 0
    }
}
