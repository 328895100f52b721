//! The body of a response (RFC 9112, section 6.3): how far it goes, and what it is, read behind its head.
ghost use Rattle.std.specs.Prelude.{◌≡◌, ◌+◌, ◌^◌, ◌≤◌, [], Err, ◌∷◌, IfOk};
ghost use Rattle.http_wire.specs.Inputs.{ReadsAtMost, input_of};
ghost use Rattle.http_wire.specs.ResponseBody.{IsFraming, most_of_response, response_framing_by_length};
ghost use Rattle.http_wire.specs.ResponseBody.{response_framing_of, keeps_on};
ghost use Rattle.http_wire.specs.Inner.ResponseBodyFinding.{FindsResponseBody, end_of};
ghost use Rattle.http_wire.specs.Inner.HeadReading.{fields_of};
ghost use Rattle.http_wire.specs.Inner.HeadSpans.{response_spans};

use super::parsed::ParsedResponse;
use crate::body::{BodyBuffer, length_of, read_bytes};
use crate::bytes::ByteSource;
use crate::fault::{Bad, BodyFault};
use crate::fields::{Occurrence, field_among, lists_close};
use crate::input::Input;

/// How far the body of a response goes.
#[derive(Clone, Copy, Debug, PartialEq, Eq)]
pub enum ResponseFraming {
    /// So many bytes.
    Length(u64),
    /// All up to the end of the input, of which at most so many bytes are read.
    ToEnd(u64),
}

/// Why no body is read behind the head of a response.
#[derive(Clone, Copy, Debug, Drop, PartialEq, Eq)]
pub enum FramingFault {
    /// The head frames no body that is read.
    Unreadable,
    /// Its body is over the limit.
    TooLarge,
}

/// How far a body of a said length goes, if the response has one.
fn sized(value: &[u8], max_body: u64, empty: bool) -> Result<ResponseFraming, FramingFault>
    requires { max_body ≤ 2 ^ 31 }
    ensures framed { result ≡ response_framing_by_length max_body empty (value.now ∷ []) }
    ensures kept { IfOk result (IsFraming max_body) }
{
    match length_of(value, max_body) {
        Ok(length) => Ok(ResponseFraming::Length(if empty { 0 } else { length })),
        Err(Bad::Length) => Err(FramingFault::Unreadable),
        Err(_) => {
            if empty {
                Ok(ResponseFraming::Length(0))
            } else {
                Err(FramingFault::TooLarge)
            }
        }
    }
}

/// How far the body behind a head goes (RFC 9112, section 6.3), if the request was a HEAD or another. `Unreadable`:
/// a status below 200, a coding, or a length that is unreadable or said twice. `TooLarge`: a length over the limit, of
/// a response that has a body.
pub fn response_framing(
    head: &[u8],
    parsed: &ParsedResponse,
    to_head: bool,
    max_body: u64,
) -> Result<ResponseFraming, FramingFault>
    requires limit { max_body ≤ 2 ^ 31 }
    requires head { response_spans.IsHeadOf head.now parsed.now }
    ensures framed { result ≡ response_framing_of max_body to_head parsed.now.spans.code
        (fields_of response_spans head.now parsed.now) }
    ensures kept { IfOk result (IsFraming max_body) }
{
    let status = parsed.spans.code;
    if status < 200 {
        return Err(FramingFault::Unreadable);
    }
    let headers = &parsed.headers[..parsed.spans.headers];
    match field_among(head, headers, b"transfer-encoding") {
        Occurrence::Absent => {}
        _ => return Err(FramingFault::Unreadable),
    }
    let empty = to_head || status == 204 || status == 304;
    match field_among(head, headers, b"content-length") {
        Occurrence::Absent => Ok(if empty {
            ResponseFraming::Length(0)
        } else {
            ResponseFraming::ToEnd(max_body)
        }),
        Occurrence::Once(value) => sized(value, max_body, empty),
        Occurrence::Repeated => Err(FramingFault::Unreadable),
    }
}

/// Whether the connection stays behind the response of this head (RFC 9112, sections 6.3 and 9.3): its version and its
/// fields keep it, and its body doesn't go to the end of the input.
pub fn response_keeps_connection(
    head: &[u8],
    parsed: &ParsedResponse,
    framing: ResponseFraming,
) -> bool
    requires { response_spans.IsHeadOf head.now parsed.now }
    ensures { result
        ≡ keeps_on parsed.now.spans.version (fields_of response_spans head.now parsed.now) framing }
{
    match framing {
        ResponseFraming::Length(_) => {
            let headers = &parsed.headers[..parsed.spans.headers];
            parsed.spans.version == 1 && !lists_close(head, headers)
        }
        ResponseFraming::ToEnd(_) => false,
    }
}

/// How the reading of a response's body ended.
#[derive(Clone, Copy, Debug, PartialEq, Eq)]
pub enum ResponseBodyEnd {
    /// The body came whole.
    Whole,
    /// It goes on behind the most bytes that are read of it.
    TooLarge,
}

/// Reads a body that goes to the end of the input.
fn read_to_end<S: ByteSource, B: BodyBuffer>(
    input: &mut Input<'_, S>,
    body: &mut B,
    most: u64,
) -> Result<ResponseBodyEnd, BodyFault>
    requires small { most ≤ 2 ^ 31 }
    requires empty { B.bytes body.old ≡ [] }
    ensures found { FindsResponseBody (ResponseFraming.ToEnd most) (input_of S.state input.old)
        (input_of S.state input.new) (B.bytes body.new) result }
    ensures costs { ReadsAtMost S.state (most + 1) (result ≡ Err BodyFault.Read)
        input.old input.new }
{
    match read_bytes(input, body, most as usize + 1) {
        Ok(()) => Ok(ResponseBodyEnd::TooLarge),
        Err(fault) => end_of(fault),
    }
}

/// What a fault means to a body that goes to the end of the input.
fn end_of(fault: BodyFault) -> Result<ResponseBodyEnd, BodyFault>
    ensures { result ≡ end_of fault }
{
    match fault {
        BodyFault::Truncated => Ok(ResponseBodyEnd::Whole),
        BodyFault::Read | BodyFault::NoMemory => Err(fault),
    }
}

/// Reads the body of that framing into an empty buffer, which grows as it comes. `Truncated`: the input ended inside a
/// body of a length. `Read`: a read failed. `NoMemory`: a growth was refused.
pub fn read_response_body<S: ByteSource, B: BodyBuffer>(
    input: &mut Input<'_, S>,
    body: &mut B,
    framing: ResponseFraming,
) -> Result<ResponseBodyEnd, BodyFault>
    requires small { IsFraming (2 ^ 31) framing }
    requires empty { B.bytes body.old ≡ [] }
    ensures found { FindsResponseBody framing (input_of S.state input.old)
        (input_of S.state input.new) (B.bytes body.new) result }
    ensures costs { ReadsAtMost S.state (most_of_response framing + 1) (result ≡ Err BodyFault.Read)
        input.old input.new }
{
    match framing {
        ResponseFraming::Length(length) => {
            read_bytes(input, body, length as usize)?;
            Ok(ResponseBodyEnd::Whole)
        }
        ResponseFraming::ToEnd(most) => read_to_end(input, body, most),
    }
}
