//! Responses: the grammar of their heads, and their bodies.
ghost use Rattle.http_wire.specs.Inner.HeadSpans.{response_spans};

mod body;
mod parsed;

use crate::head::{Grammar, MAX_FIELDS, Verdict};
pub use body::{
    FramingFault, ResponseBodyEnd, ResponseFraming, read_response_body, response_framing,
    response_keeps_connection,
};
use httparse::Status;
use httparse::spans::{EMPTY_HEADER_SPAN, parse_response};
pub use parsed::ParsedResponse;

/// The heads of responses.
pub struct Responses;

impl Grammar for Responses {
    type Parsed = ParsedResponse;

    ghost spans = { response_spans };

    fn judge(front: &[u8]) -> Verdict<ParsedResponse> {
        let mut headers = [EMPTY_HEADER_SPAN; MAX_FIELDS];
        match parse_response(front, &mut headers) {
            Ok(Status::Complete(spans)) => Verdict::Complete(ParsedResponse { spans, headers }),
            Ok(Status::Partial) => Verdict::Open,
            Err(_) => Verdict::Refused,
        }
    }
}
