//! The grammar of requests.
ghost use Rattle.http_wire.specs.Inner.HeadSpans.{request_spans};

mod parsed;

use crate::head::{Grammar, MAX_FIELDS, Verdict};
use httparse::Status;
use httparse::spans::{EMPTY_HEADER_SPAN, parse_request};
pub use parsed::ParsedRequest;

/// The heads of requests.
pub struct Requests;

impl Grammar for Requests {
    type Parsed = ParsedRequest;

    ghost spans = { request_spans };

    fn judge(front: &[u8]) -> Verdict<ParsedRequest> {
        let mut headers = [EMPTY_HEADER_SPAN; MAX_FIELDS];
        match parse_request(front, &mut headers) {
            Ok(Status::Complete(spans)) => Verdict::Complete(ParsedRequest { spans, headers }),
            Ok(Status::Partial) => Verdict::Open,
            Err(_) => Verdict::Refused,
        }
    }
}
