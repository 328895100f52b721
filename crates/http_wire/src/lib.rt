//! HTTP/1.1 messages, from bytes and to bytes (RFC 9112): what is the same for each service and each client.
//!
//! Readers and writers (`bytes`) tell their contracts which bytes they move, which they have moved so far
//! (`transcript`), and how often they are called. What is read stands in one buffer (`input`) until it is taken. A
//! head is read by one loop over the grammar of requests (`requests`) or of responses (`responses`), and its fields
//! (`fields`, `elements`) say how its body is framed, which is read behind it (`body`, `chunked`); a response's stands
//! in `responses`. A head is gathered before it is written, and what is written goes out whole (`writing`). A query has
//! parameters (`query`).
#![tactic(auto)]

mod body;
mod bytes;
mod calls;
mod chunked;
mod elements;
mod excerpt;
mod fault;
mod fields;
mod given;
mod head;
mod history;
mod input;
mod laws;
mod query;
mod refusal;
mod requests;
mod responses;
mod status;
mod transcript;
mod writing;

pub use body::{BodyBuffer, BodyEnd, Framing, framing_of, length_of, read_body, read_bytes};
pub use bytes::{ByteSink, ByteSource, Failed, FromRead, ToWrite};
pub use excerpt::Excerpt;
pub use fault::{Bad, BodyFault, InputFault, WireFault};
pub use fields::{
    Occurrence, field_among, field_named, first_among, is_same_word, keeps_connection, lists_close,
};
pub use given::Given;
pub use head::{Grammar, HeadRead, MAX_FIELDS, MAX_HEAD, Verdict, read_head};
pub use history::History;
pub use input::{CAPACITY, Input, ReadBuffer};
pub use laws::{bodies_are_unambiguous, heads_are_unambiguous, transcripts_are_of_the_known};
pub use query::parameter;
pub use refusal::{bad_status, write_bad};
pub use requests::{ParsedRequest, Requests};
pub use responses::{
    FramingFault, ParsedResponse, ResponseBodyEnd, ResponseFraming, Responses, read_response_body,
    response_framing, response_keeps_connection,
};
pub use status::Status;
pub use transcript::Transcript;
pub use writing::{Gather, WriteFault, then_flush, then_write, write_all, write_excerpt};
