//! The client's half of the blob-upload service: asks written as HTTP/1.1 requests, replies read, and a transport over
//! them.
//!
//! `ask` gathers the head of a request and has it written with its body. `answer` has `http_wire` read the head of a
//! reply and its body, and says what is heard in them (`heard`). `transport` is where asks go, whatever carries them,
//! and `wire` is a transport over a reader and a writer. No server stands below it: what both halves speak of is in
//! `upload_texts`.
#![tactic(auto)]

mod answer;
mod ask;
mod heard;
mod laws;
mod transport;
mod wire;

pub use answer::AnswerReader;
pub use ask::write_ask;
pub use heard::{Heard, HeardFault, heard_of, read_place};
pub use laws::{replies_are_unambiguous, written_places_are_read};
pub use transport::{LentChunk, Transport};
pub use wire::WireTransport;
