//! HTTP/1.1 requests and replies of the blob-upload service, from bytes and to bytes.
//!
//! Requests come through `input`, which has `http_wire` read a head, and `request` reads what that asks (`asks`) and
//! its body (`coming`). `connection` asks a `desk`, tells an `observer`, and `reply` gathers the head of the reply and
//! has it written with its body.
#![tactic(auto)]

mod asks;
mod coming;
mod connection;
mod desk;
mod input;
mod laws;
mod observer;
mod reader;
mod reply;
mod request;

pub use connection::{ConnEnd, ConnFault, ConnectionServer, serve_connection};
pub use desk::{Desk, NotAsked, ServiceDesk};
pub use laws::{
    connections_run_the_service, conversations_are_determined, requests_are_unambiguous,
    service_desks_are_deterministic, transcripts_tell_conversations,
};
pub use observer::{NoObserver, Observer, RequestLine};
pub use reader::RequestReader;
pub use reply::{body_size, reply_status, write_reply};
pub use request::{Next, Style};
