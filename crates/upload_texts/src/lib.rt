//! Texts that a server of uploads writes and a client knows: the paths of uploads and of blobs (`specs/Paths.antt`),
//! and the errors that replies name, with the status and the error of each refusal; and how the parts of a body and the
//! stretches of a blob are written.
//!
//! Both halves speak of these, `upload_wire` and `upload_client`, and neither stands on the other. They aren't part of
//! `http_wire`, which knows no upload, nor of `upload_service`, which knows no HTTP.
#![tactic(auto)]

mod error;
mod parts;
mod refusal;

pub use error::ErrorCode;
pub use parts::{put_parts, put_stretches};
pub use refusal::{refusal_code, refusal_status};
