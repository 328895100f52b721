//! The values that requests and replies name: repositories, digests, ranges of bytes, references of upload
//! sessions, and bodies. Each is read from its text and written back, and contracts see it as the plain value
//! that its text spells; the definitions are those of `specs/`.
#![tactic(auto)]

mod bytes;
mod digest;
mod name;
mod range;
mod reference;

pub use bytes::Bytes;
pub use digest::{Algorithm, BlobDigest, DigestText, NotADigest, digests_are_decided};
pub use name::{NameFault, RepoName, names_are_decided};
pub use range::{ByteRange, NotARange, ranges_are_decided};
pub use reference::{NotAReference, UploadRef, references_read_back};
