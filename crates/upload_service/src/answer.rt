//! What a request is answered.

use upload_bytes::BlobBytes;
use upload_names::{BlobDigest, RepoName, UploadRef};

/// The forms of a request's path.
#[derive(Clone, Copy, Debug, PartialEq, Eq)]
pub enum Form {
    /// `/v2/`
    Base,
    /// `/v2/<name>/blobs/<digest>`
    Blob,
    /// `/v2/<name>/blobs/uploads/`
    Uploads,
    /// `/v2/<name>/blobs/uploads/<reference>`
    Upload,
}

/// Why a request is refused. A refusal leaves the service as it was.
#[derive(Clone, Copy, Debug, PartialEq, Eq)]
pub enum Refusal {
    /// The path is of no known form, or the target couldn't be read.
    NoForm,
    /// The name isn't one, or it has over 255 bytes.
    BadName,
    /// The method isn't one of the form's.
    Method(Form),
    /// No such session is open under the name: it couldn't be read, was never begun, was closed, or is idle.
    NoUpload,
    /// The Content-Range isn't of its form, or it is given twice.
    BadRange,
    /// The range's last position is before its first, or its length isn't the body's.
    WrongLength,
    /// The blob would be over the limit.
    TooLarge,
    /// The digest that has to be given is absent or couldn't be read.
    NoDigest,
    /// The content's digest isn't the one that was given.
    Mismatch,
    /// A request that takes no body has one.
    HasBody,
    /// As many sessions are open and not idle as may be, or all numbers were given out.
    TooMany,
    /// The repository doesn't have the blob.
    NoBlob,
    /// The digest in a blob's path couldn't be read.
    BadDigest,
}

/// The answer to a request. Its name is moved from the request.
#[derive(Drop)]
pub enum Answer {
    /// The registry is there.
    Base,
    /// The repository has the blob.
    Blob {
        digest: BlobDigest,
        /// How many bytes the blob has.
        size: u64,
        /// The blob's bytes, or None if the size alone was asked for.
        bytes: Option<BlobBytes>,
    },
    /// A session was opened.
    Begun {
        name: RepoName,
        at: UploadRef,
    },
    /// The blob stands under the digest, and the repository has it.
    Stored {
        name: RepoName,
        digest: BlobDigest,
    },
    /// The session took the chunk.
    Taken {
        name: RepoName,
        at: UploadRef,
        /// How many bytes the session has received now.
        next: u64,
    },
    /// The session is open.
    Standing {
        name: RepoName,
        at: UploadRef,
        /// How many bytes the session has received.
        next: u64,
    },
    /// The range's first position isn't the next offset. Nothing changed.
    Misplaced {
        name: RepoName,
        at: UploadRef,
        /// How many bytes the session has received.
        next: u64,
    },
    /// The request is refused. Nothing changed.
    Refused(Refusal),
    /// A growth was refused. Nothing changed.
    NoMemory,
}
