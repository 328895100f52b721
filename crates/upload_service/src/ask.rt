//! What a request asks.

use crate::answer::Refusal;
use upload_bytes::{Body, Gone};
use upload_names::{BlobDigest, ByteRange, RepoName, UploadRef};

/// The Content-Range of a request for an upload.
#[derive(Clone, Copy)]
pub enum Extent {
    /// There is none: the body begins where the session stands.
    Absent,
    /// There is one, and it isn't of the form `<first>-<last>`, or it is given twice.
    Bad,
    /// The positions of the body's first and last byte.
    Given(ByteRange),
}

/// One request, as a service is asked it. A digest of None was absent or couldn't be read.
#[derive(Drop)]
pub enum Ask {
    /// Whether the registry is there: GET `/v2/`.
    Base,
    /// GET or HEAD of a blob of a repository.
    Has {
        name: RepoName,
        digest: BlobDigest,
        /// Whether the size alone is asked for.
        head: bool,
    },
    /// POST that opens a session.
    Opening {
        name: RepoName,
    },
    /// POST of a whole blob.
    Single {
        name: RepoName,
        digest: Option<BlobDigest>,
        body: Body,
    },
    /// POST that mounts a blob of another repository.
    Mount {
        name: RepoName,
        digest: BlobDigest,
        source: RepoName,
    },
    /// PATCH that sends a session a chunk.
    Chunk {
        name: RepoName,
        at: UploadRef,
        range: Extent,
        body: Body,
    },
    /// GET of a session's offset.
    Status {
        name: RepoName,
        at: UploadRef,
    },
    /// PUT that closes a session, with its last chunk, which may be empty.
    Close {
        name: RepoName,
        at: UploadRef,
        range: Extent,
        digest: Option<BlobDigest>,
        body: Body,
    },
    /// A request that was refused before it came to the service.
    Refused(Refusal),
}

/// A chunk whose bytes were let go as they came, since there was no room for them.
#[derive(Drop)]
pub struct GoneChunk {
    pub name: RepoName,
    pub at: UploadRef,
    pub range: Extent,
    pub body: Gone,
}

/// A request as it comes to be served.
#[derive(Drop)]
pub enum Request {
    Held(Ask),
    Gone(GoneChunk),
}
