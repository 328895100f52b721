//! What a journal keeps.

use crate::body::KeptBody;
use upload_names::{BlobDigest, ByteRange, RepoName, UploadRef};

/// A request that can change something, as it is kept. The others are answered and forgotten.
#[derive(Drop)]
pub enum KeptAsk {
    /// POST that opens a session.
    Opening {
        name: RepoName,
    },
    /// POST of a whole blob.
    Single {
        name: RepoName,
        digest: BlobDigest,
        body: KeptBody,
    },
    /// POST that mounts a blob of another repository.
    Mount {
        name: RepoName,
        digest: BlobDigest,
        source: RepoName,
    },
    /// PATCH that sends a session a chunk.
    Chunk {
        name: RepoName,
        at: UploadRef,
        /// The positions of the body's first and last byte, if there was a Content-Range.
        range: Option<ByteRange>,
        body: KeptBody,
    },
    /// PUT that closes a session, with its last chunk.
    Close {
        name: RepoName,
        at: UploadRef,
        /// The positions of the body's first and last byte, if there was a Content-Range.
        range: Option<ByteRange>,
        digest: BlobDigest,
        body: KeptBody,
    },
}

/// An answer in short: what was changed.
#[derive(Clone, Copy)]
pub enum KeptAnswer {
    /// The session of this reference was opened.
    Begun(UploadRef),
    /// The session took the chunk, and has received this many bytes now.
    Taken(u64),
    /// The blob of this digest stands, and the repository has it.
    Stored(BlobDigest),
}

/// A request that changed something: what the service was given, and its answer in short.
#[derive(Drop)]
pub struct KeptExchange {
    pub ask: KeptAsk,
    /// The secret that came with the request.
    pub secret: [u8; 12],
    /// The moment when it was served, in seconds.
    pub now: u64,
    pub answer: KeptAnswer,
}

/// One entry of a journal.
#[derive(Drop)]
pub enum Entry {
    /// A request that changed something.
    Exchange(KeptExchange),
    /// The numbers up to this one are used up: no session gets one of them.
    NumbersUpTo(u32),
    /// Answers may have been given at each moment up to this one, in seconds.
    MomentsUpTo(u64),
}
