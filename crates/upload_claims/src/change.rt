//! What a journal keeps: changes.

use upload_names::{BlobDigest, RepoName, UploadRef};

/// Where the bytes of a body are.
#[derive(Clone, Copy, Debug, PartialEq, Eq)]
pub enum Place {
    /// In the record of this number.
    Record(u64),
    /// In the file of this number.
    File(u64),
}

/// One body after others: where it is, and how many bytes it and those before it have together.
#[derive(Clone, Copy, Debug, PartialEq, Eq)]
pub struct Stretch {
    pub place: Place,
    pub end: u64,
}

/// One change. It says where it applies, and not only what is added, so that a change after one that was lost is
/// either whole by itself or is seen not to fit.
#[derive(Drop)]
pub enum Change {
    /// The numbers up to this one are used up.
    NumbersUpTo(u32),
    /// The moments up to this one, in seconds, may have been told.
    MomentsUpTo(u64),
    /// The uploads that were last seen before this moment have left.
    LapsedBefore(u64),
    /// An upload was begun.
    Began {
        at: UploadRef,
        name: RepoName,
        now: u64,
    },
    /// An upload took a body after so many bytes.
    Took {
        at: UploadRef,
        now: u64,
        from: u64,
        stretch: Stretch,
    },
    /// An upload was seen, and took no bytes.
    Seen {
        at: UploadRef,
        now: u64,
    },
    /// An upload that had so many bytes was closed: they are the blob of this digest.
    Closed {
        at: UploadRef,
        digest: BlobDigest,
        end: u64,
    },
    /// One body is the blob of this digest.
    Stored {
        digest: BlobDigest,
        stretch: Stretch,
    },
    /// No bytes are the blob of this digest, or the beginning of it.
    Laid {
        digest: BlobDigest,
    },
    /// A further body of a blob, after so many bytes.
    Joined {
        digest: BlobDigest,
        from: u64,
        stretch: Stretch,
    },
    /// A repository has a blob.
    Has {
        name: RepoName,
        digest: BlobDigest,
    },
}
