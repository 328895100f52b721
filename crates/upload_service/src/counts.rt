//! What a service holds, as numbers.

/// How many blobs and uploads a service has, and how many bytes each of these come to. A sum that no `u64` holds is the
/// greatest number there is.
#[derive(Clone, Copy)]
pub struct Counts {
    /// How many blobs are stored.
    pub blobs: u64,
    /// How many bytes the blobs have together.
    pub stored: u64,
    /// How many uploads are open, those that are idle too.
    pub uploads: u64,
    /// How many bytes the open uploads have received together.
    pub received: u64,
}
