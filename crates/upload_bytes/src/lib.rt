//! The bytes of bodies, of open uploads and of stored blobs, and their hashes.
//!
//! A body (`body`) is read into parts (`part`), which have several owners and are never copied, and is hashed as it
//! comes (`hashing`), in place or in a thread, for whose end others may wait (`thread_end`). It may be written as it
//! comes too, into a file of a spool (`spool`, `filing`). What an upload received (`received`) are the parts of its
//! bodies, one after another (`segments`), with hashes that catch up with them (`prefix_hash`). A body may be hashed
//! behind that (`front`). A blob (`blob`) is kept in the parts that it arrived in, and is handed out in them
//! (`shared`). Bytes that a file has needn't be in memory (`filed`): a blob is a list of stretches (`stretch`), each in
//! memory or in a file. Many bytes that lose their last owner go in a thread (`shares`). What there is no room for is let go as
//! it comes (`gone`). So are the bytes of an upload (`upload`) for which others need the room: of these the length and
//! the hashes are left (`digested`). What files had before a start is read back without holding it (`restored`).
#![tactic(auto)]

mod before;
mod blob;
mod body;
mod digested;
mod filed;
mod filing;
mod front;
mod gone;
mod granted;
mod hashing;
mod in_files;
mod part;
mod prefix_hash;
mod received;
mod restored;
mod room;
mod same;
mod segments;
mod shared;
mod shares;
mod spool;
mod stretch;
mod thread_end;
mod upload;

pub use blob::{Blob, Several};
pub use body::{Body, BodyBuilder, Pieces};
pub use digested::Digested;
pub use filed::{FilePart, FileReader};
pub use filing::PrefixFile;
pub use front::Front;
pub use gone::Gone;
pub use granted::Granted;
pub use hashing::{HashPlace, InPlace, InThreads, Spooling};
pub use in_files::InFiles;
pub use part::Part;
pub use received::Received;
pub use restored::Restored;
pub use room::{Grant, Room};
pub use shared::BlobBytes;
pub use shares::Shares;
pub use spool::{FOLDERS, SPOOL, Spool, SpoolFile, SyncedFile};
pub use stretch::Stretch;
pub use thread_end::ThreadEnd;
pub use upload::Upload;
