//! A folder and its files on a real disk. A file is a `sqlite_disk::Disk`: contracts read what it holds, and what a
//! crash may leave of it, off a record of its calls. The record takes no memory.
//!
//! What only reading shows: each method of `host` makes the call that it notes, and makes no other on the file. The
//! clauses on contents then speak of a real run if no other code changes the file, and if it answers as the disk that
//! `sqlite_disk` describes. What a fault says of the system is tested.
#![tactic(auto)]

mod fault;
mod folder;
mod host;
mod notes;

pub use fault::OpenFault;
pub use folder::{Folder, look_at, make_file, make_folder, sync_folder};
pub use host::Host;
pub use notes::Notes;
pub use sqlite_disk::{Start, Wary};

/// A file that held what `S` says as it was opened.
pub type FileFrom<S> = sqlite_disk::Modelled<Host, S>;
