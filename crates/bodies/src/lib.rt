//! Bodies, each in a file of its own that is named by its number. It is written once, it is on the disk before
//! anything names it, and it never changes; one that nothing names any more is a file to remove.
//!
//! A `Shelf` has files by their numbers, and its contract says what a crash may leave at each number (`shelf`). A body
//! is begun, written piece by piece (`body`), and finished (`writing`); or it is written in any thread into a file of
//! the shelf's spool (`upload_bytes`), which then gets its number (`naming`).
//!
//! At a start bodies are read, and hashed, in threads before they are asked for (`ahead`), from files that a shelf
//! lends (`lending`, `reader`, `whole`). How far that has come is counted (`counter`).
//!
//! What only reading shows: each method of `files` makes the call that it notes, and no other that changes a file, and
//! a `BodyReader` notes what its file gave. The clauses of a shelf in a folder then speak of a real run, as those of
//! `journal_file` do.
#![tactic(auto)]

mod ahead;
mod body;
mod calls;
mod closed;
mod counter;
mod fault;
mod files;
mod fuse;
mod hint;
mod lending;
mod memory;
mod naming;
mod reader;
mod shelf;
mod whole;
mod writing;

pub use ahead::AheadShelf;
pub use body::Body;
pub use counter::Counter;
pub use fault::BodyFault;
pub use files::{FolderShelf, Holds};
pub use fuse::FuseShelf;
pub use hint::{Bond, Hint, HintedClose, HintedFile};
pub use lending::Lends;
pub use memory::MemoryShelf;
pub use naming::name;
pub use reader::BodyReader;
pub use shelf::Shelf;
pub use writing::{begin, finish};
