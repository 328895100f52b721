//! What a journal keeps of a service: entries, each of which is the text of one request that changed something, with
//! its secret, its moment and its answer in short. Read back and run through a service again, they lead to the same
//! state. This crate knows no disk, no socket and no thread: a text is a list of bytes, and large bodies come from
//! whoever has them.
#![tactic(auto)]

mod bodies;
mod body;
mod checksum;
mod draft;
mod entries;
mod fault;
mod foreseen;
mod laws;
mod reading;
mod replay;

pub use bodies::{Bodies, BodyFault};
pub use body::{BodyFile, BodyFiles, KeptBody};
pub use draft::{Draft, moments_text, numbers_text};
pub use entries::{Entry, KeptAnswer, KeptAsk, KeptExchange};
pub use fault::{EntryFault, ReadError};
pub use laws::{changes_are_enough, entries_are_read_back, replays_are_runs};
pub use reading::{MOST_HERE, read_damaged, read_entry};
pub use replay::{Replay, ReplayFault};
