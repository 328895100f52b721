//! What tests of several crates use: ends of a connection over memory, slow ones and ones that fail, and a content of
//! any length.
#![tactic(auto)]

mod content;
mod ends;

pub use content::content_of;
pub use ends::{MemorySink, MemorySource};
