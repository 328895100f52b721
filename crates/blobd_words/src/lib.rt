//! The words of `blobd`: its commands, sizes, what is wrong with other words, its help, and how much a server holds if
//! no word says it.
#![tactic(auto)]

mod complaint;
mod help;
mod memory;
mod size;
mod words;

pub use complaint::{Complaint, complaint_on, complaint_text};
pub use help::{HELP, VERSION};
pub use memory::usual_memory;
pub use size::{is_slow, read_memory};
pub use words::{Command, Keep, USAGE, read_switch, read_words, read_workers};
