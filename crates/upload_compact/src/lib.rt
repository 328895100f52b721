//! A journal is written anew: the shortest one that stands for the same service.
//!
//! What the records of a journal leave is surveyed first (`survey`): which files and records have the bytes of each
//! blob and of each open upload, and which files are named (`numbers`). Bytes that were in records get a file where
//! they find no room in one (`settling`). Entries of just that are written into a new journal (`writer`, `entries`).
//! It is taken only if it names no file but those that no crash takes (`guard`), and if it leads to the same service
//! as the old one does, by a run of each (`renewal`). What nothing refers to is left out if that is asked for
//! (`leaving`). How much that gives back is told by the records alone (`weighing`, `forecast`).
#![tactic(auto)]

mod entries;
mod fault;
mod forecast;
mod guard;
mod hints;
mod leaving;
mod numbers;
mod renewal;
mod settling;
mod survey;
mod weighing;
mod writer;

pub use fault::CompactFault;
pub use forecast::{Forecast, foresee};
pub use leaving::{Leaving, Pair};
pub use renewal::{Compacted, compact};
pub use weighing::{Amount, Weight, weigh};
