//! What the records of a journal say, without running them again.
//!
//! An entry has the answer of its request, says how long its body is, and names the files that have it. So blobs and
//! open uploads are counted (`census`, `taking`), and files that no record names are told (`named`) and removed
//! (`sweeping`), and no body is read.
#![tactic(auto)]

mod census;
mod named;
mod sweeping;
mod taking;

pub use census::{Census, Upload};
pub use named::Named;
pub use sweeping::{Swept, sweep};
pub use taking::take_census;
