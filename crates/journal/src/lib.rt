//! A journal: batches of records in one file, each on the disk before it is acknowledged.
//!
//! A file (`line`) begins with a sector that says what it is. Behind it lie batches (`batch`, `head`), each behind a
//! gate that has a sector of its own (`gate`, `sectors`). A journal (`journal`) adds to them; a start reads them in
//! order (`replay`), runs a machine (`machine`) over them, and repairs the end (`recovery`). `looking` has it read as
//! it stands, `ending` says how it ends, and `mending` brings back what a damaged sector hides. `life` says what all
//! this comes to, whatever crashes come.
#![tactic(auto)]

mod batch;
mod ending;
mod error;
mod gate;
mod head;
mod journal;
mod life;
mod line;
mod looking;
mod machine;
mod mending;
mod recovery;
mod replay;
mod sectors;

pub use batch::Batch;
pub use ending::Ending;
pub use error::Error;
pub use journal::Journal;
pub use life::{append_each, live_on, restart};
pub use line::Line;
pub use looking::Looked;
pub use machine::Machine;
