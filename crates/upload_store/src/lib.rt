//! What a service is kept in: a journal of entries, and a shelf of the large bodies that entries name.
//!
//! A body is on the disk before an entry names it (`store`). A start reads the entries in order, with their bodies
//! (`files`), and runs a service over them (`rerun`), so that it is what it was; a record that can't be run again is
//! named (`fault`). `life` says what all this comes to, whatever crashes come.
#![tactic(auto)]

mod ahead;
mod crash;
mod fault;
mod files;
mod hints;
mod life;
mod losses;
mod numbers;
mod rerun;
mod rescue;
mod spooled;
mod store;

pub use ahead::most_ahead;
pub use crash::CrashShelf;
pub use fault::{Loss, RefusedRecord, StoreFault};
pub use hints::Hints;
pub use life::{Round, keep_each, live_on, restart};
pub use losses::{Losses, Salvage};
pub use store::Store;
