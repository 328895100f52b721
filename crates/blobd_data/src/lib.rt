//! The data directory of `blobd serve`: a folder with a journal of what changed the service, and the bodies that it
//! names. `line` is what the journal begins with, `open` has the folder locked, opened and read, `host` is lent to what
//! keeps on in it, `progress` tells how far a start has come, `fault` says why a directory can't be used, `loss` what
//! of it is lost, and `status` what it holds. `compacting` has its journal written anew, `weighing` says how much goes
//! then, by the files that `files` lists too, and `worth` has a start do it. `keeping_list` reads what is referred to,
//! by which a compaction leaves out the rest.
#![tactic(auto)]

mod compacting;
mod fault;
mod files;
mod host;
mod keeping_list;
mod line;
mod loss;
mod open;
mod progress;
mod status;
mod texts;
mod weighing;
mod worth;

pub use compacting::{CompactingFault, Freed, compact_data};
pub use fault::DataFault;
pub use host::{Teller, seconds_now};
pub use keeping_list::{ListFault, read_list};
pub use line::line_of;
pub use loss::{tell_end, tell_files, tell_final, tell_losses, tell_missing};
pub use open::{AnyBodies, Damaged, Data, Missing, open_data};
pub use progress::Watch;
pub use status::{Status, missing_of, read_status};
pub use texts::hint_on;
pub use weighing::{Waste, foresee_data, weigh_data};
pub use worth::{compact_if_worth, is_worth};
