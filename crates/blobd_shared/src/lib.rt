//! What a server and a push share, since neither stands on the other: the ends of a connection with what moved over
//! them (`connections`), also as a source or a sink of bytes (`counted`); how a line is printed, and which exit status
//! goes with it (`status`); what is told of how much a service holds (`holding`); how long ago a moment was (`elapsed`);
//! and the time of day (`time_of_day`).
#![tactic(auto)]

mod connections;
mod counted;
mod elapsed;
mod holding;
mod status;
mod time_of_day;

pub use connections::{ConnHistory, Inlet, Outlet};
pub use counted::Counted;
pub use elapsed::millis_since;
pub use holding::{ByteCount, Holding, Quantity, Reading, WholeHolding};
pub use status::{DONE, FAULT, REFUSED, print_line};
pub use time_of_day::TimeOfDay;
