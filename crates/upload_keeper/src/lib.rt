//! One upload service, which one thread owns, the keeper, and which is asked from any number of seats over lines:
//! bounded channels under a rule, by which what the keeper took is exactly what each seat sent, in its order, each
//! once, and what a seat hears is in order what the service answered to its own requests.
//!
//! A request goes from a `seat` on a line (`line`, `ends`) to the `keeper`, and its answer back. The clock (`moments`)
//! and what keeps the changes (`keeping`) are what the caller lends. `settlement` makes the lines and settles them.
#![tactic(auto)]

mod borrowed;
mod ends;
mod gone;
mod heard;
mod keeper;
mod keeping;
mod laws;
mod line;
mod log;
mod message;
mod moments;
mod reply;
mod seat;
mod settlement;
mod unkept;

pub use gone::Gone;
pub use keeper::{Keeper, Served};
pub use keeping::{Keeping, KeptService, NotKept};
pub use laws::told_is_kept;
pub use moments::Moments;
pub use seat::{Seat, SeatEnd};
pub use settlement::{Settled, lines, lines_of, settle, settle_all};
pub use unkept::NoKeeping;
