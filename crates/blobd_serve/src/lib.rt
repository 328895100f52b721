//! `blobd serve`: a service behind a listener, with workers that take connections from it.
//!
//! `workers` makes the workers, and `serve` has them serve a new service and prints what comes of it; `kept` does so
//! with a service that was there before, and whose changes are kept. `service_limits` has the limits of the service. A
//! worker's connections come over a door that is lent to it (`accepts`): for `blobd serve` that is a `listener`. They
//! are taken in their order (`accept`, and `steps` for an accept that failed), cut if the client is too slow (`paced`),
//! and closed by a thread of their own (`closing`). Once a change can't be kept, nobody is waited for (`shutting`).
//! Each request is logged if the terms say so: `request_log` says what a line has, `shown` and `time_of_day` how it
//! shows a target and the time, `log_lines` what becomes of it; `holdings` has it say what the service holds. With a
//! log or without one, `fullness` says when it is told that requests find no room. `background` has what the thread
//! that closes and the one that writes the log have in common. `laws` joins a worker's connections to the laws from
//! end to end.
#![tactic(auto)]

mod accept;
mod accepts;
mod background;
mod closing;
mod fullness;
mod holdings;
mod kept;
mod laws;
mod listener;
mod log_lines;
mod paced;
mod request_log;
mod serve;
mod service_limits;
mod shown;
mod shutting;
mod steps;
mod time_of_day;
mod workers;

pub use accept::Terms;
pub use accepts::{Accepts, Timed};
pub use kept::serve_kept_over;
pub use laws::accepted_are_unused;
pub use listener::{run_serve, run_serve_kept};
pub use paced::Demand;
pub use serve::serve_over;
pub use service_limits::limits;
