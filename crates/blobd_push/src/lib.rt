//! `blobd push`: a file that is pushed over connections which are made anew after a fault.
//!
//! `push` looks whether the blob is there, pushes the file and prints how that ended. Its requests go over a `dialer`,
//! which makes a `connection` as it needs one, and waits after a request that wasn't heard (`pauses`). What it makes
//! them of is lent to it (`dials`): for `blobd push` these are `sockets`. `trouble` says on standard error what went
//! wrong, by what `notes` have of a request, and `bar` how far the push has come.
#![tactic(auto)]

mod bar;
mod connection;
mod dialer;
mod dials;
mod laws;
mod notes;
mod pauses;
mod push;
mod sight;
mod sockets;
mod trouble;

pub use dials::Dials;
pub use laws::{asks_are_dialed, pushes_are_answered};
pub use push::{Job, push_over};
pub use sockets::run_push;
