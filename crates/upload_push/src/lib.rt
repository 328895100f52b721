//! The pushing client: a file goes up in chunks, over any transport, and what was not heard is asked again.
//!
//! `Pusher` decides what is asked next, by the table of `specs/Steps.antt`; `push` runs it over a `Transport`;
//! `LossyWorld` is a service behind a network that loses requests and replies, beside other clients, in which the
//! promise of a push is stated (`push_promise`).
#![tactic(auto)]

mod laws;
mod looking;
mod pusher;
mod pushing;
mod world;

pub use laws::{every_push, push_promise, pushes_rule_out};
pub use looking::has_blob;
pub use pusher::{Outcome, PushAsk, PushStep, Pusher, Why};
pub use pushing::{PushFault, push, push_under, push_with};
pub use world::{Event, LossyWorld};
