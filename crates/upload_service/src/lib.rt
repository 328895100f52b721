//! The upload service of a registry for blobs: sessions that take chunks, stored blobs, and which repository
//! has which blob. `Service::step` serves one request. The core is pure: the moment, the secret and the bytes
//! of a request come in as values.
#![tactic(auto)]

pub use answer::{Answer, Form, Refusal};
pub use ask::{Ask, Extent, GoneChunk, Request};
pub use counts::Counts;
pub use laws::{
    headline_holds, headline_rules_out, openings_meet_the_table, others_leave_a_session,
};
pub use limits::Limits;
pub use service::Service;

mod answer;
mod ask;
mod budget;
mod counts;
mod holders;
mod laws;
mod limits;
mod service;
mod sessions;
mod stock;
mod turn;
