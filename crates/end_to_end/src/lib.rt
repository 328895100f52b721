//! Laws from end to end: what a push that ended well left in a service that a pool of workers served.
#![tactic(auto)]

mod laws;

pub use laws::{
    dialed_pushes_have_connections, files_are_handed_back, looks_are_served, pushes_are_served,
    pushes_to_one_worker_are_served,
};
