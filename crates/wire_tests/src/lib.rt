//! Tests of what goes over the wire: requests read and connections served by `upload_wire`, replies heard by
//! `upload_client`, and the pushes of `upload_push`. They stand in a crate of their own, since the prover goes through
//! a crate with tests twice.
#![tactic(auto)]

#[cfg(test)]
mod calls;
#[cfg(test)]
mod client;
#[cfg(test)]
mod connections;
#[cfg(test)]
mod expect;
#[cfg(test)]
mod files;
#[cfg(test)]
mod pushes;
#[cfg(test)]
mod reading;
#[cfg(test)]
mod texts;
