//! Tests of `upload_keeper` and `upload_intake`, and of what the laws of `end_to_end` speak of. They stand in a crate of
//! their own, since the prover goes through a crate with tests twice.
#![tactic(auto)]

#[cfg(test)]
mod expect;
#[cfg(test)]
mod network;
#[cfg(test)]
mod pushes;
#[cfg(test)]
mod seats;
#[cfg(test)]
mod secrets;
#[cfg(test)]
mod workers;
