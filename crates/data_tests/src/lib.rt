//! Tests of the libraries that keep a service on a disk, from `journal` up to `upload_keeping`, in a crate of their
//! own: the prover goes through a crate with tests twice. What a server on a data directory shows stands in `tests/`.
#![tactic(auto)]

#[cfg(test)]
mod ahead;
#[cfg(test)]
mod ended;
#[cfg(test)]
mod entries;
#[cfg(test)]
mod folders;
#[cfg(test)]
mod journals;
#[cfg(test)]
mod keepings;
#[cfg(test)]
mod renewals;
#[cfg(test)]
mod stores;
