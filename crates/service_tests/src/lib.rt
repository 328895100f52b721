//! Tests of `upload_names`, `upload_bytes` and `upload_service`, in a crate of their own: the prover goes through a
//! crate with tests twice, and its must-fail edits wait for both.
#![tactic(auto)]

#[cfg(test)]
mod asks;
#[cfg(test)]
mod bodies;
#[cfg(test)]
mod growths;
#[cfg(test)]
mod hashes;
#[cfg(test)]
mod lists;
#[cfg(test)]
mod names;
