//! Tests of `blobd_serve` and `blobd_push`, in a crate of their own, since neither stands on the other.
#![tactic(auto)]

#[cfg(test)]
mod pushes;
