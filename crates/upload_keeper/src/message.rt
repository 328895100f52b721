//! What goes from a seat to the keeper, and what a seat is told of its wishes.
ghost use Rattle.std.specs.Prelude.{◌≡◌};

use crate::keeping::Keeping;
use std::thread::Threads;
use upload_bytes::{Front, InThreads, Spool, ThreadEnd};
use upload_names::{Algorithm, UploadRef};
use upload_service::{Request, Service};

/// What is wished of the hashes of a session, since a chunk or its close is to come, or of where bodies are kept.
#[derive(Drop)]
pub enum Wish {
    /// That they keep up with who sends to the session.
    KeepsUp(UploadRef),
    /// That the hash by an algorithm goes on.
    GoesOn(UploadRef, Algorithm),
    /// What the session received, with the hash.
    Front(UploadRef, Algorithm),
    /// Where bodies are written as they come.
    Spool,
}

/// What a seat is told of its wish.
#[derive(Drop)]
pub enum WishReply {
    /// A thread is at work, which has this end.
    AtWork(ThreadEnd),
    /// What the session received.
    Front(Front),
    /// Where bodies are written.
    Spool(Spool),
    /// There is nothing to wait for, or no such session, or no memory.
    Nothing,
}

/// What is told of a thread that is at work, if one is.
fn told_of(end: Option<ThreadEnd>) -> WishReply {
    match end {
        Some(end) => WishReply::AtWork(end),
        None => WishReply::Nothing,
    }
}

impl Wish {
    // Does what a seat wishes. Nothing that is seen changes.
    pub(crate) fn grant<R: Threads, K: Keeping>(
        self,
        rt: &R,
        service: &mut Service,
        keeping: &K,
    ) -> WishReply
        ensures { service.new ≡ service.old }
    {
        let place = InThreads(rt);
        match self {
            Wish::KeepsUp(at) => told_of(service.keep_up(&place, &at)),
            Wish::GoesOn(at, algorithm) => told_of(service.catch_up(&place, &at, algorithm)),
            Wish::Front(at, algorithm) => match service.front(&place, &at, algorithm) {
                Some(front) => WishReply::Front(front),
                None => WishReply::Nothing,
            },
            Wish::Spool => match keeping.spool() {
                Some(spool) => WishReply::Spool(spool),
                None => WishReply::Nothing,
            },
        }
    }
}

/// A request with its secret; or what is wished before one; or that no more comes. A wish changes nothing that is seen.
#[derive(Drop)]
pub enum Message {
    Job(Request, [u8; 12]),
    Wish(Wish),
    Finish,
}
