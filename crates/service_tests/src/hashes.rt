//! Sessions whose hashes take in what they received, here or in threads.

use crate::asks::Told::{Begun, Taken};
use crate::asks::Word::{Chunk, Open};
use crate::asks::{Done, U1, U2, check, limits, reference, row, serve};
use std::alloc::{AllocError, Global};
use std::process::Abort;
use std::sync::Wait;
use std::thread::Threads;
use test_support::content_of;
use upload_bytes::{HashPlace, InPlace, InThreads};
use upload_names::Algorithm;
use upload_service::Service;

/// How many bytes a session receives in all: as many as are worth a thread.
const SIZE: usize = 900_000;

/// Opens a session, and has it take a content in two chunks.
fn receive(alloc: Global, service: &mut Service, content: &[u8]) -> Result<bool, AllocError> {
    let (front, rest) = content.split_at(content.len() / 3);
    let lines = [
        row!(Open, Begun(U1)),
        row!(Chunk(U1, b"", front), Taken(U1, front.len() as u64)),
        row!(Chunk(U1, b"", rest), Taken(U1, content.len() as u64)),
    ];
    for line in lines.iter() {
        if serve(alloc, service, line)? != Some(true) {
            return Ok(false);
        }
    }
    Ok(true)
}

/// Has the hash of a session take in what it lacks, and waits for a thread that does. Says whether there was one.
fn catch_up<P: HashPlace>(
    rt: &impl Wait,
    service: &mut Service,
    place: &P,
    at: &[u8],
    algorithm: Algorithm,
) -> Result<bool, AllocError> {
    let at = reference(at)?;
    match service.catch_up(place, &at, algorithm) {
        Some(end) => {
            end.wait(rt);
            Ok(true)
        }
        None => Ok(false),
    }
}

/// What a hash has caught up with is no work for a thread. Nor is a session that isn't there.
fn check_caught_up<P: HashPlace>(
    rt: &(impl Abort + Threads + Wait),
    alloc: Global,
    place: &P,
    algorithm: Algorithm,
) -> Done {
    let content = content_of(alloc, SIZE)?;
    let mut service = Service::new(alloc, limits(10_000_000, 1, 10));
    let is_received = receive(alloc, &mut service, content.as_slice())?;
    let is_none = !catch_up(rt, &mut service, &InThreads(rt), U2, algorithm)?;
    check(rt, is_received && is_none, 0, "no such session");
    catch_up(rt, &mut service, place, U1, algorithm)?;
    let is_done = !catch_up(rt, &mut service, &InThreads(rt), U1, algorithm)?;
    check(rt, is_done, 1, "the hash");
    Ok(())
}

#[test]
fn a_hash_that_has_caught_up_is_done(rt: HostRuntime) -> Done {
    check_caught_up(&rt, rt.alloc(), &InPlace, Algorithm::Sha256)?;
    check_caught_up(&rt, rt.alloc(), &InPlace, Algorithm::Sha512)
}

#[test]
fn a_hash_that_is_waited_for_is_done(rt: HostRuntime) -> Done {
    check_caught_up(&rt, rt.alloc(), &InThreads(&rt), Algorithm::Sha256)?;
    check_caught_up(&rt, rt.alloc(), &InThreads(&rt), Algorithm::Sha512)
}
