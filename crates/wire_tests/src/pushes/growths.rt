//! A push that is refused memory leaves what its asks did, and one that goes on ends well all the same. The test holds
//! whichever one growth is refused: `tests/growths.py` has each of them refused in turn.

use super::{End, FILE, Watched, end_of, events, first_of};
use crate::client::growths::name_for;
use crate::expect::holds;
use std::alloc::Global;
use std::process::Abort;
use std::test::Fail;
use upload_names::{BlobDigest, RepoName};
use upload_push::{Event, LossyWorld, push};
use upload_service::Service;

fn has_file(service: &Service, name: &RepoName) -> bool {
    service.holds(name, &BlobDigest::of_sha256(FILE))
}

/// Pushes, and answers how that ended, whether as much of its upload is open as was heard of, and the service.
fn followed(alloc: Global, name: &RepoName, events: Vec<Event>) -> (End, bool, Service) {
    let mut over = Watched::new(alloc, events, "");
    let end = end_of(&push(alloc, &mut over, FILE, name, 2, 5));
    let heard_of = over.heard_of;
    let service = over.world.into_service();
    let is_as_heard = first_of(&service) == heard_of;
    (end, is_as_heard, service)
}

/// Whether with memory the same push over the same service ends well.
fn ends_well_again(alloc: Global, name: &RepoName, service: Service) -> bool {
    let mut world = LossyWorld::new(alloc, service, [0; 12], 0, Vec::new(alloc));
    let again = end_of(&push(alloc, &mut world, FILE, name, 2, 5));
    again == End::Pushed && has_file(&world.into_service(), name)
}

/// Pushes over a script of events. What was asked is known from the replies if none was lost.
fn push_over(rt: &impl Abort, alloc: Global, script: &str) -> Result<(), Fail> {
    let name = name_for(alloc)?;
    // one growth may be refused
    let events = events(alloc, script).or_else(|_| events(alloc, script))?;
    let (end, is_as_heard, service) = followed(alloc, &name, events);
    let is_held = has_file(&service, &name);
    let is_left = match end {
        End::Pushed | End::Already => is_held,
        End::NoMemory => !script.is_empty() || (!is_held && is_as_heard),
        _ => false,
    };
    holds(rt, is_left, &script);
    if end == End::NoMemory {
        holds(rt, ends_well_again(alloc, &name, service), &script);
    }
    Ok(())
}

#[test]
fn a_refused_growth_leaves_what_was_asked(rt: HostRuntime) -> Result<(), Fail> {
    for script in ["", "ddl", "ddddl"].iter() {
        push_over(&rt, rt.alloc(), script)?;
    }
    Ok(())
}
