//! A journal that is counted, weighed, swept and written anew: over a disk that fails from some call on, and with
//! growths refused.

use crate::ended::{Done, Ended, holds, is_done, is_over};
use crate::entries::{Seen, limits, name_of, text_of};
use crate::folders::put;
use crate::journals::{START, line};
use crate::stores::{kept, new_store, seen_in};
use bodies::MemoryShelf;
use journal::Journal;
use sqlite_disk::{Fuse, Memory};
use std::alloc::{AllocError, Global};
use std::process::Abort;
use upload_compact::{CompactFault, Compacted, Leaving, Pair, compact, foresee, weigh};
use upload_names::BlobDigest;
use upload_records::{sweep, take_census};

/// The places of the entries: an upload with a chunk in files, and a blob that is stored twice and mounted.
static PLACES: [usize; 5] = [0, 3, 1, 1, 2];

/// A journal of these entries, and a shelf with one file more than they name.
fn filled(alloc: Global) -> Result<(Journal<Memory>, MemoryShelf), Ended> {
    let (journal, mut shelf) = kept(alloc, &PLACES)?;
    put(&mut shelf, 9, b"unnamed")?;
    Ok((journal, shelf))
}

/// A list by which the blob goes from `lib/b`, and stays in `lib/a`.
fn leaving(alloc: Global) -> Result<Leaving, AllocError> {
    let mut leaving = Leaving::new(alloc, START + 1);
    leaving.refer(name_of(alloc, b"lib/a")?, BlobDigest::of_sha256(b"abc"))?;
    Ok(leaving)
}

/// What the records come to, as they stand: the second record of the blob is one too many.
fn check_records(rt: &impl Abort, alloc: Global) -> Done {
    let (mut journal, mut shelf) = filled(alloc)?;
    let (census, looked) = take_census(alloc, &mut journal, limits())?;
    let counts = census.counts();
    let of_blobs = (counts.blobs, counts.stored) == (1, 3);
    let of_uploads = (counts.uploads, counts.received) == (1, 3);
    holds(rt, of_blobs && of_uploads && looked.is_sure(), &"a census");
    let weight = weigh(alloc, &mut journal, limits())?;
    let once = text_of(alloc, 1)?.len() as u64;
    let is_dead = (weight.dead.records, weight.dead.files) == (once, 0);
    holds(rt, is_dead && weight.needed.files == 2, &"a weight");
    let forecast = foresee(alloc, &mut journal, limits(), &leaving(alloc)?)?;
    holds(rt, forecast.gone.len() == 1, &"a forecast");
    let swept = sweep(alloc, &mut journal, &mut shelf)?;
    holds(rt, (swept.removed, swept.named) == (Some(1), 3), &"swept");
    Ok(())
}

type Renewed = Compacted<Memory, Fuse<Memory>, MemoryShelf>;

/// Writes it anew over a disk that fails after so many calls.
fn renewed(alloc: Global, leaving: Option<&Leaving>, calls: u64) -> Result<Renewed, CompactFault> {
    let (Ok((journal, shelf)), Ok(line), Ok(again)) = (filled(alloc), line(), line()) else {
        return Err(CompactFault::NoMemory);
    };
    let fresh = Journal::new(Fuse::new(Memory::new(alloc), calls), line);
    compact(alloc, journal, fresh, again, shelf, limits(), leaving)
}

/// What is left of it: a service, and the pairs that went.
fn left(alloc: Global, leaving: Option<&Leaving>) -> Result<(Seen, Vec<Pair>), Ended> {
    let it = match renewed(alloc, leaving, u64::MAX) {
        Ok(it) => it,
        Err(CompactFault::NoMemory) => return Err(Ended::NoMemory),
        Err(CompactFault::NotTheSame) => return Err(Ended::Otherwise),
        Err(CompactFault::Old(fault) | CompactFault::New(fault)) => return Err(Ended::from(fault)),
    };
    let Compacted {
        fresh,
        shelf,
        gone,
        ..
    } = it;
    let replay = new_store(alloc, fresh.into_disk(), shelf)?.recover(alloc)?;
    Ok((seen_in(alloc, replay)?, gone))
}

fn check_renewals(rt: &impl Abort, alloc: Global) -> Done {
    check_records(rt, alloc)?;
    let (seen, gone) = left(alloc, None)?;
    let is_left = seen == (Some(3), true, true);
    holds(rt, is_left && gone.is_empty(), &"nothing goes");
    let leaving = leaving(alloc)?;
    let (seen, gone) = left(alloc, Some(&leaving))?;
    let is_left = seen == (Some(3), true, false);
    holds(rt, is_left && gone.len() == 1, &"one goes");
    Ok(())
}

#[test]
fn a_refused_growth_changes_no_renewal(rt: HostRuntime) {
    if !is_over(&rt, check_renewals(&rt, rt.alloc())) {
        is_done(&rt, check_renewals(&rt, rt.alloc()));
    }
}

/// Whichever call of the new disk fails, the fault is of the new journal.
#[test]
fn a_call_that_fails_is_told(rt: HostRuntime) {
    let mut is_written = false;
    for calls in [0, 1, 2, 3, 5, 8, 13, 21, 34, 55, 89, 144] {
        match renewed(rt.alloc(), None, calls) {
            Ok(it) => is_written = it.before == PLACES.len() as u64,
            Err(fault) => holds(&rt, matches!(fault, CompactFault::New(_)), &calls),
        }
    }
    holds(&rt, is_written, &"no call fails");
}
