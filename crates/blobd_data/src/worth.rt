//! A start writes a journal anew, if that is worth its time.
ghost use Rattle.std.specs.Prelude.{◌≡◌, ◌↔◌, [], IsTrue};
ghost use Rattle.upload_service.specs.Machine.{AreLawful};
ghost use Rattle.blobd_data.specs.Worth.{IsWorth};

use crate::compacting::{CompactingFault, Freed, compact_data, length_of};
use crate::open::{FRESH, JOURNAL};
use crate::weighing::weigh_records;
use bodies::Holds;
use journal_file::Start;
use std::thread::Threads;
use upload_compact::Weight;
use upload_service::Limits;

/// How many bytes have to go, or the rest isn't looked at.
const LEAST: u64 = 67_108_864;

/// Whether a journal of so many bytes is worth to be written anew: 64 MiB or more would go, and that is more than half
/// of the journal, or more than a tenth of the files. What stands between records goes, too: a batch of one small
/// record takes 8 KiB.
pub fn is_worth(weight: &Weight, length: u64) -> bool
    ensures { IsTrue result ↔ IsWorth weight.now length }
{
    let Weight { needed, dead, .. } = *weight;
    let goes = length.saturating_sub(needed.records);
    goes.saturating_add(dead.in_files) >= LEAST
        && (goes > needed.records || dead.files > needed.files / 9)
}

/// Sees that two services which hold what a journal leads to fit into so much memory, if there is a limit.
fn see_it_fits(weight: &Weight, memory: Option<u64>) -> Result<(), CompactingFault> {
    let Some(memory) = memory else {
        return Ok(());
    };
    let held = weight.needed.records.saturating_add(weight.needed.in_files);
    let takes = held.saturating_mul(2);
    if takes > memory {
        return Err(CompactingFault::TooLarge { takes, memory });
    }
    Ok(())
}

/// Has the journal of the data directory at `path` written anew, as `compact_data` does, if that is worth it
/// (`is_worth`), within so many bytes of memory if there is a limit. Says what room was made, if any was. Nothing is
/// done about a journal that can't be read or is damaged: whoever opens the directory is told so.
///
/// `TooLarge`: it would take more memory. `CutOff`: a new journal lies there that didn't take its place, so that whoever
/// began it may have been ended for it. Other errors are those of `compact_data`.
pub fn compact_if_worth<R: Threads, L: Start, J: Start, N: Start, S: Start, H: Holds>(
    threads: &R,
    rt: &HostRuntime,
    path: &str,
    limits: Limits,
    memory: Option<u64>,
    looked: L,
    start: J,
    fresh_start: N,
) -> Result<Option<Freed>, CompactingFault>
    requires lawful { AreLawful limits }
    requires empty { S.Start.db ≡ [] }
{
    let Ok(weight) = weigh_records(rt, path, limits, looked) else {
        return Ok(None);
    };
    let length = length_of(rt, path, JOURNAL)?.unwrap_or(0);
    if !weight.looked.is_sure() || !is_worth(&weight, length) {
        return Ok(None);
    }
    see_it_fits(&weight, memory)?;
    if length_of(rt, path, FRESH)?.is_some() {
        return Err(CompactingFault::CutOff);
    }
    let room = compact_data::<R, J, N, S, H>(
        threads,
        rt,
        path,
        limits,
        memory,
        start,
        fresh_start,
        None,
    )?;
    Ok(Some(room))
}
