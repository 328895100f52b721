//! How much would go from a data directory as it is compacted.
use crate::compacting::CompactingFault;
use crate::fault::DataFault;
use crate::files::{BodyThere, amount_but, bytes_in, list_files, note_named};
use crate::status::look_at_journal;
use blobd_shared::{ByteCount, Quantity};
use journal::Journal;
use journal_file::{FileFrom, Start};
use std::fmt;
use upload_compact::{Amount, Forecast, Leaving, Pair, Weight, foresee, weigh};
use upload_records::Named;
use upload_service::Limits;
use upload_store::StoreFault;

/// How much would go, as it is told: `310.5 KiB of 1.1 MiB of records, 95 of 310 files, 1.2 GiB of 3.0 GiB in them`.
#[derive(Clone, Copy)]
pub struct Waste {
    /// What the records come to, with the files that they name.
    pub weight: Weight,
    /// The files that no record names.
    pub unnamed: Amount,
    /// Whether the files that records name are all there, with as many bytes as these say.
    pub is_whole: bool,
}

impl fmt::Display for Waste {
    fn fmt<W: fmt::Write>(&self, f: &mut fmt::Formatter<W>) -> fmt::Result {
        let Weight { needed, dead, .. } = self.weight;
        let dead = dead.and(self.unnamed);
        let all = needed.and(dead);
        let (bytes, of) = (ByteCount(dead.records), ByteCount(all.records));
        write!(f, "{bytes} of {of} of records, ")?;
        write!(f, "{} of {}, ", dead.files, Quantity(all.files, "file"))?;
        let (bytes, of) = (ByteCount(dead.in_files), ByteCount(all.in_files));
        write!(f, "{bytes} of {of} in them")
    }
}

/// The journal of the data directory at `path`, to be read as it stands.
fn look<J: Start>(
    rt: &HostRuntime,
    path: &str,
    limits: Limits,
    start: J,
) -> Result<Journal<FileFrom<J>>, CompactingFault> {
    Ok(look_at_journal(rt, path, limits, start)?)
}

/// What records come to, if none of them is damaged.
fn sound(weight: Result<Weight, journal::Error>) -> Result<Weight, CompactingFault> {
    match weight {
        Ok(weight) if weight.unread > 0 => Err(CompactingFault::Unread(weight.unread)),
        Ok(weight) => Ok(weight),
        Err(error) => {
            let fault = DataFault::Store(StoreFault::Journal(error));
            Err(CompactingFault::Data(fault))
        }
    }
}

/// The files of bodies in the directory at `path`.
fn files_in(rt: &HostRuntime, path: &str) -> Result<Vec<BodyThere>, CompactingFault> {
    match list_files(rt, path) {
        Ok(files) => Ok(files),
        Err(fault) => Err(CompactingFault::Data(DataFault::Bodies(fault))),
    }
}

/// The files of the directory at `path` that no record of its journal names, and whether those that one names are
/// whole. They are listed before the journal is read: a server that has the directory makes a file before it names it.
/// So one that seems to be missing is looked for again.
fn unnamed_in<J: Start>(
    rt: &HostRuntime,
    path: &str,
    journal: &mut Journal<FileFrom<J>>,
) -> Result<(Amount, bool), CompactingFault> {
    let files = files_in(rt, path)?;
    let mut named = Named::new(rt.alloc());
    if let Err(fault) = note_named(rt, journal, &mut named) {
        return Err(CompactingFault::Data(DataFault::Store(fault)));
    }
    let is_whole = bytes_in(&files, &named) == named.bytes()
        || bytes_in(&files_in(rt, path)?, &named) == named.bytes();
    Ok((amount_but(&files, &named), is_whole))
}

/// What the records of the data directory at `path` come to, as `weigh_data` reads them.
pub(crate) fn weigh_records<J: Start>(
    rt: &HostRuntime,
    path: &str,
    limits: Limits,
    start: J,
) -> Result<Weight, CompactingFault> {
    let mut journal = look(rt, path, limits, start)?;
    sound(weigh(rt.alloc(), &mut journal, limits))
}

/// How much would go from the data directory at `path`, of a service with these limits, as its journal is written anew.
/// The journal is read as it stands, also while a server has it: nothing is locked or written, and no body is read.
///
/// `Data`: the journal isn't there, or can't be read, or the files of bodies can't be listed. `Unread`: records are
/// damaged.
pub fn weigh_data<J: Start>(
    rt: &HostRuntime,
    path: &str,
    limits: Limits,
    start: J,
) -> Result<Waste, CompactingFault> {
    let mut journal = look(rt, path, limits, start)?;
    let (unnamed, is_whole) = unnamed_in(rt, path, &mut journal)?;
    let weight = sound(weigh(rt.alloc(), &mut journal, limits))?;
    Ok(Waste {
        weight,
        unnamed,
        is_whole,
    })
}

/// What would go from the data directory at `path`, of a service with these limits, with what nothing refers to: the
/// blobs of repositories, and how much. The journal is read as it stands, as `weigh_data` does, whose errors it has.
pub fn foresee_data<J: Start>(
    rt: &HostRuntime,
    path: &str,
    limits: Limits,
    start: J,
    leaving: &Leaving,
) -> Result<(Vec<Pair>, Waste), CompactingFault> {
    let mut journal = look(rt, path, limits, start)?;
    let (unnamed, is_whole) = unnamed_in(rt, path, &mut journal)?;
    let (gone, weight) = match foresee(rt.alloc(), &mut journal, limits, leaving) {
        Ok(Forecast { gone, weight }) => (gone, sound(Ok(weight))?),
        Err(error) => return Err(CompactingFault::Data(DataFault::Store(StoreFault::Journal(
            error,
        )))),
    };
    let waste = Waste {
        weight,
        unnamed,
        is_whole,
    };
    Ok((gone, waste))
}
