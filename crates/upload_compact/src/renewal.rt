//! A new journal that stands for the same service as an old one.
ghost use Rattle.std.specs.Prelude.{◌≡◌, ℕ, OnOk, IfOk, IsTrue};
ghost use Rattle.journal.specs.Journal.{disk_of, is_open, kept, line_of};
ghost use Rattle.upload_service.specs.Machine.{AreLawful};
ghost use Rattle.upload_journal.specs.Replay.{Point};
ghost use Rattle.upload_store.specs.Found.{texts_of};
ghost use Rattle.upload_store.specs.Reading.{ReadsOnly};
ghost use Rattle.upload_store.specs.Safe.{AreSafe};
ghost use Rattle.upload_store.specs.Store.{IsClean, journal_of, kept_of, shelf_of, limits_of};
ghost use Rattle.upload_store.specs.Store.{is_open as is_store_open};
ghost use Rattle.upload_compact.specs.Copies.{AreSafeNumbers, KeepsSafe, Copies};
ghost use Rattle.upload_compact.specs.Leaving.{MayGo, forgotten_all};
ghost use Rattle.upload_compact.specs.Same.{LeadsTo, StandsForTheSame, awake_at, moment_of};
ghost use Rattle.upload_compact.specs.Surveys.{IsSurveyOf};

use crate::entries::write;
use crate::fault::CompactFault;
use crate::guard::{Named, guarded};
use crate::hints::told;
use crate::leaving::{Leaving, Pair};
use crate::numbers::Numbers;
use crate::settling::settle;
use crate::survey::{Survey, Tables, survey_of};
use crate::writer::Written;
use bodies::Shelf;
use journal::{Journal, Line};
use sqlite_disk::Disk;
use std::alloc::{AllocError, Global};
use upload_journal::Replay;
use upload_service::{Limits, Service};
use upload_store::{Store, StoreFault};

/// A journal that was written anew, beside the old one.
#[derive(Drop)]
pub struct Compacted<D: Disk, N: Disk, S: Shelf> {
    pub old: Journal<D>,
    pub fresh: Journal<N>,
    pub shelf: S,
    /// Whether something was left out, or the new journal has fewer records than the old one, or names fewer files.
    pub is_shorter: bool,
    /// How many records the old journal has.
    pub before: u64,
    /// How many records the new journal has.
    pub after: u64,
    /// The repositories and blobs that were left out.
    pub gone: Vec<Pair>,
}

/// An old store that was opened, with what its records leave.
#[derive(Drop)]
pub struct Opened<D: Disk, S: Shelf> {
    pub store: Store<D, S>,
    /// The service that its records lead to, without the uploads that are idle.
    pub service: Service,
    /// The moment to go on at, in seconds.
    pub moment: u64,
    pub survey: Survey,
}

/// A new journal that was run, with the shelf that its bodies are on.
#[derive(Drop)]
pub struct Checked<N: Disk, S: Shelf> {
    pub fresh: Journal<N>,
    pub shelf: S,
}

/// The service that a replay has come to, without the uploads that are idle, and the moment to go on at.
fn awake_of(replay: Replay) -> (Service, u64)
    ensures service { result.0 ≡ awake_at replay }
    ensures moment { result.1 ≡ moment_of replay }
{
    let moment = replay.moment();
    let mut service = replay.into_service();
    service.leave_idle(moment);
    (service, moment)
}

/// Opens an old journal, and surveys what its records leave.
fn open_old<D: Disk + Drop, S: Shelf + Drop>(
    alloc: Global,
    journal: Journal<D>,
    shelf: S,
    limits: Limits,
) -> Result<Opened<D, S>, CompactFault>
    requires { AreLawful limits }
    ensures leads { IfOk result (λ it. IsClean it.store → (point : Point)
        × LeadsTo limits (kept journal) (S.Shelf.held shelf) point
        × (it.service ≡ awake_at point) × (it.moment ≡ moment_of point)) }
    ensures kept { IfOk result (λ it. IsClean it.store → kept_of it.store ≡ kept journal) }
    ensures open { IfOk result (λ it. IsTrue (is_store_open it.store)) }
    ensures line { IfOk result (λ it. line_of (journal_of it.store) ≡ line_of journal) }
    ensures survey { IfOk result (λ it. IsClean it.store → IsSurveyOf (kept journal) it.survey) }
    ensures reads { IfOk result (λ it. ReadsOnly S.Shelf.held S.Shelf.may_leave S.Shelf.IsClean
        shelf (shelf_of it.store)) }
{
    let mut journal = journal;
    let survey = match survey_of(alloc, &mut journal, limits) {
        Ok(survey) => survey,
        Err(error) => return Err(CompactFault::Old(StoreFault::Journal(error))),
    };
    let shelf = told(alloc, shelf, survey.hints.as_slice());
    let mut store = Store::new(alloc, journal, shelf, limits);
    match store.recover(alloc) {
        Ok(replay) => {
            let (service, moment) = awake_of(replay);
            Ok(Opened {
                store,
                service,
                moment,
                survey,
            })
        }
        Err(fault) => Err(CompactFault::Old(fault)),
    }
}

/// Has a service forget these pairs.
fn forget_all(service: &mut Service, gone: &[Pair])
    ensures { service.new ≡ forgotten_all gone.now service.old }
{
    for (name, digest) in gone {
        service.forget(name, digest);
    }
}

/// Leaves out what needn't stay, and gives it. Without a word on that, all stays.
fn leave_out<D: Disk + Drop, S: Shelf + Drop>(
    alloc: Global,
    old: Opened<D, S>,
    leaving: Option<&Leaving>,
) -> Result<(Opened<D, S>, Vec<Pair>), CompactFault>
    ensures store { IfOk result (λ it. it.0.store ≡ old.store) }
    ensures forgot { IfOk result (λ it. it.0.service ≡ forgotten_all it.1.items old.service) }
    ensures moment { IfOk result (λ it. it.0.moment ≡ old.moment) }
    ensures named { IfOk result (λ it. it.0.survey.named ≡ old.survey.named) }
    ensures only { IfOk result (λ it. MayGo leaving.exit it.1.items) }
{
    let Some(leaving) = leaving else {
        return Ok((old, Vec::new(alloc)));
    };
    let mut old = old;
    let gone = old.survey.tables.leave_out(leaving)?;
    forget_all(&mut old.service, &gone);
    Ok((old, gone))
}

/// Whether a replay has come to this service, and to this moment.
fn is_same(again: Replay, service: &Service, moment: u64) -> Result<bool, AllocError>
    ensures { IfOk result (λ same. IsTrue same
        → (again.state ≡ service.now) × (moment_of again ≡ moment)) }
{
    if again.moment() != moment {
        return Ok(false);
    }
    again.into_service().is_same(service)
}

/// Sees that a replay has come to this service, and to this moment.
fn see_same(again: Replay, service: &Service, moment: u64) -> Result<(), CompactFault>
    ensures { OnOk result ((again.state ≡ service.now) × (moment_of again ≡ moment)) }
{
    match is_same(again, service, moment) {
        Ok(true) => Ok(()),
        Ok(false) => Err(CompactFault::NotTheSame),
        Err(_) => Err(CompactFault::NoMemory),
    }
}

/// Runs a new journal, and sees that it comes to this service and this moment.
fn verify<N: Disk + Drop, S: Shelf + Drop>(
    alloc: Global,
    store: &mut Store<N, S>,
    service: &Service,
    moment: u64,
) -> Result<(), CompactFault>
    ensures same { OnOk result (IsClean store.new → (point : Point)
        × LeadsTo (limits_of store.old) (kept_of store.old) (S.Shelf.held (shelf_of store.new)) point
        × (point.state ≡ service.now) × (moment_of point ≡ moment)) }
    ensures kept { OnOk result (IsClean store.new → kept_of store.new ≡ kept_of store.old) }
    ensures open { OnOk result (IsTrue (is_store_open store.new)) }
    ensures line { line_of (journal_of store.new) ≡ line_of (journal_of store.old) }
    ensures reads { ReadsOnly S.Shelf.held S.Shelf.may_leave S.Shelf.IsClean (shelf_of store.old)
        (shelf_of store.new) }
    ensures clean { IsClean store.new → IsClean store.old }
{
    let again = match store.recover(alloc) {
        Ok(again) => again,
        Err(fault) => return Err(CompactFault::New(fault)),
    };
    match see_same(again, service, moment) {
        Ok(()) => Ok(()),
        Err(fault) => Err(fault),
    }
}

/// Runs a new journal, sees that it comes to this service and this moment, and gives it back with its shelf.
fn verified<N: Disk + Drop, S: Shelf + Drop>(
    alloc: Global,
    fresh: Journal<N>,
    shelf: S,
    limits: Limits,
    service: &Service,
    moment: u64,
) -> Result<Checked<N, S>, CompactFault>
    requires { AreLawful limits }
    ensures leads { IfOk result (λ it. IsTrue (N.Disk.is_clean (disk_of it.fresh))
        → S.Shelf.IsClean it.shelf → (point : Point)
        × LeadsTo limits (kept it.fresh) (S.Shelf.held it.shelf) point
        × (point.state ≡ service.now) × (moment_of point ≡ moment)) }
    ensures kept { IfOk result (λ it. IsTrue (N.Disk.is_clean (disk_of it.fresh))
        → S.Shelf.IsClean it.shelf → kept it.fresh ≡ kept fresh) }
    ensures open { IfOk result (λ it. IsTrue (is_open it.fresh)) }
    ensures line { IfOk result (λ it. line_of it.fresh ≡ line_of fresh) }
    ensures reads { IfOk result (λ it. ReadsOnly S.Shelf.held S.Shelf.may_leave S.Shelf.IsClean
        shelf it.shelf) }
    ensures clean { IfOk result (λ it. IsTrue (N.Disk.is_clean (disk_of it.fresh))
        → S.Shelf.IsClean it.shelf → IsTrue (N.Disk.is_clean (disk_of fresh))) }
{
    let mut store = Store::new(alloc, fresh, shelf, limits);
    match verify(alloc, &mut store, service, moment) {
        Ok(()) => {
            let (fresh, shelf) = store.into_parts();
            Ok(Checked { fresh, shelf })
        }
        Err(fault) => Err(fault),
    }
}

/// Opens a new journal as a start does that knows only what it begins with. Sees that it names no files but these, and
/// comes to this service and this moment. Says how many files it names.
fn check<N: Disk + Drop, S: Shelf + Drop>(
    alloc: Global,
    fresh: N,
    line: Line,
    shelf: S,
    safe: Numbers,
    limits: Limits,
    service: &Service,
    moment: u64,
) -> Result<(Checked<N, S>, usize), CompactFault>
    requires { AreLawful limits }
    ensures leads { IfOk result (λ it. IsTrue (N.Disk.is_clean (disk_of it.0.fresh))
        → S.Shelf.IsClean it.0.shelf → (point : Point)
        × LeadsTo limits (kept it.0.fresh) (S.Shelf.held it.0.shelf) point
        × (point.state ≡ service.now) × (moment_of point ≡ moment)) }
    ensures open { IfOk result (λ it. IsTrue (is_open it.0.fresh)) }
    ensures line { IfOk result (λ it. line_of it.0.fresh ≡ line) }
    ensures reads { IfOk result (λ it. ReadsOnly S.Shelf.held S.Shelf.may_leave S.Shelf.IsClean
        shelf it.0.shelf) }
    ensures safe { IfOk result (λ it. IsTrue (N.Disk.is_clean (disk_of it.0.fresh))
        → S.Shelf.IsClean it.0.shelf → AreSafeNumbers S.Shelf.held S.Shelf.may_leave shelf safe
        → AreSafe S.Shelf.held S.Shelf.may_leave it.0.shelf (texts_of (kept it.0.fresh))) }
{
    let mut fresh = Journal::new(fresh, line);
    let Named {
        files: named,
        hints,
    } = match guarded(alloc, &mut fresh, safe) {
        Ok(guarded) => guarded,
        Err(error) => return Err(CompactFault::New(StoreFault::Journal(error))),
    };
    let shelf = told(alloc, shelf, &hints);
    match verified(alloc, fresh, shelf, limits, service, moment) {
        Ok(checked) => Ok((checked, named)),
        Err(fault) => Err(fault),
    }
}

/// Writes a service, as it was surveyed, into a new journal, and puts bytes on the shelf of the old store where they
/// don't find room in a record.
fn renew<D: Disk, N: Disk + Drop, S: Shelf>(
    alloc: Global,
    store: &mut Store<D, S>,
    safe: &mut Numbers,
    service: &Service,
    moment: u64,
    fresh: Journal<N>,
    tables: Tables,
) -> Result<Written<N>, CompactFault>
    ensures { Copies store.old store.new safe.old safe.new }
{
    let files = match settle(alloc, store, safe, service, &tables) {
        Ok(files) => files,
        Err(fault) => return Err(fault),
    };
    write(alloc, service, moment, fresh, tables, files)
}

/// Writes what an old store leads to into a new journal, runs that, and sees that it leads to the same.
fn renewed<D: Disk + Drop, N: Disk + Drop, S: Shelf + Drop>(
    alloc: Global,
    old: Opened<D, S>,
    gone: Vec<Pair>,
    fresh: Journal<N>,
    line: Line,
    limits: Limits,
) -> Result<Compacted<D, N, S>, CompactFault>
    requires { AreLawful limits }
    ensures leads { IfOk result (λ it. IsTrue (N.Disk.is_clean (disk_of it.fresh))
        → S.Shelf.IsClean it.shelf → (point : Point)
        × LeadsTo limits (kept it.fresh) (S.Shelf.held it.shelf) point
        × (point.state ≡ old.service) × (moment_of point ≡ old.moment)) }
    ensures old { IfOk result (λ it. it.old ≡ journal_of old.store) }
    ensures gone { IfOk result (λ it. it.gone ≡ gone) }
    ensures open { IfOk result (λ it. IsTrue (is_open it.fresh)) }
    ensures line { IfOk result (λ it. line_of it.fresh ≡ line) }
    ensures clean { IfOk result (λ it. IsTrue (D.Disk.is_clean (disk_of it.old))
        → S.Shelf.IsClean it.shelf → IsClean old.store) }
    ensures still { IfOk result (λ it. IsTrue (D.Disk.is_clean (disk_of it.old))
        → S.Shelf.IsClean it.shelf
        → KeepsSafe S.Shelf.held S.Shelf.may_leave (shelf_of old.store) it.shelf) }
    ensures safe { IfOk result (λ it. IsTrue (D.Disk.is_clean (disk_of it.old))
        → IsTrue (N.Disk.is_clean (disk_of it.fresh)) → S.Shelf.IsClean it.shelf
        → AreSafeNumbers S.Shelf.held S.Shelf.may_leave (shelf_of old.store) old.survey.named
        → AreSafe S.Shelf.held S.Shelf.may_leave it.shelf (texts_of (kept it.fresh))) }
{
    let Opened {
        mut store,
        service,
        moment,
        survey,
    } = old;
    let Survey {
        tables,
        named,
        records: before,
        hints: _hints,
    } = survey;
    let named_before = named.len();
    let mut safe = named;
    let written = match renew(
        alloc, &mut store, &mut safe, &service, moment, fresh, tables,
    ) {
        Ok(written) => written,
        Err(fault) => return Err(fault),
    };
    let Written {
        journal: fresh,
        records: after,
    } = written;
    let (old, shelf) = store.into_parts();
    let fresh = fresh.into_disk();
    let (checked, named) = match check(alloc, fresh, line, shelf, safe, limits, &service, moment) {
        Ok(checked) => checked,
        Err(fault) => return Err(fault),
    };
    Ok(Compacted {
        old,
        fresh: checked.fresh,
        shelf: checked.shelf,
        is_shorter: !gone.is_empty() || after < before || named < named_before,
        before,
        after,
        gone,
    })
}

/// Writes a new journal that stands for the same service as an old one, but for uploads that are idle and for what is
/// left out, and sees that it does: both are run, and what they come to is compared. The new journal is on the disk,
/// with all bodies that it names: every crash leaves it. So it is of the old one, which is as it was, and of its
/// bodies. Nothing is removed. The new journal begins with `line`, by which it is opened once more before it is run.
///
/// Without a `Leaving` nothing is left out. A blob goes with the last repository that had it.
///
/// `Old` says that the old journal can't be run again, as `Store::recover` does, or that a body that was in records can't
/// be put on the shelf; `New` that the new one can't be written or run; `NoMemory` that there is none for what is
/// written or compared. `NotTheSame` comes if what the new journal stands for is something else.
pub fn compact<D: Disk + Drop, N: Disk + Drop, S: Shelf + Drop>(
    alloc: Global,
    journal: Journal<D>,
    fresh: Journal<N>,
    line: Line,
    shelf: S,
    limits: Limits,
    leaving: Option<&Leaving>,
) -> Result<Compacted<D, N, S>, CompactFault>
    requires { AreLawful limits }
    ensures same { IfOk result (λ it. IsTrue (D.Disk.is_clean (disk_of it.old))
        → IsTrue (N.Disk.is_clean (disk_of it.fresh)) → S.Shelf.IsClean it.shelf
        → StandsForTheSame limits (kept journal) (S.Shelf.held shelf) (kept it.fresh)
        (S.Shelf.held it.shelf) it.gone.items) }
    ensures gone { IfOk result (λ it. MayGo leaving.exit it.gone.items) }
    // A crash leaves the batches of each, behind its first line (`Journal::is_open`).
    ensures open { IfOk result (λ it. IsTrue (is_open it.old) × IsTrue (is_open it.fresh)) }
    ensures line { IfOk result (λ it. (line_of it.old ≡ line_of journal) × (line_of it.fresh ≡ line)) }
    ensures old { IfOk result (λ it. IsTrue (D.Disk.is_clean (disk_of it.old))
        → S.Shelf.IsClean it.shelf → kept it.old ≡ kept journal) }
    // It leaves each body that it would have left before.
    ensures still { IfOk result (λ it. IsTrue (D.Disk.is_clean (disk_of it.old))
        → S.Shelf.IsClean it.shelf
        → KeepsSafe S.Shelf.held S.Shelf.may_leave shelf it.shelf) }
    // It leaves each body that the new journal names, if it would have left those that the old one names.
    ensures safe { IfOk result (λ it. IsTrue (D.Disk.is_clean (disk_of it.old))
        → IsTrue (N.Disk.is_clean (disk_of it.fresh)) → S.Shelf.IsClean it.shelf
        → AreSafe S.Shelf.held S.Shelf.may_leave shelf (texts_of (kept journal))
        → AreSafe S.Shelf.held S.Shelf.may_leave it.shelf (texts_of (kept it.fresh))) }
{
    let old = match open_old(alloc, journal, shelf, limits) {
        Ok(old) => old,
        Err(fault) => return Err(fault),
    };
    let (old, gone) = match leave_out(alloc, old, leaving) {
        Ok(left) => left,
        Err(fault) => return Err(fault),
    };
    match renewed(alloc, old, gone, fresh, line, limits) {
        Ok(it) => Ok(it),
        Err(fault) => Err(fault),
    }
}
