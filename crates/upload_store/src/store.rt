//! A journal of entries and a shelf of the bodies that they name.
ghost use Rattle.std.specs.Prelude.{◌≡◌, ◌⊎◌, ◌+◌, ◌-◌, ◌<◌, ◌≤◌, ◌^◌, ◌++◌, ◌∷◌, [], ℕ, List, Option, length};
ghost use Rattle.std.specs.Prelude.{false, IfOk, IfErr, IfSome, IfNone, OnOk, OnErr, IsSome, IsTrue, Contains, Some, None, ⊤};
ghost use Rattle.std.specs.List.{All, concat};
ghost use Rattle.bodies.specs.Body.{number_of, bytes_of, is_open as is_file_open};
ghost use Rattle.bodies.specs.Shelf.{KeepsOthers};
ghost use Rattle.journal.specs.Format.{stored, sector, IsBeforeOrAfter};
ghost use Rattle.journal.specs.Journal.{end_of, line_of, room_of};
ghost use Rattle.journal.specs.Errors.{Because, WhyNot};
ghost use Rattle.journal.specs.Reads.{Refuses};
ghost use Rattle.sqlite_disk.specs.Disk.{MoreFaults};
ghost use Rattle.journal.specs.Batch.{batch_records, batch_size, kept_at};
ghost use Rattle.upload_service.specs.Machine.{AreLawful, empty_state};
ghost use Rattle.upload_store.specs.Faults.{ComesBy, Never, NoBody, NoJournal, NoRecord};
ghost use Rattle.upload_store.specs.Faults.{BodyFails, FillFails, Missed, Names, OnlyFails, WriteFails};
ghost use Rattle.upload_store.specs.Found.{found, batch_in, numbers_of, texts_of};
ghost use Rattle.upload_store.specs.Reading.{ReadsOnly, KeepsBehind};
ghost use Rattle.upload_journal.specs.declared.replay.ReplayFault.TheVariants as Fault;
ghost use Rattle.upload_store.specs.Runs.{IsReplayOf, start_of};
ghost use Rattle.upload_store.specs.Salvage.{IsSalvageOf, one_more};
ghost use Rattle.upload_store.specs.Safe.{IsSafe, AreSafe, AreWritten};

use crate::losses::{Losses, Salvage};
use crate::rerun::{Rerun, new_replay};
use crate::rescue::Rescue;
use crate::spooled::name_file;
use crate::{CrashShelf, RefusedRecord, StoreFault};
use bodies::{Body, BodyFault, Shelf, begin, finish};
use journal::{Batch, Error, Journal};
use sqlite_disk::{Crash, Disk};
use std::alloc::Global;
use std::mem;
use upload_bytes::{Body as Bytes, Part, Room};
use upload_journal::{BodyFile, Replay};
use upload_service::Limits;

/// A journal of entries, and a shelf of the bodies that they name.
///
/// It is opened by `recover`, and stays open as long as its journal does.
#[derive(Drop)]
pub struct Store<D: Disk, S: Shelf> {
    pub(crate) journal: Journal<D>,
    pub(crate) run: Rescue<S>,
    pub(crate) limits: Limits,
    /// What the service is granted of, if there is a limit.
    pub(crate) memory: Option<Room>,
    /// The number of the next body.
    pub(crate) next: u64,
    ghost lawful: { AreLawful limits },
}

/// The first number that is above all of these.
fn above(numbers: &[u64]) -> Option<u64>
    ensures some { IfSome result (λ next. All (λ n. n < next) numbers.now) }
    ensures none { IfNone result (Contains numbers.now (2 ^ 64 - 1)) }
{
    let mut next = 0;
    for number in numbers {
        let behind = number.checked_add(1)?;
        next = behind.max(next);
    }
    Some(next)
}

/// The first number that is above those of all bodies on a shelf.
fn next_number<S: Shelf>(alloc: Global, shelf: &mut S) -> Result<u64, StoreFault>
    ensures above { IfOk result (λ next. S.Shelf.IsClean shelf.new
        → (n : ℕ) → IsSome (S.Shelf.held shelf.old n) → n < next) }
    ensures reads { ReadsOnly S.Shelf.held S.Shelf.may_leave S.Shelf.IsClean shelf.old shelf.new }
    ensures faults { S.Shelf.faults shelf.old ≤ S.Shelf.faults shelf.new }
    ensures cause { IfErr result (ComesBy NoJournal
        (OnlyFails (MoreFaults (S.Shelf.faults shelf.old) (S.Shelf.faults shelf.new))) NoRecord
        (S.Shelf.IsClean shelf.new → IsSome (S.Shelf.held shelf.old (2 ^ 64 - 1)))) }
{
    let numbers = match shelf.numbers(alloc) {
        Ok(numbers) => numbers,
        Err(fault) => return Err(StoreFault::Body(fault)),
    };
    match above(&numbers) {
        Some(next) => Ok(next),
        None => Err(StoreFault::NumbersUsedUp),
    }
}

/// Puts parts behind the bytes of a body.
fn put_parts<F: Disk>(file: &mut Body<F>, parts: &[Part]) -> Result<(), BodyFault>
    requires { IsTrue (is_file_open file.old) }
    ensures written { OnOk result (bytes_of file.new ≡ bytes_of file.old ++ concat parts.now) }
    ensures open { OnOk result (IsTrue (is_file_open file.new)) }
    ensures number { number_of file.new ≡ number_of file.old }
    ensures cause { IfErr result (WriteFails F.Disk
        (length (bytes_of file.old) + length (concat parts.now))) }
{
    for part in parts {
        if let Err(fault) = file.append(part.as_slice()) {
            return Err(fault);
        }
    }
    Ok(())
}

/// Writes a body into a file that was just begun, and puts it on the disk.
fn fill<S: Shelf>(shelf: &mut S, file: Body<S::File>, body: &Bytes) -> Result<(), BodyFault>
    requires open { IsTrue (is_file_open file) }
    requires empty { bytes_of file ≡ [] }
    ensures safe { OnOk result
        (IsSafe S.Shelf.held S.Shelf.may_leave shelf.new (number_of file) body.now) }
    ensures others { KeepsOthers S.Shelf.held S.Shelf.may_leave shelf.old shelf.new (number_of file) }
    ensures usable { OnOk result (IsTrue (S.Shelf.is_usable shelf.new)) }
    ensures faults { S.Shelf.faults shelf.old ≤ S.Shelf.faults shelf.new }
    ensures cause { IfErr result (FillFails S.Shelf S.File.Disk shelf.old shelf.new body.now) }
    ensures clean { S.Shelf.IsClean shelf.new → S.Shelf.IsClean shelf.old }
{
    let mut file = file;
    let pieces = body.pieces();
    if let Err(fault) = put_parts(&mut file, pieces.parts.as_slice()) {
        return Err(fault);
    }
    if let Err(fault) = file.append(pieces.last.as_slice()) {
        return Err(fault);
    }
    match finish(shelf, file) {
        Ok(()) => Ok(()),
        Err(fault) => Err(fault),
    }
}

/// Writes a body into the file of this number, and puts it on the disk. At an error the file is removed, if it was made
/// here.
fn write_file<S: Shelf>(shelf: &mut S, number: u64, body: &Bytes) -> Result<(), BodyFault>
    ensures safe { OnOk result
        (IsSafe S.Shelf.held S.Shelf.may_leave shelf.new number body.now) }
    ensures free { OnOk result (S.Shelf.IsClean shelf.new → S.Shelf.held shelf.old number ≡ None) }
    ensures still { (n : ℕ) (bytes : List ℕ) → S.Shelf.IsClean shelf.new
        → IsSafe S.Shelf.held S.Shelf.may_leave shelf.old n bytes
        → IsSafe S.Shelf.held S.Shelf.may_leave shelf.new n bytes }
    ensures others { KeepsOthers S.Shelf.held S.Shelf.may_leave shelf.old shelf.new number }
    ensures usable { OnOk result (IsTrue (S.Shelf.is_usable shelf.new)) }
    ensures faults { S.Shelf.faults shelf.old ≤ S.Shelf.faults shelf.new }
    ensures cause { IfErr result (BodyFails S.Shelf S.File.Disk shelf.old shelf.new number
        (body.now ∷ [])) }
    ensures clean { S.Shelf.IsClean shelf.new → S.Shelf.IsClean shelf.old }
{
    let file = match begin(shelf, number) {
        Ok(file) => file,
        Err(fault) => return Err(fault),
    };
    match fill(shelf, file, body) {
        Ok(()) => Ok(()),
        Err(fault) => {
            // What stays is removed by the next start.
            let _ = shelf.remove(number);
            Err(fault)
        }
    }
}

/// Has the file of this number have a body, on the disk: the file that it was written into as it came, or a new one.
fn put_file<S: Shelf>(shelf: &mut S, number: u64, body: &Bytes) -> Result<(), BodyFault>
    ensures safe { OnOk result
        (IsSafe S.Shelf.held S.Shelf.may_leave shelf.new number body.now) }
    ensures free { OnOk result (S.Shelf.IsClean shelf.new → S.Shelf.held shelf.old number ≡ None) }
    ensures still { (n : ℕ) (bytes : List ℕ) → S.Shelf.IsClean shelf.new
        → IsSafe S.Shelf.held S.Shelf.may_leave shelf.old n bytes
        → IsSafe S.Shelf.held S.Shelf.may_leave shelf.new n bytes }
    ensures others { KeepsOthers S.Shelf.held S.Shelf.may_leave shelf.old shelf.new number }
    ensures usable { OnOk result (IsTrue (S.Shelf.is_usable shelf.new)) }
    ensures faults { S.Shelf.faults shelf.old ≤ S.Shelf.faults shelf.new }
    ensures cause { IfErr result (BodyFails S.Shelf S.File.Disk shelf.old shelf.new number
        (body.now ∷ [])) }
    ensures clean { S.Shelf.IsClean shelf.new → S.Shelf.IsClean shelf.old }
{
    if let Some(Ok(file)) = body.file() {
        return name_file(shelf, number, file);
    }
    write_file(shelf, number, body)
}

/// Why a recovery gave up: the record that was refused, if one was, and else what the journal says.
fn fault_of(error: Error, refused: Option<RefusedRecord>) -> StoreFault
    ensures { Names error refused result }
{
    match (error, refused) {
        (Error::Machine(_), Some(record)) => StoreFault::Record(record),
        (error, _) => StoreFault::Journal(error),
    }
}

impl<D: Disk, S: Shelf> Store<D, S> {
    ghost use Rattle.upload_store.specs.Store.{journal_of, shelf_of, disk_of, is_open, kept_of, next_of, limits_of};
    ghost use Rattle.upload_store.specs.Store.{IsClean, IsWhole, MayLeave, entries_of};

    /// A store over these, for a service with these limits. It reads nothing yet: `recover` opens it.
    pub fn new(alloc: Global, journal: Journal<D>, shelf: S, limits: Limits) -> Store<D, S>
        requires { AreLawful limits }
        ensures journal { journal_of result ≡ journal }
        ensures shelf { shelf_of result ≡ shelf }
        ensures limits { limits_of result ≡ limits }
    {
        Store {
            journal,
            run: Rescue::new(alloc, Rerun::new(alloc, shelf, limits)),
            limits,
            memory: None,
            next: 0,
        }
    }

    /// The same store, whose service holds no more than this room grants: a record that finds no room there ends a
    /// recovery as want of memory does.
    pub fn within(self, room: Room) -> Store<D, S>
        ensures journal { journal_of result ≡ journal_of self }
        ensures shelf { shelf_of result ≡ shelf_of self }
        ensures limits { limits_of result ≡ limits_of self }
    {
        let mut store = self;
        store.memory = Some(room);
        store
    }

    /// Gives the journal and the shelf back.
    pub fn into_parts(self) -> (Journal<D>, S)
        ensures { (result.0 ≡ journal_of self) × (result.1 ≡ shelf_of self) }
    {
        let Store { journal, run, .. } = self;
        (journal, run.rerun.files.shelf)
    }

    /// Whether its journal is open: it was recovered, and nothing has failed since that leaves it in doubt what the
    /// disk has.
    pub fn is_open(&self) -> bool
        ensures is { result ≡ is_open self.now }
        // Each crash leaves what an open store keeps: each batch, and with it the bodies that it names.
        ensures durable { IsTrue (is_open self.now) → IsClean self.now
            → IsWhole self.now → (file : List ℕ) (files : ℕ → Option (List ℕ))
            → MayLeave self.now file files
            → found (stored file) files ≡ entries_of self.now }
        ensures batches { IsTrue (is_open self.now) → IsClean self.now → (file : List ℕ)
            → D.Disk.may_leave (disk_of self.now) file → stored file ≡ kept_of self.now }
    {
        self.journal.is_open()
    }

    /// The number of the next body.
    pub fn next_number(&self) -> u64
        ensures { result ≡ next_of self.now }
    {
        self.next
    }

    /// Puts a body on the disk, in a file of its own: every crash leaves exactly it, so that an entry may name it. If
    /// it was written into the spool as it came (`spool`), that file gets the number. The number is used up, also by
    /// an error, after which a file that was made here is removed if it can be.
    pub fn put_body(&mut self, body: &Bytes) -> Result<BodyFile, StoreFault>
        ensures written { IfOk result (λ file. (file.number ≡ next_of self.old)
            × (file.len ≡ length body.now)
            × IsSafe S.Shelf.held S.Shelf.may_leave (shelf_of self.new) file.number body.now) }
        ensures free { IfOk result (λ file. IsClean self.new
            → S.Shelf.held (shelf_of self.old) file.number ≡ None) }
        ensures next { OnOk result (next_of self.new ≡ next_of self.old + 1) }
        ensures later { next_of self.old ≤ next_of self.new }
        ensures safe { (n : ℕ) (bytes : List ℕ) → S.Shelf.IsClean (shelf_of self.new)
            → IsSafe S.Shelf.held S.Shelf.may_leave (shelf_of self.old) n bytes
            → IsSafe S.Shelf.held S.Shelf.may_leave (shelf_of self.new) n bytes }
        ensures journal { journal_of self.new ≡ journal_of self.old }
        ensures limits { limits_of self.new ≡ limits_of self.old }
        ensures clean { IsClean self.new → IsClean self.old }
        ensures whole { IsWhole self.old → IsWhole self.new }

        // Whatever the call met, a crash leaves what was kept before it.
        ensures any_crash { IsTrue (is_open self.old) → IsClean self.new
            → IsWhole self.old → (file : List ℕ) (files : ℕ → Option (List ℕ))
            → MayLeave self.new file files
            → found (stored file) files ≡ entries_of self.old }
        ensures batches { IsTrue (is_open self.old) → IsClean self.new → (file : List ℕ)
            → D.Disk.may_leave (disk_of self.new) file → stored file ≡ kept_of self.old }

        // It doesn't give up by itself. Each call of the shelf and of its files that failed is counted there.
        ensures others { KeepsOthers S.Shelf.held S.Shelf.may_leave (shelf_of self.old)
            (shelf_of self.new) (next_of self.old) }
        ensures usable { OnOk result (IsTrue (S.Shelf.is_usable (shelf_of self.new))) }
        ensures faults { S.Shelf.faults (shelf_of self.old) ≤ S.Shelf.faults (shelf_of self.new) }
        ensures cause { IfErr result (ComesBy (WhyNot (is_open self.old ≡ false) Never Never ⊤)
            (BodyFails S.Shelf S.File.Disk (shelf_of self.old) (shelf_of self.new)
            (next_of self.old) (body.now ∷ [])) NoRecord (next_of self.old ≡ 2 ^ 64 - 1)) }
    {
        if !self.journal.is_open() {
            return Err(StoreFault::Journal(Error::Closed));
        }
        let number = self.next;
        let Some(next) = number.checked_add(1) else {
            return Err(StoreFault::NumbersUsedUp);
        };
        self.next = next;
        match put_file(&mut self.run.rerun.files.shelf, number, body) {
            Ok(()) => Ok(BodyFile {
                number,
                len: body.len() as u64,
            }),
            Err(fault) => Err(StoreFault::Body(fault)),
        }
    }

    /// Removes the file of a body that no entry names and none is to name. A crash may bring it back.
    pub fn remove_body(&mut self, number: u64) -> Result<(), StoreFault>
        ensures gone { OnOk result (S.Shelf.held (shelf_of self.new) number ≡ None) }
        ensures others { KeepsOthers S.Shelf.held S.Shelf.may_leave (shelf_of self.old)
            (shelf_of self.new) number }
        ensures journal { journal_of self.new ≡ journal_of self.old }
        ensures next { next_of self.new ≡ next_of self.old }
        ensures limits { limits_of self.new ≡ limits_of self.old }
        ensures clean { IsClean self.new → IsClean self.old }
        ensures usable { S.Shelf.is_usable (shelf_of self.new)
            ≡ S.Shelf.is_usable (shelf_of self.old) }
        ensures faults { S.Shelf.faults (shelf_of self.old) ≤ S.Shelf.faults (shelf_of self.new) }
        ensures cause { IfErr result (ComesBy NoJournal (Missed
            (IsClean self.new → S.Shelf.held (shelf_of self.old) number ≡ None)
            (MoreFaults (S.Shelf.faults (shelf_of self.old)) (S.Shelf.faults (shelf_of self.new))))
            NoRecord Never) }
    {
        if let Err(fault) = self.run.rerun.files.shelf.remove(number) {
            return Err(StoreFault::Body(fault));
        }
        Ok(())
    }

    /// How many bytes of batches, by their `size`, find room in the journal on a disk that is full.
    pub fn room(&self) -> usize
        ensures { result ≡ room_of (journal_of self.now) }
    {
        self.journal.room()
    }

    /// Makes so much room in the journal. A store that is still open after an error has what it had, and as much room.
    /// So it is on a full disk.
    pub fn reserve(&mut self, bytes: usize) -> Result<(), StoreFault>
        ensures room { OnOk result (bytes ≤ room_of (journal_of self.new)) }
        ensures no_room { OnErr result
            (room_of (journal_of self.new) ≡ room_of (journal_of self.old)) }
        ensures same { IsTrue (is_open self.new) → IsClean self.new
            → kept_of self.new ≡ kept_of self.old }
        ensures open { OnOk result (IsTrue (is_open self.new)) }
        ensures closes { OnErr result (IsTrue (is_open self.old)
            → is_open self.new ≡ D.Disk.is_usable (disk_of self.new)) }
        ensures shelf { shelf_of self.new ≡ shelf_of self.old }
        ensures next { next_of self.new ≡ next_of self.old }
        ensures limits { limits_of self.new ≡ limits_of self.old }
        ensures clean { IsClean self.new → IsClean self.old }
        ensures faults { D.Disk.faults (disk_of self.old) ≤ D.Disk.faults (disk_of self.new) }

        // Whatever the call met, a crash leaves what was kept before it.
        ensures any_crash { IsTrue (is_open self.old) → IsClean self.new
            → IsWhole self.old → (file : List ℕ) (files : ℕ → Option (List ℕ))
            → MayLeave self.new file files
            → found (stored file) files ≡ entries_of self.old }
        ensures batches { IsTrue (is_open self.old) → IsClean self.new → (file : List ℕ)
            → D.Disk.may_leave (disk_of self.new) file → stored file ≡ kept_of self.old }

        // It doesn't give up by itself.
        ensures cause { IfErr result (ComesBy (WhyNot (is_open self.old ≡ false)
            (2 ^ 63 ≤ end_of (journal_of self.old) + sector + bytes + 65536)
            (MoreFaults (D.Disk.faults (disk_of self.old)) (D.Disk.faults (disk_of self.new)))
            (journal_of self.new ≡ journal_of self.old)) NoBody NoRecord Never) }
    {
        match self.journal.reserve(bytes) {
            Ok(()) => Ok(()),
            Err(error) => Err(StoreFault::Journal(error)),
        }
    }

    /// Adds a batch of entries, with the time of day in seconds since 1970. At `Ok` it is on the disk, and each crash
    /// from then on leaves it, if the bodies that it names are on the disk (`put_body`). A store that is still open
    /// after an error has what it had. One that is not can't be used any more: `recover` decides what it has.
    pub fn append(&mut self, batch: &Batch, time: u64) -> Result<(), StoreFault>
        ensures added { OnOk result (IsClean self.new → kept_of self.new
            ≡ kept_of self.old ++ kept_at time batch.now ∷ []) }
        ensures open { OnOk result (IsTrue (is_open self.new)) }
        ensures refused { OnErr result (IsTrue (is_open self.new) → IsClean self.new
            → kept_of self.new ≡ kept_of self.old) }
        ensures shelf { shelf_of self.new ≡ shelf_of self.old }
        ensures next { next_of self.new ≡ next_of self.old }
        ensures limits { limits_of self.new ≡ limits_of self.old }
        ensures clean { IsClean self.new → IsClean self.old }
        ensures whole { IsTrue (is_open self.old) → IsWhole self.old
            → AreSafe S.Shelf.held S.Shelf.may_leave (shelf_of self.old) (batch_records batch.now)
            → IsWhole self.new }

        // Whatever the call met, a crash leaves the entries from before it, each with its bodies, and after them the
        // whole batch or nothing of it.
        ensures any_crash { IsTrue (is_open self.old) → IsClean self.new
            → IsWhole self.old
            → AreSafe S.Shelf.held S.Shelf.may_leave (shelf_of self.old) (batch_records batch.now)
            → (file : List ℕ) (files : ℕ → Option (List ℕ)) → MayLeave self.new file files
            → (found (stored file) files ≡ entries_of self.old)
            ⊎ (found (stored file) files ≡ entries_of self.old
            ++ batch_in (S.Shelf.held (shelf_of self.old)) (kept_at time batch.now) ∷ []) }
        ensures batches { IsTrue (is_open self.old) → IsClean self.new → (file : List ℕ)
            → D.Disk.may_leave (disk_of self.new) file
            → IsBeforeOrAfter (kept_of self.old) (kept_at time batch.now) file }
        ensures durable { OnOk result (IsClean self.new → (file : List ℕ)
            → D.Disk.may_leave (disk_of self.new) file
            → stored file ≡ kept_of self.old ++ kept_at time batch.now ∷ []) }

        ensures ends { OnOk result (end_of (journal_of self.new)
            ≡ end_of (journal_of self.old) + batch_size batch.now) }
        ensures faults { D.Disk.faults (disk_of self.old) ≤ D.Disk.faults (disk_of self.new) }

        // It doesn't give up by itself.
        ensures cause { IfErr result (ComesBy (WhyNot (is_open self.old ≡ false)
            (2 ^ 63 ≤ end_of (journal_of self.old) + sector + batch_size batch.now)
            (MoreFaults (D.Disk.faults (disk_of self.old)) (D.Disk.faults (disk_of self.new)))
            (journal_of self.new ≡ journal_of self.old)) NoBody NoRecord Never) }
    {
        match self.journal.append(batch, time) {
            Ok(()) => Ok(()),
            Err(error) => Err(StoreFault::Journal(error)),
        }
    }

    /// Puts bodies on the disk, which get the numbers from `next_number` on, and then adds a batch of entries, which
    /// may name them, with the time of day in seconds since 1970.
    pub fn keep(&mut self, bodies: &[Bytes], batch: &Batch, time: u64) -> Result<(), StoreFault>
        ensures kept { OnOk result (IsClean self.new → kept_of self.new
            ≡ kept_of self.old ++ kept_at time batch.now ∷ []) }
        ensures written { OnOk result (IsClean self.new
            → AreWritten S.Shelf.held S.Shelf.may_leave (shelf_of self.new) (next_of self.old)
            bodies.now) }
        ensures next { OnOk result (next_of self.new ≡ next_of self.old + length bodies.now) }
        ensures open { OnOk result (IsTrue (is_open self.new)) }
        ensures durable { OnOk result (IsClean self.new → (file : List ℕ)
            → D.Disk.may_leave (disk_of self.new) file
            → stored file ≡ kept_of self.old ++ kept_at time batch.now ∷ []) }
        ensures safe { (n : ℕ) (bytes : List ℕ) → IsClean self.new
            → IsSafe S.Shelf.held S.Shelf.may_leave (shelf_of self.old) n bytes
            → IsSafe S.Shelf.held S.Shelf.may_leave (shelf_of self.new) n bytes }
        ensures limits { limits_of self.new ≡ limits_of self.old }
        ensures clean { IsClean self.new → IsClean self.old }

        // Whatever the call met, a crash leaves the batches from before it, or then the whole new one, with all of the
        // bodies.
        ensures any_crash { IsTrue (is_open self.old) → IsClean self.new → (file : List ℕ)
            → D.Disk.may_leave (disk_of self.new) file
            → (stored file ≡ kept_of self.old)
            ⊎ ((stored file ≡ kept_of self.old ++ kept_at time batch.now ∷ [])
            × AreWritten S.Shelf.held S.Shelf.may_leave (shelf_of self.new) (next_of self.old)
            bodies.now) }

        ensures ends { OnOk result (end_of (journal_of self.new)
            ≡ end_of (journal_of self.old) + batch_size batch.now) }
        ensures behind { KeepsBehind S.Shelf.held (shelf_of self.old)
            (shelf_of self.new) (next_of self.old + length bodies.now) }
        ensures usable { OnOk result (S.Shelf.is_usable (shelf_of self.new) ≡ false
            → S.Shelf.is_usable (shelf_of self.old) ≡ false) }
        ensures faults { (D.Disk.faults (disk_of self.old) ≤ D.Disk.faults (disk_of self.new))
            × (S.Shelf.faults (shelf_of self.old) ≤ S.Shelf.faults (shelf_of self.new)) }

        // It doesn't give up by itself.
        ensures cause { IfErr result (ComesBy (WhyNot (is_open self.old ≡ false)
            (2 ^ 63 ≤ end_of (journal_of self.old) + sector + batch_size batch.now)
            (MoreFaults (D.Disk.faults (disk_of self.old)) (D.Disk.faults (disk_of self.new)))
            (journal_of self.new ≡ journal_of self.old))
            (BodyFails S.Shelf S.File.Disk (shelf_of self.old) (shelf_of self.new)
            (next_of self.old) bodies.now) NoRecord
            (2 ^ 64 ≤ next_of self.old + length bodies.now)) }
    {
        for body in bodies {
            if let Err(fault) = self.put_body(body) {
                return Err(fault);
            }
        }
        match self.append(batch, time) {
            Ok(()) => Ok(()),
            Err(fault) => Err(fault),
        }
    }

    /// Opens the store: runs the entries of the journal, with the bodies of the shelf, through a new service, and
    /// repairs the journal's end. The replay has the service as it was, and the moment to go on at. It may crash too:
    /// a crash leaves what one from before the call would have left.
    ///
    /// The first record that can't be run again is the error `Record`.
    pub fn recover(&mut self, alloc: Global) -> Result<Replay, StoreFault>
        ensures ran { IfOk result (λ replay. IsClean self.new
            → IsReplayOf (kept_of self.old) (S.Shelf.held (shelf_of self.new))
            (start_of (empty_state (limits_of self.old) 0)) replay) }
        ensures open { OnOk result (IsTrue (is_open self.new)) }
        ensures same { OnOk result (IsClean self.new → kept_of self.new
            ≡ kept_of self.old) }
        ensures next { OnOk result (IsClean self.new → (n : ℕ)
            → IsSome (S.Shelf.held (shelf_of self.new) n) → n < next_of self.new) }
        ensures reads { ReadsOnly S.Shelf.held S.Shelf.may_leave S.Shelf.IsClean
            (shelf_of self.old) (shelf_of self.new) }
        ensures limits { limits_of self.new ≡ limits_of self.old }
        ensures line { line_of (journal_of self.new) ≡ line_of (journal_of self.old) }
        ensures longer { length (D.Disk.seen (disk_of self.old))
            ≤ length (D.Disk.seen (disk_of self.new)) }
        ensures faults { D.Disk.faults (disk_of self.old) ≤ D.Disk.faults (disk_of self.new) }
        ensures of_shelf { S.Shelf.faults (shelf_of self.old)
            ≤ S.Shelf.faults (shelf_of self.new) }
        ensures clean { IsClean self.new → IsClean self.old }

        // Why it gives up: that of the journal, but a record that was refused is named; the shelf failed as its numbers
        // were read; or its last number is 2^64 - 1.
        ensures cause { IfErr result (ComesBy (Because
            (D.Disk.is_usable (disk_of self.old) ≡ false)
            (Refuses D.Disk (line_of (journal_of self.old)).bytes (disk_of self.old)
            (disk_of self.new))
            (IsTrue (D.Disk.is_clean (disk_of self.new))
            → 2 ^ 63 ≤ length (D.Disk.seen (disk_of self.old)) + sector + sector)
            (MoreFaults (D.Disk.faults (disk_of self.old)) (D.Disk.faults (disk_of self.new)))
            Never)
            (OnlyFails (MoreFaults (S.Shelf.faults (shelf_of self.old))
            (S.Shelf.faults (shelf_of self.new)))) (λ _. Unit {0})
            (S.Shelf.IsClean (shelf_of self.new)
            → IsSome (S.Shelf.held (shelf_of self.old) (2 ^ 64 - 1)))) }

        // Whatever the call met, a crash leaves a journal that stands for what one from before it would have stood
        // for.
        ensures any_crash { IsClean self.new → (file : List ℕ)
            → D.Disk.may_leave (disk_of self.new) file
            → (before : List ℕ) × D.Disk.may_leave (disk_of self.old) before
            × (stored file ≡ stored before) }
    {
        self.run.rerun.replay = new_replay(alloc, self.limits, self.memory.as_ref());
        self.run.rerun.count = 0;
        self.run.rerun.refused = None;
        self.next = next_number(alloc, &mut self.run.rerun.files.shelf)?;
        if let Err(error) = self.journal.recover(alloc, &mut self.run.rerun) {
            return Err(fault_of(error, self.run.rerun.refused));
        }
        let fresh = new_replay(alloc, self.limits, self.memory.as_ref());
        Ok(mem::replace(&mut self.run.rerun.replay, fresh))
    }

    /// Opens the store, as `recover` does, and goes on past a record that can't be run again: a damaged journal or
    /// shelf loses what is damaged, and what can't be done without it.
    ///
    /// A record counts if it does what it did, and else it is lost, by a cause at its place. A session gets the number
    /// that it had, also after a lost one. No later session gets a number that a lost record names or may have had,
    /// and no later body that of a file that a record names. Nothing is lost of what `recover` could run, unless a
    /// call of the shelf fails.
    pub fn salvage(&mut self, alloc: Global) -> Result<Salvage, StoreFault>
        ensures ran { IfOk result (λ saved. IsClean self.new
            → IsSalvageOf (kept_of self.old) (S.Shelf.held (shelf_of self.new))
            (MoreFaults (S.Shelf.faults (shelf_of self.old)) (S.Shelf.faults (shelf_of self.new)))
            (start_of (empty_state (limits_of self.old) 0)) saved.replay saved.losses.count
            saved.losses.listed.items) }
        ensures open { OnOk result (IsTrue (is_open self.new)) }
        ensures same { OnOk result (IsClean self.new → kept_of self.new
            ≡ kept_of self.old) }
        ensures next { OnOk result (IsClean self.new → (n : ℕ)
            → IsSome (S.Shelf.held (shelf_of self.new) n) → n < next_of self.new) }
        ensures unnamed { OnOk result (IsClean self.new → All (λ text. All
            (λ n. one_more n ≤ next_of self.new) (numbers_of text)) (texts_of (kept_of self.old))) }
        ensures reads { ReadsOnly S.Shelf.held S.Shelf.may_leave S.Shelf.IsClean
            (shelf_of self.old) (shelf_of self.new) }
        ensures limits { limits_of self.new ≡ limits_of self.old }
        ensures line { line_of (journal_of self.new) ≡ line_of (journal_of self.old) }
        ensures longer { length (D.Disk.seen (disk_of self.old))
            ≤ length (D.Disk.seen (disk_of self.new)) }
        ensures faults { D.Disk.faults (disk_of self.old) ≤ D.Disk.faults (disk_of self.new) }
        ensures clean { IsClean self.new → IsClean self.old }

        // Why it gives up: as `recover`, but of the records only a want of memory ends it.
        ensures cause { IfErr result (ComesBy (Because
            (D.Disk.is_usable (disk_of self.old) ≡ false)
            (Refuses D.Disk (line_of (journal_of self.old)).bytes (disk_of self.old)
            (disk_of self.new))
            (IsTrue (D.Disk.is_clean (disk_of self.new))
            → 2 ^ 63 ≤ length (D.Disk.seen (disk_of self.old)) + sector + sector)
            (MoreFaults (D.Disk.faults (disk_of self.old)) (D.Disk.faults (disk_of self.new)))
            Never)
            (OnlyFails (MoreFaults (S.Shelf.faults (shelf_of self.old))
            (S.Shelf.faults (shelf_of self.new)))) (λ it. it.fault ≡ Fault.NoMemory)
            (S.Shelf.IsClean (shelf_of self.new)
            → IsSome (S.Shelf.held (shelf_of self.old) (2 ^ 64 - 1)))) }

        // Whatever the call met, a crash leaves a journal that stands for what one from before it would have stood
        // for.
        ensures any_crash { IsClean self.new → (file : List ℕ)
            → D.Disk.may_leave (disk_of self.new) file
            → (before : List ℕ) × D.Disk.may_leave (disk_of self.old) before
            × (stored file ≡ stored before) }
    {
        self.run.rerun.replay = new_replay(alloc, self.limits, self.memory.as_ref());
        self.run.rerun.count = 0;
        self.run.rerun.refused = None;
        self.run.losses = Losses::none(alloc);
        self.next = next_number(alloc, &mut self.run.rerun.files.shelf)?;
        if let Err(error) = self.journal.recover(alloc, &mut self.run) {
            return Err(fault_of(error, self.run.rerun.refused));
        }
        let losses = mem::replace(&mut self.run.losses, Losses::none(alloc));
        self.next = self.next.max(losses.past);
        let fresh = new_replay(alloc, self.limits, self.memory.as_ref());
        let mut replay = mem::replace(&mut self.run.rerun.replay, fresh);
        replay.use_up(losses.last_number(replay.issued()));
        Ok(Salvage { replay, losses })
    }
}

impl<D: Crash, S: CrashShelf> Store<D, S> {
    ghost use Rattle.upload_store.specs.Store.{journal_of, shelf_of, disk_of, is_open, limits_of, IsClean};

    /// For theorems and tests: the machine goes down and comes back.
    pub fn crash(&mut self)
        ensures left_file { D.Disk.may_leave (disk_of self.old) (D.Disk.seen (disk_of self.new)) }
        ensures left_bodies { (n : ℕ) → S.Shelf.may_leave (shelf_of self.old) n
            (S.Shelf.held (shelf_of self.new) n) }
        ensures no_more_files { (file : List ℕ) → D.Disk.may_leave (disk_of self.new) file
            → D.Disk.may_leave (disk_of self.old) file }
        ensures no_more_bodies { (n : ℕ) (left : Option (List ℕ))
            → S.Shelf.may_leave (shelf_of self.new) n left
            → S.Shelf.may_leave (shelf_of self.old) n left }
        ensures closed { is_open self.new ≡ false }
        ensures line { line_of (journal_of self.new) ≡ line_of (journal_of self.old) }
        ensures usable { IsTrue (D.Disk.is_usable (disk_of self.new))
            × IsTrue (S.Shelf.is_usable (shelf_of self.new)) }
        ensures faults { (D.Disk.faults (disk_of self.new) ≡ D.Disk.faults (disk_of self.old))
            × (S.Shelf.faults (shelf_of self.old) ≤ S.Shelf.faults (shelf_of self.new)) }
        ensures limits { limits_of self.new ≡ limits_of self.old }
        ensures clean { IsClean self.new → IsClean self.old }
    {
        self.journal.crash();
        self.run.rerun.files.shelf.crash();
    }
}
