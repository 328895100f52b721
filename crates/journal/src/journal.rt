// A first line, and batches behind one another, each behind a gate, which is open if the batch counts. A shut gate
// stands behind the last batch, on the disk before anything is written behind it.
ghost use Rattle.std.specs.Prelude.{◌≡◌, ◌⊎◌, ◌+◌, ◌-◌, ◌%◌, ◌<◌, ◌≤◌, ◌^◌, ◌++◌, ◌∷◌, []};
ghost use Rattle.std.specs.Prelude.{ℕ, List, false, length, IfOk, ⊤};
ghost use Rattle.std.specs.Prelude.{IfErr, OnOk, OnErr, IsTrue, MatchOption};
ghost use Rattle.sqlite_disk.specs.Disk.{MoreFaults};
ghost use Rattle.journal.specs.Machine.{Runs};
ghost use Rattle.journal.specs.Errors.{Because, WhyNot, Never};
ghost use Rattle.journal.specs.Format.{stored, whole, sector, Rests, IsBeforeOrAfter};
ghost use Rattle.journal.specs.Gate.{IsStaged};
ghost use Rattle.journal.specs.Reads.{Refuses};

use crate::ending::see_end;
use crate::gate::{blank, open_gate, stage};
use crate::head::{HEAD_LEN, head_of};
use crate::looking::look;
use crate::machine::Passing;
use crate::mending::mend;
use crate::recovery::{MAX_LEN, measure, prepare};
use crate::sectors::{SECTOR, whole};
use crate::{Batch, Ending, Error, Line, Looked, Machine};
use sqlite_disk::{Crash, Disk};
use std::alloc::Global;

/// Batches of records in one file.
///
/// It is opened by `recover`, and stays open until a sync or the write of a gate fails.
#[derive(Drop)]
pub struct Journal<D: Disk> {
    disk: D,
    line: Line,
    is_open: bool,
    /// Where the shut gate stands.
    end: usize,
    /// How many batches stand before it.
    count: usize,
    /// The file has at least so many bytes.
    len: usize,
    ghost usable: { IsTrue is_open → IsTrue (D.Disk.is_usable disk) },
    ghost begins: { end % 4096 ≡ 0 },
    ghost few: { count ≤ end },
    ghost long: { IsTrue is_open → end + 4096 ≤ len },
    ghost fits: { len < 2 ^ 63 },
    ghost small: { end + 4096 < 2 ^ 63 },
    ghost counted: { IsTrue is_open → IsTrue (D.Disk.is_clean disk) → count
        ≡ length (stored (D.Disk.seen disk)) },
    ghost rests: { IsTrue is_open → IsTrue (D.Disk.is_clean disk)
        → (c : List ℕ) → D.Disk.may_leave disk c
        → Rests line.bytes (stored (D.Disk.seen disk)) end len c },
}

/// Where the gate behind a batch of so many bytes stands, if it still ends before 2^63.
fn next_gate(gate: usize, len: usize) -> Option<usize>
    requires { gate + sector < 2 ^ 63 }
    ensures { MatchOption result (2 ^ 63 ≤ gate + sector + whole (32 + len) + sector)
        (λ next. (next ≡ gate + sector + whole (32 + len)) × (next + sector < 2 ^ 63)) }
{
    if len >= MAX_LEN - 2 * SECTOR {
        return None;
    }
    let next = gate + SECTOR + whole(HEAD_LEN + len);
    if next >= MAX_LEN - SECTOR {
        return None;
    }
    Some(next)
}

impl<D: Disk> Journal<D> {
    ghost use Rattle.journal.specs.Mending.{copy_at, head_at};
    ghost use Rattle.journal.specs.Journal.{disk_of, line_of, is_open, end_of, count_of, kept, room_of};
    ghost use Rattle.journal.specs.Batch.{batch_records, batch_size};
    ghost use Rattle.journal.specs.Line.{BeginsWith};

    /// A journal over a file that begins with this line, or over an empty one. It reads nothing yet: `recover` opens
    /// it.
    pub fn new(disk: D, line: Line) -> Journal<D>
        ensures disk { disk_of result ≡ disk }
        ensures line { line_of result ≡ line }
        ensures closed { is_open result ≡ false }
    {
        Journal {
            disk,
            line,
            is_open: false,
            end: 0,
            count: 0,
            len: 0,
        }
    }

    /// Gives the disk back.
    pub fn into_disk(self) -> D
        ensures { result ≡ disk_of self }
    {
        self.disk
    }

    /// It was recovered, and nothing has failed since that leaves it in doubt what the file holds.
    pub fn is_open(&self) -> bool
        ensures is { result ≡ is_open self.now }
        // Each crash leaves the batches of an open journal.
        ensures durable { IsTrue (is_open self.now) → IsTrue (D.Disk.is_clean (disk_of self.now))
            → (c : List ℕ) → D.Disk.may_leave (disk_of self.now) c → stored c ≡ kept self.now }
        ensures front { IsTrue (is_open self.now) → IsTrue (D.Disk.is_clean (disk_of self.now))
            → (c : List ℕ) → D.Disk.may_leave (disk_of self.now) c
            → BeginsWith (line_of self.now) c }
    {
        self.is_open
    }

    /// How many batches an open journal has.
    pub fn count(&self) -> usize
        ensures count { result ≡ count_of self.now }
        ensures all { IsTrue (is_open self.now) → IsTrue (D.Disk.is_clean (disk_of self.now))
            → result ≡ length (kept self.now) }
    {
        self.count
    }

    /// How many bytes of batches, by their `size`, fit in what is written already.
    pub fn room(&self) -> usize
        ensures room { result ≡ room_of self.now }
        // The file has them, and has them after a crash.
        ensures there { IsTrue (is_open self.now) → IsTrue (D.Disk.is_clean (disk_of self.now))
            → (c : List ℕ) → D.Disk.may_leave (disk_of self.now) c → result ≤ length c }
    {
        self.len.saturating_sub(self.end + SECTOR)
    }

    /// Runs a machine over the batches of the file, and repairs its end. It writes the first line into an empty file.
    /// It may crash too: a crash leaves what one from before the call would have left.
    pub fn recover<M: Machine>(&mut self, alloc: Global, machine: &mut M) -> Result<(), Error>
        ensures ran { OnOk result (IsTrue (D.Disk.is_clean (disk_of self.new))
            → Runs M.steps machine.old (kept self.old) machine.new) }
        ensures keeps { (first : M) → M.keeps first machine.old → M.keeps first machine.new }
        ensures same { OnOk result (IsTrue (D.Disk.is_clean (disk_of self.new)) → kept self.new
            ≡ kept self.old) }
        ensures open { OnOk result (IsTrue (is_open self.new)) }
        ensures closed { OnErr result (is_open self.new ≡ false) }
        ensures line { line_of self.new ≡ line_of self.old }
        ensures durable { OnOk result (IsTrue (D.Disk.is_clean (disk_of self.new))
            → (c : List ℕ) → D.Disk.may_leave (disk_of self.new) c → stored c ≡ kept self.old) }
        ensures clean { IsTrue (D.Disk.is_clean (disk_of self.new))
            → IsTrue (D.Disk.is_clean (disk_of self.old)) }

        // Why it gives up: a disk whose sync has failed, another first line, a file of almost 2^63 bytes, a call of the
        // disk, or the machine.
        ensures cause { IfErr result (Because
            (D.Disk.is_usable (disk_of self.old) ≡ false)
            (Refuses D.Disk (line_of self.old).bytes (disk_of self.old) (disk_of self.new))
            (IsTrue (D.Disk.is_clean (disk_of self.new))
            → 2 ^ 63 ≤ length (D.Disk.seen (disk_of self.old)) + sector + sector)
            (MoreFaults (D.Disk.faults (disk_of self.old)) (D.Disk.faults (disk_of self.new)))
            (M.has_refused machine.new)) }

        // Whatever the call met, a crash leaves a file that stands for what one from before it would have stood for,
        // and that begins with the line if they all did.
        ensures any_crash { IsTrue (D.Disk.is_clean (disk_of self.new))
            → (c : List ℕ) → D.Disk.may_leave (disk_of self.new) c
            → (d : List ℕ) × D.Disk.may_leave (disk_of self.old) d × (stored c ≡ stored d) }
        ensures front { ((d : List ℕ) → D.Disk.may_leave (disk_of self.old) d
            → BeginsWith (line_of self.old) d)
            → IsTrue (D.Disk.is_clean (disk_of self.new))
            → (c : List ℕ) → D.Disk.may_leave (disk_of self.new) c
            → BeginsWith (line_of self.old) c }
        ensures longer { length (D.Disk.seen (disk_of self.old))
            ≤ length (D.Disk.seen (disk_of self.new)) }
        ensures faults { D.Disk.faults (disk_of self.old) ≤ D.Disk.faults (disk_of self.new) }
    {
        self.is_open = false;
        if !self.disk.may_be_used() {
            return Err(Error::Closed);
        }
        let ready = prepare(&mut self.disk, self.line.bytes(), alloc, machine)?;
        self.end = ready.end;
        self.count = ready.count;
        self.len = ready.len;
        self.is_open = true;
        Ok(())
    }

    /// Writes zeros behind the end, so that batches of so many bytes, by their `size`, find room on a disk that fills
    /// up. At an error that leaves the journal open it has what it had, and as much room. So it is on a full disk: only
    /// a sync that fails closes it.
    pub fn reserve(&mut self, bytes: usize) -> Result<(), Error>
        ensures room { OnOk result (bytes ≤ room_of self.new) }
        ensures same { IsTrue (is_open self.new) → IsTrue (D.Disk.is_clean (disk_of self.new))
            → kept self.new ≡ kept self.old }
        ensures open { OnOk result (IsTrue (is_open self.new)) }
        ensures line { line_of self.new ≡ line_of self.old }
        ensures clean { IsTrue (D.Disk.is_clean (disk_of self.new))
            → IsTrue (D.Disk.is_clean (disk_of self.old)) }
        ensures cause { IfErr result (WhyNot (is_open self.old ≡ false)
            (2 ^ 63 ≤ end_of self.old + sector + bytes + 65536)
            (MoreFaults (D.Disk.faults (disk_of self.old)) (D.Disk.faults (disk_of self.new)))
            (self.new ≡ self.old)) }
        ensures closes { OnErr result (IsTrue (is_open self.old)
            → is_open self.new ≡ D.Disk.is_usable (disk_of self.new)) }
        ensures no_room { OnErr result (room_of self.new ≡ room_of self.old) }
        ensures any_crash { IsTrue (is_open self.old) → IsTrue (D.Disk.is_clean (disk_of self.new))
            → (c : List ℕ) → D.Disk.may_leave (disk_of self.new) c → stored c ≡ kept self.old }
        ensures front { IsTrue (is_open self.old) → IsTrue (D.Disk.is_clean (disk_of self.new))
            → (c : List ℕ) → D.Disk.may_leave (disk_of self.new) c
            → BeginsWith (line_of self.old) c }
        ensures place { (end_of self.new ≡ end_of self.old) × (count_of self.new ≡ count_of self.old) }
        ensures faults { D.Disk.faults (disk_of self.old) ≤ D.Disk.faults (disk_of self.new) }
    {
        if !self.is_open {
            return Err(Error::Closed);
        }
        if bytes <= self.room() {
            return Ok(());
        }
        if bytes >= MAX_LEN - 0x1_0000 || self.end + SECTOR + bytes >= MAX_LEN - 0x1_0000 {
            return Err(Error::TooLong);
        }
        self.fill(self.len / SECTOR * SECTOR, bytes)
    }

    // Writes zeros from here on, so that batches of so many bytes find room: all of it if the journal ends before it.
    fn fill(&mut self, from: usize, bytes: usize) -> Result<(), Error>
        requires open { IsTrue (is_open self.old) }
        requires begins { from % 4096 ≡ 0 }
        requires behind { end_of self.old < from }
        requires within { from ≤ end_of self.old + sector + bytes }
        requires there { from ≤ end_of self.old + sector + room_of self.old }
        requires fits { end_of self.old + sector + bytes + 65536 < 2 ^ 63 }
        ensures room { OnOk result (bytes ≤ room_of self.new) }
        ensures open { OnOk result (IsTrue (is_open self.new)) }
        ensures line { line_of self.new ≡ line_of self.old }
        ensures clean { IsTrue (D.Disk.is_clean (disk_of self.new))
            → IsTrue (D.Disk.is_clean (disk_of self.old)) }
        ensures cause { IfErr result (WhyNot Never Never
            (MoreFaults (D.Disk.faults (disk_of self.old)) (D.Disk.faults (disk_of self.new))) ⊤) }
        ensures closes { OnErr result (is_open self.new ≡ D.Disk.is_usable (disk_of self.new)) }
        ensures no_room { OnErr result (room_of self.new ≡ room_of self.old) }
        ensures any_crash { IsTrue (D.Disk.is_clean (disk_of self.new))
            → (c : List ℕ) → D.Disk.may_leave (disk_of self.new) c → stored c ≡ kept self.old }
        ensures front { IsTrue (D.Disk.is_clean (disk_of self.new))
            → (c : List ℕ) → D.Disk.may_leave (disk_of self.new) c
            → BeginsWith (line_of self.old) c }
        ensures place { (end_of self.new ≡ end_of self.old) × (count_of self.new ≡ count_of self.old) }
        ensures faults { D.Disk.faults (disk_of self.old) ≤ D.Disk.faults (disk_of self.new) }
    {
        let end = self.end + SECTOR + bytes;
        if from == end {
            return Ok(());
        }
        self.is_open = false;
        match blank(&mut self.disk, self.end, from, end) {
            Ok(len) => {
                self.len = self.len.max(len);
                self.is_open = true;
                Ok(())
            }
            Err(error) => {
                self.is_open = self.disk.may_be_used();
                Err(Error::Disk(error))
            }
        }
    }

    /// Adds a batch, with the time of day in seconds since 1970. At `Ok` it is on the disk, and each crash from then
    /// on leaves it. A journal that is still open after an error has what it had, and as much room. One that is not
    /// can't be used any more: `recover` decides what it has.
    ///
    /// A full disk leaves it open: only a sync that fails closes it, and the write of a gate, behind which the whole
    /// batch stands already.
    pub fn append(&mut self, batch: &Batch, time: u64) -> Result<(), Error>
        ensures added { OnOk result (IsTrue (D.Disk.is_clean (disk_of self.new))
            → kept self.new ≡ kept self.old ++ (time, batch_records batch.now) ∷ []) }
        ensures open { OnOk result (IsTrue (is_open self.new)) }
        ensures line { line_of self.new ≡ line_of self.old }

        // Its gate has a copy of its head, by which it comes back if one of the two is damaged.
        ensures copied { OnOk result (IsTrue (D.Disk.is_clean (disk_of self.new))
            → copy_at (D.Disk.seen (disk_of self.new)) (end_of self.old)
            ≡ head_at (D.Disk.seen (disk_of self.new)) (end_of self.old)) }

        ensures durable { OnOk result (IsTrue (D.Disk.is_clean (disk_of self.new)) → (c : List ℕ)
            → D.Disk.may_leave (disk_of self.new) c → stored c ≡ kept self.old
            ++ (time, batch_records batch.now) ∷ []) }
        ensures clean { IsTrue (D.Disk.is_clean (disk_of self.new))
            → IsTrue (D.Disk.is_clean (disk_of self.old)) }
        ensures refused { OnErr result (IsTrue (is_open self.new)
            → IsTrue (D.Disk.is_clean (disk_of self.new))
            → kept self.new ≡ kept self.old) }

        ensures closes { OnErr result (IsTrue (is_open self.old)
            → (is_open self.new ≡ D.Disk.is_usable (disk_of self.new))
            ⊎ IsStaged (end_of self.old) (end_of self.old + batch_size batch.now)
            (count_of self.old) (time, batch_records batch.now)
            (D.Disk.seen (disk_of self.new))) }

        // Whatever the call met, a crash leaves the batches from before it, with the whole new one or without it,
        // behind the first line.
        ensures any_crash { IsTrue (is_open self.old) → IsTrue (D.Disk.is_clean (disk_of self.new))
            → (c : List ℕ) → D.Disk.may_leave (disk_of self.new) c
            → IsBeforeOrAfter (kept self.old) (time, batch_records batch.now) c }
        ensures front { IsTrue (is_open self.old) → IsTrue (D.Disk.is_clean (disk_of self.new))
            → (c : List ℕ) → D.Disk.may_leave (disk_of self.new) c
            → BeginsWith (line_of self.old) c }

        // A batch for which there is room doesn't make the file longer, and leaves the rest of the room.
        ensures in_room { OnOk result (batch_size batch.now ≤ room_of self.old
            → room_of self.new ≡ room_of self.old - batch_size batch.now) }
        ensures no_room { OnErr result (room_of self.new ≡ room_of self.old) }
        ensures ends { OnOk result (end_of self.new ≡ end_of self.old + batch_size batch.now) }

        // It doesn't give up by itself.
        ensures cause { IfErr result (WhyNot (is_open self.old ≡ false)
            (2 ^ 63 ≤ end_of self.old + sector + batch_size batch.now)
            (MoreFaults (D.Disk.faults (disk_of self.old)) (D.Disk.faults (disk_of self.new)))
            (self.new ≡ self.old)) }
        ensures faults { D.Disk.faults (disk_of self.old) ≤ D.Disk.faults (disk_of self.new) }
    {
        if !self.is_open {
            return Err(Error::Closed);
        }
        let bytes = batch.bytes();
        let Some(next) = next_gate(self.end, bytes.len()) else {
            return Err(Error::TooLong);
        };
        self.is_open = false;
        if let Err(error) = stage(&mut self.disk, self.end, self.count, time, bytes) {
            self.is_open = self.disk.may_be_used();
            return Err(Error::Disk(error));
        }
        let head = head_of(self.count, time, bytes.len());
        if let Err(error) = open_gate(&mut self.disk, self.end, &head) {
            return Err(Error::Disk(error));
        }
        self.end = next;
        self.count += 1;
        self.len = self.len.max(next + SECTOR);
        self.is_open = true;
        Ok(())
    }
}

impl<D: Disk> Journal<D> {
    ghost use Rattle.journal.specs.Ending.{EndsAs};
    ghost use Rattle.journal.specs.Format.{Kept};
    ghost use Rattle.journal.specs.Line.{BeginsWith};
    ghost use Rattle.journal.specs.Mending.{IsMended, CannotMend};
    ghost use Rattle.std.specs.Prelude.{true};
    ghost use Rattle.journal.specs.Reads.{OnlyReads, EndsAt};
    ghost use Rattle.journal.specs.Journal.{disk_of, line_of, is_open, end_of, count_of, room_of, kept};

    /// How the batches of an open journal end. It is asked after `recover`, which leaves what tells of lost batches.
    ///
    /// Nothing is written. It reads a byte of each sector behind the end, so it takes no memory.
    ///
    /// A crash leaves no end that is `Broken`: a gate is opened when its batch and the shut gate behind it are on the
    /// disk. That there is no false alarm isn't proved: a crash may leave any bytes of what wasn't synced.
    pub fn ending(&mut self) -> Result<Ending, Error>
        ensures so { IfOk result (λ it. IsTrue (D.Disk.is_clean (disk_of self.new))
            → EndsAs it (D.Disk.seen (disk_of self.old)) (end_of self.old) (count_of self.old)) }
        // The end is where the batches of the file end.
        ensures end { OnOk result (IsTrue (D.Disk.is_clean (disk_of self.new))
            → EndsAt (D.Disk.seen (disk_of self.old)) (end_of self.old) (count_of self.old)) }
        ensures was_open { OnOk result (IsTrue (is_open self.old)) }
        ensures reads { IsTrue (is_open self.old)
            → OnlyReads D.Disk (disk_of self.old) (disk_of self.new) }
        ensures open { is_open self.new ≡ is_open self.old }
        ensures line { line_of self.new ≡ line_of self.old }
        ensures place { (end_of self.new ≡ end_of self.old) × (count_of self.new ≡ count_of self.old)
            × (room_of self.new ≡ room_of self.old) }
        ensures cause { IfErr result (WhyNot (is_open self.old ≡ false)
            (IsTrue (D.Disk.is_clean (disk_of self.new))
            → 2 ^ 63 ≤ length (D.Disk.seen (disk_of self.old)) + sector + sector)
            (MoreFaults (D.Disk.faults (disk_of self.old)) (D.Disk.faults (disk_of self.new)))
            ⊤) }
    {
        if !self.is_open {
            return Err(Error::Closed);
        }
        let len = measure(&mut self.disk)?;
        if len < self.end {
            return Ok(Ending::Broken);
        }
        let ending = see_end(&mut self.disk, len, self.end, self.count)?;
        Ok(ending)
    }

    /// Brings back the batch at whose gate the file ends, by the copy of its head that a gate has once it was opened.
    /// If the gate is shut and has a copy of the head behind it, it is opened. If it is open, and its batch isn't
    /// there, the head is written of which it has a copy, if that has the batch's number, the file has room for it,
    /// and no more than one of the four numbers there differs: otherwise other bytes stand there, such as another
    /// sector's. It is to be called again until there is no such batch: what the file stands for goes on to the next
    /// damage.
    ///
    /// A gate's sector has nothing of what a record has, and one that was never opened has no copy. So a crash leaves
    /// no such end, but that of a gate that was being opened: its batch is on the disk, and comes back whole.
    ///
    /// `true` says that there was one, and that the repair is on the disk; `false`, that nothing was written. Behind
    /// either the journal isn't open: `recover` opens it. An error is one of `recover`.
    pub fn mend(&mut self, alloc: Global) -> Result<bool, Error>
        ensures mended { IfOk result (λ is. is ≡ true → IsTrue (D.Disk.is_clean (disk_of self.new))
            → IsMended (D.Disk.seen (disk_of self.old)) (D.Disk.seen (disk_of self.new))) }
        ensures left { IfOk result (λ is. is ≡ false → (D.Disk.seen (disk_of self.new)
            ≡ D.Disk.seen (disk_of self.old))
            × (IsTrue (D.Disk.is_clean (disk_of self.new))
            → CannotMend (D.Disk.seen (disk_of self.old)))) }
        ensures closed { is_open self.new ≡ false }
        ensures line { line_of self.new ≡ line_of self.old }
        ensures clean { IsTrue (D.Disk.is_clean (disk_of self.new))
            → IsTrue (D.Disk.is_clean (disk_of self.old)) }
        // Each crash leaves what it left before, with what is behind it or without.
        ensures any_crash { IsTrue (D.Disk.is_clean (disk_of self.new))
            → (c : List ℕ) → D.Disk.may_leave (disk_of self.new) c
            → (d : List ℕ) × D.Disk.may_leave (disk_of self.old) d
            × (more : List Kept) × (stored c ≡ stored d ++ more) }
        ensures front { ((d : List ℕ) → D.Disk.may_leave (disk_of self.old) d
            → BeginsWith (line_of self.old) d)
            → IsTrue (D.Disk.is_clean (disk_of self.new))
            → (c : List ℕ) → D.Disk.may_leave (disk_of self.new) c
            → BeginsWith (line_of self.old) c }
    {
        self.is_open = false;
        if !self.disk.may_be_used() {
            return Err(Error::Closed);
        }
        mend(&mut self.disk, &self.line, alloc)
    }

    /// Opens a journal whose end is `Broken`, as `recover` does, but runs nothing; adds a batch without records, with
    /// the time of day in seconds since 1970, as a mark that others are lost before it; and writes zeros over what
    /// stands behind.
    ///
    /// An error is one of `recover` or of `append`, or says that the zeros weren't written: the mark stands then.
    pub fn go_on(&mut self, alloc: Global, time: u64) -> Result<(), Error>
        ensures marked { OnOk result (IsTrue (D.Disk.is_clean (disk_of self.new))
            → kept self.new ≡ kept self.old ++ (time, []) ∷ []) }
        ensures open { OnOk result (IsTrue (is_open self.new)) }
        ensures line { line_of self.new ≡ line_of self.old }
        ensures clean { IsTrue (D.Disk.is_clean (disk_of self.new))
            → IsTrue (D.Disk.is_clean (disk_of self.old)) }
        ensures any_crash { IsTrue (D.Disk.is_clean (disk_of self.new))
            → (c : List ℕ) → D.Disk.may_leave (disk_of self.new) c
            → (d : List ℕ) × D.Disk.may_leave (disk_of self.old) d
            × IsBeforeOrAfter (stored d) (time, []) c }
        ensures front { ((d : List ℕ) → D.Disk.may_leave (disk_of self.old) d
            → BeginsWith (line_of self.old) d)
            → IsTrue (D.Disk.is_clean (disk_of self.new))
            → (c : List ℕ) → D.Disk.may_leave (disk_of self.new) c
            → BeginsWith (line_of self.old) c }
    {
        if let Err(error) = self.recover(alloc, &mut Passing) {
            return Err(error);
        }
        self.mark(alloc, time)
    }

    // The same of a journal that is open.
    fn mark(&mut self, alloc: Global, time: u64) -> Result<(), Error>
        requires open { IsTrue (is_open self.old) }
        ensures marked { OnOk result (IsTrue (D.Disk.is_clean (disk_of self.new))
            → kept self.new ≡ kept self.old ++ (time, []) ∷ []) }
        ensures open { OnOk result (IsTrue (is_open self.new)) }
        ensures line { line_of self.new ≡ line_of self.old }
        ensures clean { IsTrue (D.Disk.is_clean (disk_of self.new))
            → IsTrue (D.Disk.is_clean (disk_of self.old)) }
        ensures any_crash { IsTrue (D.Disk.is_clean (disk_of self.new))
            → (c : List ℕ) → D.Disk.may_leave (disk_of self.new) c
            → IsBeforeOrAfter (kept self.old) (time, []) c }
        ensures front { IsTrue (D.Disk.is_clean (disk_of self.new))
            → (c : List ℕ) → D.Disk.may_leave (disk_of self.new) c
            → BeginsWith (line_of self.old) c }
    {
        if let Err(error) = self.append(&Batch::new(alloc), time) {
            return Err(error);
        }
        let room = self.room();
        // A file of almost 2^63 bytes keeps what stands behind.
        if self.end + SECTOR + room >= MAX_LEN - 0x1_0000 {
            return Ok(());
        }
        self.fill(self.end + SECTOR, room)
    }
}

impl<D: Disk> Journal<D> {
    ghost use Rattle.std.specs.Prelude.{take, ◌≢◌};
    ghost use Rattle.journal.specs.Ending.{Looks};
    ghost use Rattle.journal.specs.Format.{has_mark};
    ghost use Rattle.journal.specs.Line.{line_bytes};
    ghost use Rattle.journal.specs.Reads.{OnlyReads};
    ghost use Rattle.journal.specs.Journal.{disk_of, line_of, is_open, end_of, count_of, room_of, kept};

    /// Runs a machine over the batches of the file as it stands, and writes nothing, whether the journal is open or
    /// not. So the file may be another one's, who adds to it meanwhile: what is added is read as far as its gates are
    /// open. A file that was only begun has no batch.
    ///
    /// If another one adds to it meanwhile, it may end as a broken one does.
    pub fn look<M: Machine>(&mut self, alloc: Global, machine: &mut M) -> Result<Looked, Error>
        ensures ran { OnOk result (IsTrue (D.Disk.is_clean (disk_of self.new))
            → Runs M.steps machine.old (kept self.old) machine.new) }
        ensures ends { IfOk result (λ it. IsTrue (D.Disk.is_clean (disk_of self.new))
            → Looks it.ending (D.Disk.seen (disk_of self.old))) }
        ensures marked { IfOk result (λ it. IsTrue (D.Disk.is_clean (disk_of self.new))
            → it.has_mark ≡ has_mark (kept self.old)) }
        ensures keeps { (first : M) → M.keeps first machine.old → M.keeps first machine.new }
        ensures reads { IsTrue (D.Disk.is_usable (disk_of self.old))
            → OnlyReads D.Disk (disk_of self.old) (disk_of self.new) }
        ensures unused { D.Disk.is_usable (disk_of self.old) ≡ false
            → disk_of self.new ≡ disk_of self.old }
        ensures open { is_open self.new ≡ is_open self.old }
        ensures line { line_of self.new ≡ line_of self.old }
        ensures place { (end_of self.new ≡ end_of self.old) × (count_of self.new ≡ count_of self.old)
            × (room_of self.new ≡ room_of self.old) }
        // Why it gives up: as `recover`.
        ensures cause { IfErr result (Because (D.Disk.is_usable (disk_of self.old) ≡ false)
            (IsTrue (D.Disk.is_clean (disk_of self.new))
            → take sector (D.Disk.seen (disk_of self.old)) ≢ line_bytes (line_of self.old))
            (IsTrue (D.Disk.is_clean (disk_of self.new))
            → 2 ^ 63 ≤ length (D.Disk.seen (disk_of self.old)) + sector + sector)
            (MoreFaults (D.Disk.faults (disk_of self.old)) (D.Disk.faults (disk_of self.new)))
            (M.has_refused machine.new)) }
    {
        look(&mut self.disk, &self.line, alloc, machine)
    }
}

impl<D: Crash> Journal<D> {
    ghost use Rattle.journal.specs.Journal.{disk_of, line_of, is_open};

    /// For theorems and tests: the machine goes down and comes back.
    pub fn crash(&mut self)
        ensures left { D.Disk.may_leave (disk_of self.old) (D.Disk.seen (disk_of self.new)) }
        ensures no_more { (c : List ℕ) → D.Disk.may_leave (disk_of self.new) c
            → D.Disk.may_leave (disk_of self.old) c }
        ensures line { line_of self.new ≡ line_of self.old }
        ensures usable { IsTrue (D.Disk.is_usable (disk_of self.new)) }
        ensures faults { D.Disk.faults (disk_of self.new) ≡ D.Disk.faults (disk_of self.old) }
        ensures clean { IsTrue (D.Disk.is_clean (disk_of self.new))
            → IsTrue (D.Disk.is_clean (disk_of self.old)) }
        ensures closed { is_open self.new ≡ false }
    {
        self.is_open = false;
        self.disk.crash();
    }
}
