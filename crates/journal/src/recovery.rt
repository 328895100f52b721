//! A file as a crash left it is made ready: it is measured, read, and its end repaired.
ghost use Rattle.std.specs.Prelude.{◌≡◌, ◌≢◌, ◌⊎◌, ◌+◌, ◌%◌, ◌<◌, ◌≤◌, ◌^◌, ℕ};
ghost use Rattle.std.specs.Prelude.{List, true, false, length, take};
ghost use Rattle.std.specs.Prelude.{slice_index, IfOk, IfErr, OnOk, IsTrue, ⊤};
ghost use Rattle.sqlite_disk.specs.Disk.{Torn, Follows, Only, CountsFault, MoreFaults};
ghost use Rattle.journal.specs.Format.{stored, sector, Rests};
ghost use Rattle.journal.specs.Machine.{Runs};
ghost use Rattle.journal.specs.Errors.{Because, WhyNot, OnlyDisk, Never};
ghost use Rattle.journal.specs.Reads.{OnlyReads, LooksOpen, Refuses, Repairs};

use crate::gate::{OPEN, leave_gate, shut_gate};
use crate::line::begin;
use crate::replay::{read, replay};
use crate::sectors::SECTOR;
use crate::{Error, Machine};
use sqlite_disk::Disk;
use std::alloc::Global;
use std::io;

/// A file has less than this.
pub const MAX_LEN: usize = 1 << 63;

pub fn sync<D: Disk>(disk: &mut D) -> Result<(), Error>
    requires usable { IsTrue (D.Disk.is_usable disk.old) }
    ensures synced { OnOk result (Only (D.Disk.seen disk.new) (D.Disk.may_leave disk.new)) }
    ensures cause { IfErr result (OnlyDisk
        (MoreFaults (D.Disk.faults disk.old) (D.Disk.faults disk.new))) }
    ensures faults { D.Disk.faults disk.old ≤ D.Disk.faults disk.new }
    ensures seen { D.Disk.seen disk.new ≡ D.Disk.seen disk.old }
    ensures usable { OnOk result (IsTrue (D.Disk.is_usable disk.new)) }
    ensures clean { IsTrue (D.Disk.is_clean disk.new) → IsTrue (D.Disk.is_clean disk.old) }
    ensures crash { (c : List ℕ) → D.Disk.may_leave disk.new c → D.Disk.may_leave disk.old c }
{
    match disk.sync() {
        Ok(()) => Ok(()),
        Err(error) => Err(Error::Disk(error)),
    }
}

/// How long the file is.
pub fn measure<D: Disk>(disk: &mut D) -> Result<usize, Error>
    requires usable { IsTrue (D.Disk.is_usable disk.old) }
    ensures measured { IfOk result (λ n. IsTrue (D.Disk.is_clean disk.new) → n
        ≡ length (D.Disk.seen disk.old)) }
    ensures fits { IfOk result (λ n. n + sector + sector < 2 ^ 63) }
    ensures cause { IfErr result (WhyNot Never
        (IsTrue (D.Disk.is_clean disk.new)
        → 2 ^ 63 ≤ length (D.Disk.seen disk.old) + sector + sector)
        (MoreFaults (D.Disk.faults disk.old) (D.Disk.faults disk.new)) ⊤) }
    ensures reads { OnlyReads D.Disk disk.old disk.new }
{
    match disk.len() {
        Ok(len) if len < MAX_LEN - 2 * SECTOR => Ok(len),
        Ok(_) => Err(Error::TooLong),
        Err(error) => Err(Error::Disk(error)),
    }
}

/// A gate stands open at the end, or has not all of its sector.
fn looks_open<D: Disk>(disk: &mut D, len: usize, end: usize) -> Result<bool, Error>
    requires usable { IsTrue (D.Disk.is_usable disk.old) }
    requires measured { IsTrue (D.Disk.is_clean disk.old) → len ≡ length (D.Disk.seen disk.old) }
    requires fits { end + sector < 2 ^ 63 }
    ensures open { IfOk result (λ is. is ≡ true → IsTrue (D.Disk.is_clean disk.new)
        → LooksOpen (D.Disk.seen disk.old) end) }
    ensures shut { IfOk result (λ is. is ≡ false → IsTrue (D.Disk.is_clean disk.new)
        → slice_index (D.Disk.seen disk.old) end ≢ 1) }
    ensures there { IfOk result (λ is. is ≡ false → end + sector ≤ len) }
    ensures cause { IfErr result (OnlyDisk
        (MoreFaults (D.Disk.faults disk.old) (D.Disk.faults disk.new))) }
    ensures reads { OnlyReads D.Disk disk.old disk.new }
{
    if len < end + SECTOR {
        return Ok(true);
    }
    let mut gate = [0];
    read(disk, len, end, &mut gate)?;
    Ok(gate[0] == OPEN)
}

/// Writes a shut gate where none is: the first one of a file that was only begun, or one that tells of lost batches.
fn mend_gate<D: Disk>(disk: &mut D, len: usize, end: usize) -> io::Result<()>
    requires usable { IsTrue (D.Disk.is_usable disk.old) }
    requires begins { end % 4096 ≡ 0 }
    ensures there { OnOk result (end + sector ≤ length (D.Disk.seen disk.new)) }
    ensures shut { OnOk result (slice_index (D.Disk.seen disk.new) end ≢ 1) }
    ensures left { OnOk result ((end ≡ sector → end + sector ≤ len) → slice_index (D.Disk.seen disk.new) end ≡ 2) }
    ensures usable { IsTrue (D.Disk.is_usable disk.new) }
    ensures clean { IsTrue (D.Disk.is_clean disk.new) → IsTrue (D.Disk.is_clean disk.old) }
    ensures faults { CountsFault result (D.Disk.faults disk.old) (D.Disk.faults disk.new) }
    ensures others { Torn end sector (D.Disk.seen disk.old) (D.Disk.seen disk.new) }
    ensures crash { Follows (Torn end sector) (D.Disk.may_leave disk.old)
        (D.Disk.may_leave disk.new) }
{
    if end == SECTOR && len < end + SECTOR {
        shut_gate(disk, end)
    } else {
        leave_gate(disk, end)
    }
}

/// Leaves a shut gate at the end, on the disk. It writes nothing if one is there. Answers how long the file is then.
///
/// A gate that stood open, or was missing behind batches, tells of lost batches from then on: a crash leaves no such
/// gate.
fn repair<D: Disk>(disk: &mut D, len: usize, end: usize) -> Result<usize, Error>
    requires usable { IsTrue (D.Disk.is_usable disk.old) }
    requires measured { IsTrue (D.Disk.is_clean disk.old) → len ≡ length (D.Disk.seen disk.old) }
    requires synced { Only (D.Disk.seen disk.old) (D.Disk.may_leave disk.old) }
    requires begins { end % 4096 ≡ 0 }
    requires fits { end + sector < 2 ^ 63 }
    ensures shut { OnOk result (IsTrue (D.Disk.is_clean disk.new)
        → slice_index (D.Disk.seen disk.new) end ≢ 1) }
    ensures there { IfOk result (λ n. IsTrue (D.Disk.is_clean disk.new)
        → n ≤ length (D.Disk.seen disk.new)) }
    ensures long { IfOk result (λ n. (end + sector ≤ n) × ((n ≡ len) ⊎ (n ≡ end + sector))) }
    ensures synced { OnOk result (Only (D.Disk.seen disk.new) (D.Disk.may_leave disk.new)) }
    ensures usable { OnOk result (IsTrue (D.Disk.is_usable disk.new)) }
    ensures clean { IsTrue (D.Disk.is_clean disk.new) → IsTrue (D.Disk.is_clean disk.old) }
    ensures faults { D.Disk.faults disk.old ≤ D.Disk.faults disk.new }
    ensures cause { IfErr result (OnlyDisk
        (MoreFaults (D.Disk.faults disk.old) (D.Disk.faults disk.new))) }
    ensures crash { IsTrue (D.Disk.is_clean disk.new) → (c : List ℕ) → D.Disk.may_leave disk.new c
        → Repairs end (D.Disk.seen disk.old) c }
    ensures longer { length (D.Disk.seen disk.old) ≤ length (D.Disk.seen disk.new) }
{
    if !looks_open(disk, len, end)? {
        return Ok(len);
    }
    if let Err(error) = mend_gate(disk, len, end) {
        return Err(Error::Disk(error));
    }
    sync(disk)?;
    Ok(len.max(end + SECTOR))
}

/// Sees that the file is on the disk and begins with the line, or begins it. Answers how long it is.
fn settle<D: Disk>(disk: &mut D, line: &[u8; SECTOR]) -> Result<usize, Error>
    requires usable { IsTrue (D.Disk.is_usable disk.old) }
    ensures line { OnOk result (IsTrue (D.Disk.is_clean disk.new)
        → take sector (D.Disk.seen disk.new) ≡ line.now) }
    ensures measured { IfOk result (λ n. IsTrue (D.Disk.is_clean disk.new) → n
        ≡ length (D.Disk.seen disk.new)) }
    ensures long { IfOk result (λ n. (sector ≤ n) × (n + sector < 2 ^ 63)) }
    ensures synced { OnOk result (Only (D.Disk.seen disk.new) (D.Disk.may_leave disk.new)) }
    ensures usable { OnOk result (IsTrue (D.Disk.is_usable disk.new)) }
    ensures same { OnOk result (IsTrue (D.Disk.is_clean disk.new)
        → stored (D.Disk.seen disk.new) ≡ stored (D.Disk.seen disk.old)) }
    ensures clean { IsTrue (D.Disk.is_clean disk.new) → IsTrue (D.Disk.is_clean disk.old) }
    ensures faults { D.Disk.faults disk.old ≤ D.Disk.faults disk.new }
    ensures cause { IfErr result (Because Never
        (Refuses D.Disk line.now disk.old disk.new)
        (IsTrue (D.Disk.is_clean disk.new)
        → 2 ^ 63 ≤ length (D.Disk.seen disk.old) + sector + sector)
        (MoreFaults (D.Disk.faults disk.old) (D.Disk.faults disk.new)) Never) }
    ensures any_crash { IsTrue (D.Disk.is_clean disk.new) → (c : List ℕ)
        → D.Disk.may_leave disk.new c
        → (d : List ℕ) × D.Disk.may_leave disk.old d × (stored c ≡ stored d) }
    ensures front { ((d : List ℕ) → D.Disk.may_leave disk.old d → take sector d ≡ line.now)
        → IsTrue (D.Disk.is_clean disk.new) → (c : List ℕ) → D.Disk.may_leave disk.new c
        → take sector c ≡ line.now }
    ensures longer { length (D.Disk.seen disk.old) ≤ length (D.Disk.seen disk.new) }
{
    sync(disk)?;
    let len = measure(disk)?;
    begin(disk, len, line)
}

/// A file that is ready for more batches.
#[derive(Clone, Copy)]
pub struct Ready {
    /// Where the shut gate stands.
    pub end: usize,
    /// How many batches stand before it.
    pub count: usize,
    /// The file has at least so many bytes.
    pub len: usize,
}

/// Runs the machine over the batches of the file, and repairs its end.
pub fn prepare<D: Disk, M: Machine>(
    disk: &mut D,
    line: &[u8; SECTOR],
    alloc: Global,
    machine: &mut M,
) -> Result<Ready, Error>
    requires usable { IsTrue (D.Disk.is_usable disk.old) }
    ensures ran { OnOk result (IsTrue (D.Disk.is_clean disk.new)
        → Runs M.steps machine.old (stored (D.Disk.seen disk.old)) machine.new) }
    ensures keeps { (first : M) → M.keeps first machine.old → M.keeps first machine.new }
    ensures rests { IfOk result (λ ready. IsTrue (D.Disk.is_clean disk.new)
        → Rests line.now (stored (D.Disk.seen disk.old)) ready.end ready.len
        (D.Disk.seen disk.new)) }
    ensures counted { IfOk result (λ ready. IsTrue (D.Disk.is_clean disk.new)
        → ready.count ≡ length (stored (D.Disk.seen disk.old))) }
    ensures begins { IfOk result (λ ready. ready.end % 4096 ≡ 0) }
    ensures few { IfOk result (λ ready. ready.count ≤ ready.end) }
    ensures long { IfOk result (λ ready. (ready.end + sector ≤ ready.len) × (ready.len < 2 ^ 63)) }
    ensures synced { OnOk result (Only (D.Disk.seen disk.new) (D.Disk.may_leave disk.new)) }
    ensures usable { OnOk result (IsTrue (D.Disk.is_usable disk.new)) }
    ensures clean { IsTrue (D.Disk.is_clean disk.new) → IsTrue (D.Disk.is_clean disk.old) }
    ensures faults { D.Disk.faults disk.old ≤ D.Disk.faults disk.new }
    ensures cause { IfErr result (Because Never
        (Refuses D.Disk line.now disk.old disk.new)
        (IsTrue (D.Disk.is_clean disk.new)
        → 2 ^ 63 ≤ length (D.Disk.seen disk.old) + sector + sector)
        (MoreFaults (D.Disk.faults disk.old) (D.Disk.faults disk.new))
        (M.has_refused machine.new)) }
    ensures any_crash { IsTrue (D.Disk.is_clean disk.new) → (c : List ℕ)
        → D.Disk.may_leave disk.new c
        → (d : List ℕ) × D.Disk.may_leave disk.old d × (stored c ≡ stored d) }
    ensures front { ((d : List ℕ) → D.Disk.may_leave disk.old d → take sector d ≡ line.now)
        → IsTrue (D.Disk.is_clean disk.new) → (c : List ℕ) → D.Disk.may_leave disk.new c
        → take sector c ≡ line.now }
    ensures longer { length (D.Disk.seen disk.old) ≤ length (D.Disk.seen disk.new) }
{
    let begun = settle(disk, line)?;
    let end = replay(disk, begun, alloc, machine)?;
    let len = repair(disk, begun, end.at)?;
    Ok(Ready {
        end: end.at,
        count: end.count,
        len,
    })
}
