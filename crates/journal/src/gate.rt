//! The two halves of a commit: what is new is on the disk behind a shut gate, and then the gate is opened.
ghost use Rattle.std.specs.Prelude.{◌≡◌, ◌+◌, ◌%◌, ◌<◌, ◌≤◌, ◌^◌};
ghost use Rattle.std.specs.Prelude.{ℕ, List, length, take, drop, slice_index, IfOk, OnOk, IsTrue};
ghost use Rattle.sqlite_disk.specs.Disk.{Torn, Follows, Only, CountsFault};
ghost use Rattle.journal.specs.Format.{Kept, Rests, records, whole, sector, head};
ghost use Rattle.journal.specs.Gate.{IsStaged};
ghost use Rattle.journal.specs.Mending.{copy_at, head_at};
ghost use Rattle.journal.specs.Ending.{left_gate};

use crate::head::{HEAD_LEN, head_of};
use crate::sectors::{SECTOR, sector_of, whole, write_batch, write_sectors};
use sqlite_disk::Disk;
use std::io;

/// A gate is open if its sector begins with this byte.
pub const OPEN: u8 = 1;

/// A gate that was never opened.
pub static SHUT_GATE: [u8; SECTOR] = [0; SECTOR];

/// A gate that stood open without its batch, once it is shut. It is shut as any other, and goes on to tell of the
/// batches that are lost. All of its sector says so: the sector of a gate that was being opened may begin with any byte
/// after a crash.
pub static LEFT_GATE: [u8; SECTOR] = [2; SECTOR];

const STEP: usize = 0x1_0000;

static ZEROS: [u8; STEP] = [0; STEP];

/// Writes a shut gate, in a sector of its own.
pub fn shut_gate<D: Disk>(disk: &mut D, gate: usize) -> io::Result<()>
    requires usable { IsTrue (D.Disk.is_usable disk.old) }
    requires begins { gate % 4096 ≡ 0 }
    ensures there { OnOk result (gate + sector ≤ length (D.Disk.seen disk.new)) }
    ensures shut { OnOk result (slice_index (D.Disk.seen disk.new) gate ≡ 0) }
    ensures usable { IsTrue (D.Disk.is_usable disk.new) }
    ensures clean { IsTrue (D.Disk.is_clean disk.new) → IsTrue (D.Disk.is_clean disk.old) }
    ensures faults { CountsFault result (D.Disk.faults disk.old) (D.Disk.faults disk.new) }
    ensures others { Torn gate sector (D.Disk.seen disk.old) (D.Disk.seen disk.new) }
    ensures crash { Follows (Torn gate sector) (D.Disk.may_leave disk.old)
        (D.Disk.may_leave disk.new) }
{
    write_sectors(disk, gate, &SHUT_GATE)
}

/// Shuts a gate that stood open without its batch, or isn't there behind batches.
pub fn leave_gate<D: Disk>(disk: &mut D, gate: usize) -> io::Result<()>
    requires usable { IsTrue (D.Disk.is_usable disk.old) }
    requires begins { gate % 4096 ≡ 0 }
    ensures there { OnOk result (gate + sector ≤ length (D.Disk.seen disk.new)) }
    ensures shut { OnOk result (slice_index (D.Disk.seen disk.new) gate ≡ 2) }
    ensures left { OnOk result (take sector (drop gate (D.Disk.seen disk.new)) ≡ left_gate) }
    ensures usable { IsTrue (D.Disk.is_usable disk.new) }
    ensures clean { IsTrue (D.Disk.is_clean disk.new) → IsTrue (D.Disk.is_clean disk.old) }
    ensures faults { CountsFault result (D.Disk.faults disk.old) (D.Disk.faults disk.new) }
    ensures others { Torn gate sector (D.Disk.seen disk.old) (D.Disk.seen disk.new) }
    ensures crash { Follows (Torn gate sector) (D.Disk.may_leave disk.old)
        (D.Disk.may_leave disk.new) }
{
    write_sectors(disk, gate, &LEFT_GATE)
}

/// Writes a batch behind the sector of a shut gate, and a shut gate behind the batch, and syncs.
pub fn stage<D: Disk>(
    disk: &mut D,
    gate: usize,
    number: usize,
    time: u64,
    bytes: &[u8],
) -> io::Result<()>
    requires usable { IsTrue (D.Disk.is_usable disk.old) }
    requires begins { gate % 4096 ≡ 0 }
    requires fits { gate + sector + whole (32 + length bytes.now) + sector < 2 ^ 63 }
    ensures staged { OnOk result (IsStaged gate (gate + sector + whole (32 + length bytes.now))
        number
        (time, records bytes.now) (D.Disk.seen disk.new)) }
    ensures headed { OnOk result (head_at (D.Disk.seen disk.new) gate ≡ head number time (length bytes.now)) }
    ensures synced { OnOk result (Only (D.Disk.seen disk.new) (D.Disk.may_leave disk.new)) }
    ensures usable { OnOk result (IsTrue (D.Disk.is_usable disk.new)) }
    ensures clean { IsTrue (D.Disk.is_clean disk.new) → IsTrue (D.Disk.is_clean disk.old) }
    ensures faults { CountsFault result (D.Disk.faults disk.old) (D.Disk.faults disk.new) }

    // What a crash leaves stands for what it stood for.
    ensures kept { (line : List ℕ) (all : List Kept) (len : ℕ)
        → ((c : List ℕ) → D.Disk.may_leave disk.old c → Rests line all gate len c)
        → (c : List ℕ) → D.Disk.may_leave disk.new c → Rests line all gate len c }

    // It stays within its own sectors.
    ensures within { length (D.Disk.seen disk.old) ≤ length (D.Disk.seen disk.new)
        × (gate + sector + whole (32 + length bytes.now) + sector ≤ length (D.Disk.seen disk.old)
        → length (D.Disk.seen disk.new) ≡ length (D.Disk.seen disk.old)) }
{
    let at = gate + SECTOR;
    write_batch(disk, at, &head_of(number, time, bytes.len()), bytes)?;
    shut_gate(disk, at + whole(HEAD_LEN + bytes.len()))?;
    disk.sync()
}

/// Opens a gate, and syncs. Behind its first byte it has a copy of the head of its batch, by which that is found again
/// if it is damaged.
pub fn open_gate<D: Disk>(disk: &mut D, gate: usize, head: &[u8; HEAD_LEN]) -> io::Result<()>
    requires usable { IsTrue (D.Disk.is_usable disk.old) }
    requires begins { gate % 4096 ≡ 0 }
    ensures open { OnOk result (slice_index (D.Disk.seen disk.new) gate ≡ 1) }
    ensures copied { OnOk result (copy_at (D.Disk.seen disk.new) gate ≡ head.now) }
    ensures others { Torn gate sector (D.Disk.seen disk.old) (D.Disk.seen disk.new) }
    ensures synced { OnOk result (Only (D.Disk.seen disk.new) (D.Disk.may_leave disk.new)) }
    ensures usable { OnOk result (IsTrue (D.Disk.is_usable disk.new)) }
    ensures clean { IsTrue (D.Disk.is_clean disk.new) → IsTrue (D.Disk.is_clean disk.old) }
    ensures faults { CountsFault result (D.Disk.faults disk.old) (D.Disk.faults disk.new) }
    ensures crash { Follows (Torn gate sector) (D.Disk.may_leave disk.old)
        (D.Disk.may_leave disk.new) }
{
    write_sectors(disk, gate, &sector_of(&[OPEN], head))?;
    disk.sync()
}

/// Writes zeros from `from` up to `end` or a little further, and syncs. Answers how far.
pub fn blank<D: Disk>(disk: &mut D, gate: usize, from: usize, end: usize) -> io::Result<usize>
    requires usable { IsTrue (D.Disk.is_usable disk.old) }
    requires begins { from % 4096 ≡ 0 }
    requires behind { gate < from }
    requires some { from < end }
    requires fits { end < 2 ^ 63 }
    ensures far { IfOk result (λ far. end ≤ far) }
    ensures small { IfOk result (λ far. far < end + 65536) }
    ensures written { IfOk result (λ far. (c : List ℕ) → D.Disk.may_leave disk.new c
        → far ≤ length c) }
    ensures usable { OnOk result (IsTrue (D.Disk.is_usable disk.new)) }
    ensures clean { IsTrue (D.Disk.is_clean disk.new) → IsTrue (D.Disk.is_clean disk.old) }
    ensures faults { CountsFault result (D.Disk.faults disk.old) (D.Disk.faults disk.new) }
    ensures kept { (line : List ℕ) (all : List Kept) (len : ℕ)
        → ((c : List ℕ) → D.Disk.may_leave disk.old c → Rests line all gate len c)
        → (c : List ℕ) → D.Disk.may_leave disk.new c → Rests line all gate len c }
{
    let mut far = from;
    while far < end {
        write_sectors(disk, far, &ZEROS)?;
        far += STEP;
    }
    disk.sync()?;
    Ok(far)
}
