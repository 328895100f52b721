//! What a damaged gate or head hides is brought back, if the gate tells that it was opened.
ghost use Rattle.std.specs.Prelude.{◌≡◌, ◌≢◌, ◌+◌, ◌%◌, ◌<◌, ◌≤◌, ◌^◌, true, false, length, drop, take, slice_index};
ghost use Rattle.std.specs.Prelude.{◌++◌, Some, IfOk, IfErr, IfSome, IfNone, OnOk, IsTrue, IsFalse, ℕ, List, ⊤};
ghost use Rattle.sqlite_disk.specs.Disk.{MoreFaults, Torn, Follows, Only};
ghost use Rattle.journal.specs.Errors.{Because, OnlyDisk, Never};
ghost use Rattle.journal.specs.Format.{Kept, staged, stored, span, whole, sector, number_in, sum_in, sum_here};
ghost use Rattle.journal.specs.Line.{line_bytes, BeginsWith};
ghost use Rattle.journal.specs.Mending.{IsMended, IsShutIn, ComesBack, CannotMend, HasHead, AreNear, copy_at, head_at};
ghost use Rattle.journal.specs.Reads.{OnlyReads, EndsAt, headed};

use crate::gate::{OPEN, open_gate};
use crate::head::{HEAD_LEN, Head, head_in, head_of};
use crate::line::{is_ours, is_same};
use crate::machine::Passing;
use crate::recovery::{measure, sync};
use crate::replay::{End, read, read_staged, replay};
use crate::sectors::{SECTOR, sector_of, whole, write_sectors};
use crate::{Error, Line};
use sqlite_disk::Disk;
use std::alloc::Global;

/// Whether the gate at `at` has a copy of what stands where the head of its batch would.
fn has_copy<D: Disk>(disk: &mut D, len: usize, at: usize) -> Result<bool, Error>
    requires usable { IsTrue (D.Disk.is_usable disk.old) }
    requires measured { IsTrue (D.Disk.is_clean disk.old) → len ≡ length (D.Disk.seen disk.old) }
    requires within { at + sector + 32 ≤ len }
    requires fits { len < 2 ^ 63 }
    ensures has { IfOk result (λ is. is ≡ true → IsTrue (D.Disk.is_clean disk.new)
        → copy_at (D.Disk.seen disk.old) at ≡ head_at (D.Disk.seen disk.old) at) }
    ensures other { IfOk result (λ is. is ≡ false → IsTrue (D.Disk.is_clean disk.new)
        → copy_at (D.Disk.seen disk.old) at ≢ head_at (D.Disk.seen disk.old) at) }
    ensures cause { IfErr result (OnlyDisk
        (MoreFaults (D.Disk.faults disk.old) (D.Disk.faults disk.new))) }
    ensures reads { OnlyReads D.Disk disk.old disk.new }
{
    let mut copy = [0; HEAD_LEN];
    read(disk, len, at + 1, &mut copy)?;
    let mut head = [0; HEAD_LEN];
    read(disk, len, at + SECTOR, &mut head)?;
    Ok(is_same(&copy, &head))
}

/// The head of the batch with this number that stands at `at`, if its gate has a copy of it: that gate was opened.
fn shut_in<D: Disk>(
    disk: &mut D,
    len: usize,
    at: usize,
    number: usize,
) -> Result<Option<Head>, Error>
    requires usable { IsTrue (D.Disk.is_usable disk.old) }
    requires measured { IsTrue (D.Disk.is_clean disk.old) → len ≡ length (D.Disk.seen disk.old) }
    requires within { at ≤ len }
    requires fits { len < 2 ^ 63 }
    ensures found { IfOk result (λ head. IfSome head (λ h. IsTrue (D.Disk.is_clean disk.new)
        → (staged number (drop at (D.Disk.seen disk.old)) ≡ Some (headed (D.Disk.seen disk.old) at h))
        × (copy_at (D.Disk.seen disk.old) at ≡ head_at (D.Disk.seen disk.old) at))) }
    ensures none { IfOk result (λ head. IfNone head (IsTrue (D.Disk.is_clean disk.new)
        → IsShutIn (D.Disk.seen disk.old) at number → Never)) }
    ensures within { IfOk result (λ head. IfSome head
        (λ h. at + sector + whole (32 + h.len) ≤ len)) }
    ensures cause { IfErr result (OnlyDisk
        (MoreFaults (D.Disk.faults disk.old) (D.Disk.faults disk.new))) }
    ensures reads { OnlyReads D.Disk disk.old disk.new }
{
    let Some(head) = read_staged(disk, len, at, number)? else {
        return Ok(None);
    };
    if !has_copy(disk, len, at)? {
        return Ok(None);
    }
    Ok(Some(head))
}

/// Whether at most one of the four numbers of these heads differs.
fn are_near(one: &[u8; HEAD_LEN], two: &[u8; HEAD_LEN]) -> bool
    ensures near { IsTrue result → AreNear one.now two.now }
    ensures far { IsFalse result → AreNear one.now two.now → Never }
{
    let number = is_same(&one[..8], &two[..8]);
    let time = is_same(&one[8..16], &two[8..16]);
    let len = is_same(&one[16..24], &two[16..24]);
    let sum = is_same(&one[24..], &two[24..]);
    number && time && (len || sum) || len && sum && (number || time)
}

/// The head that the open gate at `at` has a copy of, if it is that of this batch, the file has room for that, and no
/// more than one number differs from it of what stands in its place.
fn copied_head<D: Disk>(
    disk: &mut D,
    len: usize,
    at: usize,
    number: usize,
) -> Result<Option<[u8; HEAD_LEN]>, Error>
    requires usable { IsTrue (D.Disk.is_usable disk.old) }
    requires measured { IsTrue (D.Disk.is_clean disk.old) → len ≡ length (D.Disk.seen disk.old) }
    requires within { at ≤ len }
    requires fits { len < 2 ^ 63 }
    ensures is { IfOk result (λ copy. IfSome copy (λ it. IsTrue (D.Disk.is_clean disk.new)
        → (slice_index (D.Disk.seen disk.old) at ≡ 1)
        × (copy_at (D.Disk.seen disk.old) at ≡ it))) }
    ensures whole { IfOk result (λ copy. IfSome copy
        (λ it. (number_in it ≡ number) × (sum_in it ≡ sum_here it))) }
    ensures within { IfOk result (λ copy. IfSome copy (λ it. at + sector + span it ≤ len)) }
    ensures none { IfOk result (λ copy. IfNone copy (IsTrue (D.Disk.is_clean disk.new)
        → HasHead (D.Disk.seen disk.old) at number → Never)) }
    ensures cause { IfErr result (OnlyDisk
        (MoreFaults (D.Disk.faults disk.old) (D.Disk.faults disk.new))) }
    ensures reads { OnlyReads D.Disk disk.old disk.new }
{
    if len - at < SECTOR + SECTOR {
        return Ok(None);
    }
    let mut gate = [0];
    read(disk, len, at, &mut gate)?;
    let mut copy = [0; HEAD_LEN];
    read(disk, len, at + 1, &mut copy)?;
    if gate[0] != OPEN {
        return Ok(None);
    }
    if head_in(&copy, number, len - at - SECTOR).is_none() {
        return Ok(None);
    }
    let mut head = [0; HEAD_LEN];
    read(disk, len, at + SECTOR, &mut head)?;
    if !are_near(&copy, &head) {
        return Ok(None);
    }
    Ok(Some(copy))
}

/// Writes the head of a batch in the place of what stands there, in the sector at `at`, and syncs.
fn write_head<D: Disk>(
    disk: &mut D,
    len: usize,
    at: usize,
    head: &[u8; HEAD_LEN],
) -> Result<(), Error>
    requires usable { IsTrue (D.Disk.is_usable disk.old) }
    requires measured { IsTrue (D.Disk.is_clean disk.old) → len ≡ length (D.Disk.seen disk.old) }
    requires begins { at % 4096 ≡ 0 }
    requires within { at + sector ≤ len }
    requires fits { len < 2 ^ 63 }
    ensures written { OnOk result (take 32 (drop at (D.Disk.seen disk.new)) ≡ head.now) }
    ensures synced { OnOk result (Only (D.Disk.seen disk.new) (D.Disk.may_leave disk.new)) }
    ensures usable { OnOk result (IsTrue (D.Disk.is_usable disk.new)) }
    ensures clean { IsTrue (D.Disk.is_clean disk.new) → IsTrue (D.Disk.is_clean disk.old) }
    ensures faults { D.Disk.faults disk.old ≤ D.Disk.faults disk.new }
    ensures cause { IfErr result (OnlyDisk
        (MoreFaults (D.Disk.faults disk.old) (D.Disk.faults disk.new))) }
    ensures others { Torn at sector (D.Disk.seen disk.old) (D.Disk.seen disk.new) }
    ensures crash { Follows (Torn at sector) (D.Disk.may_leave disk.old)
        (D.Disk.may_leave disk.new) }
{
    let mut first = [0; SECTOR];
    read(disk, len, at, &mut first)?;
    if let Err(error) = write_sectors(disk, at, &sector_of(head, &first[HEAD_LEN..])) {
        return Err(Error::Disk(error));
    }
    sync(disk)?;
    Ok(())
}

/// Brings back the batch at this end, if of what leads to it only the gate is damaged, or only one number of its head.
fn mend_end<D: Disk>(disk: &mut D, len: usize, end: End) -> Result<bool, Error>
    requires usable { IsTrue (D.Disk.is_usable disk.old) }
    requires measured { IsTrue (D.Disk.is_clean disk.old) → len ≡ length (D.Disk.seen disk.old) }
    requires within { end.at ≤ len }
    requires fits { len < 2 ^ 63 }
    requires begins { end.at % 4096 ≡ 0 }
    requires few { end.count ≤ end.at }
    ensures mended { IfOk result (λ is. is ≡ true → IsTrue (D.Disk.is_clean disk.new)
        → ComesBack end.at end.count (D.Disk.seen disk.old) (D.Disk.seen disk.new)) }
    ensures left { IfOk result (λ is. is ≡ false → (D.Disk.seen disk.new ≡ D.Disk.seen disk.old)
        × (IsTrue (D.Disk.is_clean disk.new)
        → (IsShutIn (D.Disk.seen disk.old) end.at end.count → Never)
        × (HasHead (D.Disk.seen disk.old) end.at end.count → Never))) }
    ensures clean { IsTrue (D.Disk.is_clean disk.new) → IsTrue (D.Disk.is_clean disk.old) }
    ensures cause { IfErr result (OnlyDisk
        (MoreFaults (D.Disk.faults disk.old) (D.Disk.faults disk.new))) }
    ensures others { Torn end.at (sector + sector) (D.Disk.seen disk.old) (D.Disk.seen disk.new) }
    ensures crash { Follows (Torn end.at (sector + sector)) (D.Disk.may_leave disk.old)
        (D.Disk.may_leave disk.new) }
{
    if let Some(head) = shut_in(disk, len, end.at, end.count)? {
        let head = head_of(end.count, head.time, head.len);
        return match open_gate(disk, end.at, &head) {
            Ok(()) => Ok(true),
            Err(error) => Err(Error::Disk(error)),
        };
    }
    let Some(copy) = copied_head(disk, len, end.at, end.count)? else {
        return Ok(false);
    };
    write_head(disk, len, end.at + SECTOR, &copy)?;
    Ok(true)
}

/// Brings back the batch at which the file ends, if of what leads to it only the gate is damaged, or only one number of
/// its head. Whether there was one, and it is on the disk now.
pub fn mend<D: Disk>(disk: &mut D, line: &Line, alloc: Global) -> Result<bool, Error>
    requires usable { IsTrue (D.Disk.is_usable disk.old) }
    ensures mended { IfOk result (λ is. is ≡ true → IsTrue (D.Disk.is_clean disk.new)
        → IsMended (D.Disk.seen disk.old) (D.Disk.seen disk.new)) }
    ensures left { IfOk result (λ is. is ≡ false → (D.Disk.seen disk.new ≡ D.Disk.seen disk.old)
        × (IsTrue (D.Disk.is_clean disk.new) → CannotMend (D.Disk.seen disk.old))) }
    ensures clean { IsTrue (D.Disk.is_clean disk.new) → IsTrue (D.Disk.is_clean disk.old) }
    ensures any_crash { IsTrue (D.Disk.is_clean disk.new)
        → (c : List ℕ) → D.Disk.may_leave disk.new c
        → (d : List ℕ) × D.Disk.may_leave disk.old d
        × (more : List Kept) × (stored c ≡ stored d ++ more) }
    ensures front { ((d : List ℕ) → D.Disk.may_leave disk.old d → BeginsWith line.now d)
        → IsTrue (D.Disk.is_clean disk.new) → (c : List ℕ) → D.Disk.may_leave disk.new c
        → BeginsWith line.now c }
{
    sync(disk)?;
    let len = measure(disk)?;
    let stands = match is_ours(disk, len, line.bytes()) {
        Ok(stands) => stands,
        Err(error) => return Err(error),
    };
    if !stands {
        return Ok(false);
    }
    let end = replay(disk, len, alloc, &mut Passing)?;
    mend_end(disk, len, end)
}
