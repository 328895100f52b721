//! How the batches of a file end: as a crash may have left them, or broken.
ghost use Rattle.std.specs.Prelude.{◌≡◌, ◌+◌, ◌<◌, ◌≤◌, ◌^◌, true, false, length, drop, Some, None};
ghost use Rattle.std.specs.Prelude.{IfOk, IfErr, IsTrue, ℕ, List};
ghost use Rattle.sqlite_disk.specs.Disk.{MoreFaults};
ghost use Rattle.journal.specs.Format.{Kept, next, sector};
ghost use Rattle.journal.specs.Errors.{OnlyDisk};
ghost use Rattle.journal.specs.Reads.{OnlyReads};
ghost use Rattle.journal.specs.Ending.{EndsAs, IsLater, HasLater, HasNoLater};

use crate::Error;
use crate::gate::{LEFT_GATE, OPEN, SHUT_GATE};
use crate::head::number_in;
use crate::line::is_same;
use crate::replay::{read, read_head};
use crate::sectors::SECTOR;
use sqlite_disk::Disk;

/// How the batches of a file end.
#[derive(Clone, Copy, Debug, PartialEq, Eq)]
pub enum Ending {
    /// At a gate that was never opened, and no later batch counts.
    Sound,
    /// As a crash may leave them, and damage too: the file was only begun, or the gate was being opened.
    Doubtful,
    /// As no crash leaves them: batches are lost. The gate is open and its batch isn't there; no gate is there; or a
    /// later batch counts. A copy that was made while batches were added may end so too.
    Broken,
}

/// Whether a gate stands open at `at`, and behind it a batch whose number is above `count` and not above `most`.
fn is_later<D: Disk>(
    disk: &mut D,
    len: usize,
    at: usize,
    count: usize,
    most: usize,
) -> Result<bool, Error>
    requires usable { IsTrue (D.Disk.is_usable disk.old) }
    requires measured { IsTrue (D.Disk.is_clean disk.old) → len ≡ length (D.Disk.seen disk.old) }
    requires within { at ≤ len }
    requires fits { len < 2 ^ 63 }
    ensures later { IfOk result (λ is. is ≡ true → IsTrue (D.Disk.is_clean disk.new)
        → (number : ℕ) × (count < number) × (number ≤ most) × (found : Kept × List ℕ)
        × (next number (drop at (D.Disk.seen disk.old)) ≡ Some found)) }
    ensures none { IfOk result (λ is. is ≡ false → IsTrue (D.Disk.is_clean disk.new)
        → (number : ℕ) → count < number → number ≤ most
        → next number (drop at (D.Disk.seen disk.old)) ≡ None) }
    ensures cause { IfErr result (OnlyDisk
        (MoreFaults (D.Disk.faults disk.old) (D.Disk.faults disk.new))) }
    ensures reads { OnlyReads D.Disk disk.old disk.new }
{
    if len - at < SECTOR + SECTOR {
        return Ok(false);
    }
    let mut gate = [0];
    read(disk, len, at, &mut gate)?;
    if gate[0] != OPEN {
        return Ok(false);
    }
    let mut bytes = [0; 8];
    read(disk, len, at + SECTOR, &mut bytes)?;
    let number = number_in(&bytes) as usize;
    if number <= count || number > most {
        return Ok(false);
    }
    let head = read_head(disk, len, at, number)?;
    Ok(head.is_some())
}

/// Whether a later batch than the next counts behind the end of so many batches.
fn has_later<D: Disk>(disk: &mut D, len: usize, end: usize, count: usize) -> Result<bool, Error>
    requires usable { IsTrue (D.Disk.is_usable disk.old) }
    requires measured { IsTrue (D.Disk.is_clean disk.old) → len ≡ length (D.Disk.seen disk.old) }
    requires within { end ≤ len }
    requires fits { len < 2 ^ 63 }
    requires few { count ≤ end }
    ensures later { IfOk result (λ has. has ≡ true → IsTrue (D.Disk.is_clean disk.new)
        → HasLater (D.Disk.seen disk.old) end count) }
    ensures none { IfOk result (λ has. has ≡ false → IsTrue (D.Disk.is_clean disk.new)
        → HasNoLater (D.Disk.seen disk.old) end count) }
    ensures cause { IfErr result (OnlyDisk
        (MoreFaults (D.Disk.faults disk.old) (D.Disk.faults disk.new))) }
    ensures reads { OnlyReads D.Disk disk.old disk.new }
{
    let mut sectors = 0;
    while end + sectors * SECTOR < len {
        if is_later(disk, len, end + sectors * SECTOR, count, count + sectors)? {
            return Ok(true);
        }
        sectors += 1;
    }
    Ok(false)
}

/// How the batches of a file end, of which there are so many. Nothing is written.
pub fn see_end<D: Disk>(disk: &mut D, len: usize, end: usize, count: usize) -> Result<Ending, Error>
    requires usable { IsTrue (D.Disk.is_usable disk.old) }
    requires measured { IsTrue (D.Disk.is_clean disk.old) → len ≡ length (D.Disk.seen disk.old) }
    requires within { end ≤ len }
    requires fits { len < 2 ^ 63 }
    requires few { count ≤ end }
    ensures so { IfOk result (λ it. IsTrue (D.Disk.is_clean disk.new)
        → EndsAs it (D.Disk.seen disk.old) end count) }
    ensures cause { IfErr result (OnlyDisk
        (MoreFaults (D.Disk.faults disk.old) (D.Disk.faults disk.new))) }
    ensures reads { OnlyReads D.Disk disk.old disk.new }
{
    if len - end < SECTOR {
        return Ok(if count == 0 {
            Ending::Doubtful
        } else {
            Ending::Broken
        });
    }
    let mut gate = [0; SECTOR];
    read(disk, len, end, &mut gate)?;
    if gate[0] == OPEN || is_same(&gate, &LEFT_GATE) {
        return Ok(Ending::Broken);
    }
    if has_later(disk, len, end, count)? {
        return Ok(Ending::Broken);
    }
    if is_same(&gate, &SHUT_GATE) {
        return Ok(Ending::Sound);
    }
    Ok(Ending::Doubtful)
}
