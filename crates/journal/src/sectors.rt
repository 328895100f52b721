//! Writes of whole sectors. No write shares a sector with bytes that stay, so none can spoil them.
ghost use Rattle.std.specs.Prelude.{◌≡◌, ◌+◌, ◌-◌, ◌%◌, ◌<◌, ◌≤◌, ◌^◌};
ghost use Rattle.std.specs.Prelude.{◌++◌, ℕ, List, length, take, OnOk, IsTrue};
ghost use Rattle.sqlite_disk.specs.Disk.{Holds, Torn, Follows, CountsFault};
ghost use Rattle.journal.specs.Format.{whole};

use crate::head::HEAD_LEN;
use sqlite_disk::Disk;
use std::io;

pub const SECTOR: usize = 4096;

/// The least number of whole sectors that have room for so many bytes, in bytes.
pub fn whole(len: usize) -> usize
    requires { len < 2 ^ 64 - 4096 }
    ensures { result ≡ whole len }
{
    (len + (SECTOR - 1)) / SECTOR * SECTOR
}

/// Writes whole sectors, from a place where one begins. It writes nothing if there are none.
pub fn write_sectors<D: Disk>(disk: &mut D, at: usize, sectors: &[u8]) -> io::Result<()>
    requires usable { IsTrue (D.Disk.is_usable disk.old) }
    requires begins { at % 4096 ≡ 0 }
    requires whole { length sectors.now % 4096 ≡ 0 }
    ensures written { OnOk result (0 < length sectors.now
        → Holds (D.Disk.seen disk.new) at sectors.now) }
    ensures usable { IsTrue (D.Disk.is_usable disk.new) }
    ensures clean { IsTrue (D.Disk.is_clean disk.new) → IsTrue (D.Disk.is_clean disk.old) }
    ensures faults { CountsFault result (D.Disk.faults disk.old) (D.Disk.faults disk.new) }
    ensures others { Torn at (length sectors.now) (D.Disk.seen disk.old) (D.Disk.seen disk.new) }
    ensures crash { Follows (Torn at (length sectors.now)) (D.Disk.may_leave disk.old)
        (D.Disk.may_leave disk.new) }
{
    if sectors.is_empty() {
        return Ok(());
    }
    disk.write_at(at, sectors)
}

/// A sector that begins with these bytes, and has zeros behind them.
pub fn sector_of(first: &[u8], second: &[u8]) -> [u8; SECTOR]
    requires { length first.now + length second.now ≤ 4096 }
    ensures { take (length first.now + length second.now) result ≡ first.now ++ second.now }
{
    let mut sector = [0; SECTOR];
    let middle = first.len();
    sector[..middle].copy_from_slice(first);
    sector[middle..middle + second.len()].copy_from_slice(second);
    sector
}

/// Writes less than a sector, and zeros behind it. It writes nothing if there are no bytes.
fn write_last<D: Disk>(disk: &mut D, at: usize, bytes: &[u8]) -> io::Result<()>
    requires usable { IsTrue (D.Disk.is_usable disk.old) }
    requires begins { at % 4096 ≡ 0 }
    requires less { length bytes.now < 4096 }
    ensures written { OnOk result (0 < length bytes.now
        → Holds (D.Disk.seen disk.new) at bytes.now) }
    ensures usable { IsTrue (D.Disk.is_usable disk.new) }
    ensures clean { IsTrue (D.Disk.is_clean disk.new) → IsTrue (D.Disk.is_clean disk.old) }
    ensures faults { CountsFault result (D.Disk.faults disk.old) (D.Disk.faults disk.new) }
    ensures others { Torn at (whole (length bytes.now)) (D.Disk.seen disk.old)
        (D.Disk.seen disk.new) }
    ensures crash { Follows (Torn at (whole (length bytes.now))) (D.Disk.may_leave disk.old)
        (D.Disk.may_leave disk.new) }
{
    if bytes.is_empty() {
        return Ok(());
    }
    write_sectors(disk, at, &sector_of(&[], bytes))
}

/// Writes bytes, and zeros behind them up to the end of their last sector.
fn write_padded<D: Disk>(disk: &mut D, at: usize, bytes: &[u8]) -> io::Result<()>
    requires usable { IsTrue (D.Disk.is_usable disk.old) }
    requires begins { at % 4096 ≡ 0 }
    requires fits { at + whole (length bytes.now) < 2 ^ 64 }
    ensures written { OnOk result (0 < length bytes.now
        → Holds (D.Disk.seen disk.new) at bytes.now) }
    ensures usable { IsTrue (D.Disk.is_usable disk.new) }
    ensures clean { IsTrue (D.Disk.is_clean disk.new) → IsTrue (D.Disk.is_clean disk.old) }
    ensures faults { CountsFault result (D.Disk.faults disk.old) (D.Disk.faults disk.new) }
    ensures others { Torn at (whole (length bytes.now)) (D.Disk.seen disk.old)
        (D.Disk.seen disk.new) }
    ensures crash { Follows (Torn at (whole (length bytes.now))) (D.Disk.may_leave disk.old)
        (D.Disk.may_leave disk.new) }
{
    let (middle, last) = bytes.split_at(bytes.len() / SECTOR * SECTOR);
    write_sectors(disk, at, middle)?;
    write_last(disk, at + middle.len(), last)
}

/// Writes the head and the records of a batch, in whole sectors of their own.
pub fn write_batch<D: Disk>(
    disk: &mut D,
    at: usize,
    head: &[u8; HEAD_LEN],
    bytes: &[u8],
) -> io::Result<()>
    requires usable { IsTrue (D.Disk.is_usable disk.old) }
    requires begins { at % 4096 ≡ 0 }
    requires fits { at + whole (32 + length bytes.now) < 2 ^ 64 }
    ensures written { OnOk result (Holds (D.Disk.seen disk.new) at (head.now ++ bytes.now)) }
    ensures usable { IsTrue (D.Disk.is_usable disk.new) }
    ensures clean { IsTrue (D.Disk.is_clean disk.new) → IsTrue (D.Disk.is_clean disk.old) }
    ensures faults { CountsFault result (D.Disk.faults disk.old) (D.Disk.faults disk.new) }
    ensures others { Torn at (whole (32 + length bytes.now)) (D.Disk.seen disk.old)
        (D.Disk.seen disk.new) }
    ensures crash { Follows (Torn at (whole (32 + length bytes.now))) (D.Disk.may_leave disk.old)
        (D.Disk.may_leave disk.new) }
{
    let (front, rest) = bytes.split_at(bytes.len().min(SECTOR - head.len()));
    write_sectors(disk, at, &sector_of(head, front))?;
    write_padded(disk, at + SECTOR, rest)
}
