//! The first line of a file: its first sector, which says what the file is.
ghost use Rattle.std.specs.Prelude.{◌≡◌, ◌≢◌, ◌⊎◌, ◌+◌, ◌<◌, ◌≤◌, ◌^◌, ℕ, List, true, false};
ghost use Rattle.std.specs.Prelude.{length, take, IfSome, IsNone, ◌↔◌};
ghost use Rattle.std.specs.Prelude.{IfOk, IfErr, OnOk, IsTrue, IsFalse, ⊤};
ghost use Rattle.sqlite_disk.specs.Disk.{Torn, Follows, Only, MoreFaults};
ghost use Rattle.journal.specs.Format.{stored, sector};
ghost use Rattle.journal.specs.Errors.{Because, OnlyDisk, Never};
ghost use Rattle.journal.specs.Reads.{OnlyReads, Refuses};

use crate::Error;
use crate::head::{HEAD_LEN, head_of};
use crate::recovery::sync;
use crate::replay::read;
use crate::sectors::{SECTOR, sector_of, write_sectors};
use sqlite_disk::Disk;

/// "journal\n", as a number.
const NAME: usize = 0x6a6f_7572_6e61_6c0a;

const VERSION: u64 = 2;

/// What a file begins with: the name and the version of its format, and the parameters of the one who began it.
#[derive(Drop)]
pub struct Line {
    bytes: [u8; SECTOR],
}

impl Line {
    ghost use Rattle.journal.specs.Line.{line_text, line_bytes};

    /// The line of these parameters, which are the caller's and mean nothing here. `None` says that they have more
    /// than 4,064 bytes.
    pub fn new(parameters: &[u8]) -> Option<Line>
        ensures text { IfSome result (λ line.
            take (32 + length parameters.now) (line_bytes line) ≡ line_text parameters.now) }
        ensures none { IsNone result ↔ (4064 < length parameters.now) }
    {
        if parameters.len() > SECTOR - HEAD_LEN {
            return None;
        }
        Some(Line {
            bytes: sector_of(&head_of(NAME, VERSION, parameters.len()), parameters),
        })
    }

    pub(crate) fn bytes(&self) -> &[u8; SECTOR]
        ensures { result.now ≡ line_bytes self.now }
    {
        &self.bytes
    }
}

pub fn is_same(one: &[u8], two: &[u8]) -> bool
    ensures same { IsTrue result → one.now ≡ two.now }
    ensures other { IsFalse result → one.now ≢ two.now }
{
    one == two
}

/// The first sector of a file. Zeros stand for what the file doesn't have.
fn read_line<D: Disk>(disk: &mut D, len: usize) -> Result<[u8; SECTOR], Error>
    requires usable { IsTrue (D.Disk.is_usable disk.old) }
    requires measured { IsTrue (D.Disk.is_clean disk.old) → len ≡ length (D.Disk.seen disk.old) }
    ensures read { IfOk result (λ found. IsTrue (D.Disk.is_clean disk.new) → sector ≤ len
        → take sector (D.Disk.seen disk.old) ≡ found) }
    ensures cause { IfErr result (OnlyDisk
        (MoreFaults (D.Disk.faults disk.old) (D.Disk.faults disk.new))) }
    ensures reads { OnlyReads D.Disk disk.old disk.new }
{
    if len < SECTOR {
        return read_short(disk, len);
    }
    let mut found = [0; SECTOR];
    read(disk, len, 0, &mut found)?;
    Ok(found)
}

fn read_short<D: Disk>(disk: &mut D, len: usize) -> Result<[u8; SECTOR], Error>
    requires usable { IsTrue (D.Disk.is_usable disk.old) }
    requires measured { IsTrue (D.Disk.is_clean disk.old) → len ≡ length (D.Disk.seen disk.old) }
    requires short { len < sector }
    ensures cause { IfErr result (OnlyDisk
        (MoreFaults (D.Disk.faults disk.old) (D.Disk.faults disk.new))) }
    ensures reads { OnlyReads D.Disk disk.old disk.new }
{
    let mut found = [0; SECTOR];
    read(disk, len, 0, &mut found[..len])?;
    Ok(found)
}

/// Each byte is that of the line, or is zero: a start of this journal that was cut off.
fn is_begun(found: &[u8], line: &[u8]) -> bool {
    found
        .iter()
        .zip(line.iter())
        .all(|(there, wanted)| *there == 0 || there == wanted)
}

/// Why a file that begins so isn't this journal.
fn refusal(found: &[u8; SECTOR], line: &[u8; SECTOR]) -> Error
    ensures { Because Never ⊤ Never Never Never result }
{
    if found[..8] != line[..8] {
        Error::NotAJournal
    } else if found[8..16] != line[8..16] {
        Error::OtherVersion
    } else {
        Error::OtherParameters
    }
}

/// The file begins with this line. If not, it is a start of this journal that was cut off, or nothing at all.
pub fn is_ours<D: Disk>(disk: &mut D, len: usize, line: &[u8; SECTOR]) -> Result<bool, Error>
    requires usable { IsTrue (D.Disk.is_usable disk.old) }
    requires measured { IsTrue (D.Disk.is_clean disk.old) → len ≡ length (D.Disk.seen disk.old) }
    ensures there { IfOk result (λ is. is ≡ true → IsTrue (D.Disk.is_clean disk.new)
        → take sector (D.Disk.seen disk.old) ≡ line.now) }
    ensures long { IfOk result (λ is. is ≡ true → sector ≤ len) }
    ensures other { IfOk result (λ is. is ≡ false → IsTrue (D.Disk.is_clean disk.new)
        → take sector (D.Disk.seen disk.old) ≢ line.now) }
    ensures small { IfOk result (λ is. is ≡ false → len ≤ sector + sector) }
    ensures cause { IfErr result (Because Never
        (IsTrue (D.Disk.is_clean disk.new) → take sector (D.Disk.seen disk.old) ≢ line.now)
        Never (MoreFaults (D.Disk.faults disk.old) (D.Disk.faults disk.new)) Never) }
    ensures reads { OnlyReads D.Disk disk.old disk.new }
{
    let found = read_line(disk, len)?;
    if is_same(&found, line) {
        return Ok(len >= SECTOR);
    }
    if len > SECTOR + SECTOR {
        return Err(refusal(&found, line));
    }
    if is_begun(&found, line) {
        return Ok(false);
    }
    Err(refusal(&found, line))
}

/// Sees that the file begins with this line, and writes it into a file that is new. Answers how long the file is then.
pub fn begin<D: Disk>(disk: &mut D, len: usize, line: &[u8; SECTOR]) -> Result<usize, Error>
    requires usable { IsTrue (D.Disk.is_usable disk.old) }
    requires measured { IsTrue (D.Disk.is_clean disk.old) → len ≡ length (D.Disk.seen disk.old) }
    requires synced { Only (D.Disk.seen disk.old) (D.Disk.may_leave disk.old) }
    ensures line { OnOk result (IsTrue (D.Disk.is_clean disk.new)
        → take sector (D.Disk.seen disk.new) ≡ line.now) }
    ensures measured { IfOk result (λ n. IsTrue (D.Disk.is_clean disk.new) → n
        ≡ length (D.Disk.seen disk.new)) }
    ensures long { IfOk result (λ n. (sector ≤ n) × (n ≤ sector + len)) }
    ensures synced { OnOk result (Only (D.Disk.seen disk.new) (D.Disk.may_leave disk.new)) }
    ensures usable { OnOk result (IsTrue (D.Disk.is_usable disk.new)) }
    ensures clean { IsTrue (D.Disk.is_clean disk.new) → IsTrue (D.Disk.is_clean disk.old) }
    ensures faults { D.Disk.faults disk.old ≤ D.Disk.faults disk.new }
    ensures cause { IfErr result (Because Never (Refuses D.Disk line.now disk.old disk.new) Never
        (MoreFaults (D.Disk.faults disk.old) (D.Disk.faults disk.new)) Never) }
    ensures crash { IsTrue (D.Disk.is_clean disk.new) → (c : List ℕ) → D.Disk.may_leave disk.new c
        → stored c ≡ stored (D.Disk.seen disk.old) }
    ensures front { take sector (D.Disk.seen disk.old) ≡ line.now
        → IsTrue (D.Disk.is_clean disk.new) → (c : List ℕ) → D.Disk.may_leave disk.new c
        → take sector c ≡ line.now }
    ensures longer { length (D.Disk.seen disk.old) ≤ length (D.Disk.seen disk.new) }
{
    let stands = match is_ours(disk, len, line) {
        Ok(stands) => stands,
        Err(error) => return Err(error),
    };
    if stands {
        return Ok(len);
    }
    write_line(disk, line)?;
    Ok(len.max(SECTOR))
}

fn write_line<D: Disk>(disk: &mut D, line: &[u8; SECTOR]) -> Result<(), Error>
    requires usable { IsTrue (D.Disk.is_usable disk.old) }
    ensures line { OnOk result (take sector (D.Disk.seen disk.new) ≡ line.now) }
    ensures within { length (D.Disk.seen disk.old) ≤ length (D.Disk.seen disk.new) }
    ensures others { Torn 0 sector (D.Disk.seen disk.old) (D.Disk.seen disk.new) }
    ensures crash { Follows (Torn 0 sector) (D.Disk.may_leave disk.old)
        (D.Disk.may_leave disk.new) }
    ensures synced { OnOk result (Only (D.Disk.seen disk.new) (D.Disk.may_leave disk.new)) }
    ensures usable { OnOk result (IsTrue (D.Disk.is_usable disk.new)) }
    ensures clean { IsTrue (D.Disk.is_clean disk.new) → IsTrue (D.Disk.is_clean disk.old) }
    ensures faults { D.Disk.faults disk.old ≤ D.Disk.faults disk.new }
    ensures cause { IfErr result (OnlyDisk
        (MoreFaults (D.Disk.faults disk.old) (D.Disk.faults disk.new))) }
{
    if let Err(error) = write_sectors(disk, 0, line) {
        return Err(Error::Disk(error));
    }
    sync(disk)
}
