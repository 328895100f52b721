//! The records of a journal, counted as they stand.
ghost use Rattle.std.specs.Prelude.{◌≡◌, ◌≢◌, ◌+◌, ◌≤◌, ◌^◌, false, length, take, IfOk, IfErr, IsTrue};
ghost use Rattle.sqlite_disk.specs.Disk.{MoreFaults};
ghost use Rattle.journal.specs.Ending.{Looks};
ghost use Rattle.journal.specs.Errors.{Because};
ghost use Rattle.journal.specs.Format.{has_mark, sector};
ghost use Rattle.journal.specs.Journal.{disk_of, line_of, kept};
ghost use Rattle.journal.specs.Line.{line_bytes};
ghost use Rattle.journal.specs.Reads.{OnlyReads};
ghost use Rattle.upload_records.specs.Census.{census_of};
ghost use Rattle.upload_records.specs.Counted.{Counted, tables_of};

use crate::census::Census;
use journal::{Error, Journal, Looked, Machine};
use sqlite_disk::Disk;
use std::alloc::Global;
use std::io::{self, ErrorKind};
use upload_journal::{ReadError, read_entry};
use upload_service::Limits;

impl Machine for Census {
    ghost steps = { λ old time text new. Counted old text new };

    // Only a want of memory refuses a record.
    ghost has_refused = { λ _. Unit {0} };

    fn apply(&mut self, _time: u64, bytes: &[u8]) -> io::Result<()> {
        match read_entry(self.alloc, bytes) {
            Ok(entry) => match self.see(&entry) {
                Ok(()) => Ok(()),
                Err(_) => Err(ErrorKind::OutOfMemory.into()),
            },
            Err(ReadError::Fault(_)) => {
                self.unread = self.unread.saturating_add(1);
                Ok(())
            }
            Err(ReadError::NoMemory) => Err(ErrorKind::OutOfMemory.into()),
        }
    }
}

/// What the records of a journal come to, as they stand, and how they end (`Journal::look`). Nothing is written, and no
/// body is read.
#[tactic(auto, using(crate::proofs::Runs::census_is))]
pub fn take_census<D: Disk>(
    alloc: Global,
    journal: &mut Journal<D>,
    limits: Limits,
) -> Result<(Census, Looked), Error>
    ensures counted { IfOk result (λ it. IsTrue (D.Disk.is_clean (disk_of journal.new))
        → tables_of it.0 ≡ census_of limits (kept journal.old)) }
    ensures ends { IfOk result (λ it. IsTrue (D.Disk.is_clean (disk_of journal.new))
        → Looks it.1.ending (D.Disk.seen (disk_of journal.old))) }
    ensures marked { IfOk result (λ it. IsTrue (D.Disk.is_clean (disk_of journal.new))
        → it.1.has_mark ≡ has_mark (kept journal.old)) }
    ensures reads { IsTrue (D.Disk.is_usable (disk_of journal.old))
        → OnlyReads D.Disk (disk_of journal.old) (disk_of journal.new) }
    // Why it gives up: as `Journal::look`; of the records only a want of memory ends it.
    ensures cause { IfErr result (Because (D.Disk.is_usable (disk_of journal.old) ≡ false)
        (IsTrue (D.Disk.is_clean (disk_of journal.new))
        → take sector (D.Disk.seen (disk_of journal.old)) ≢ line_bytes (line_of journal.old))
        (IsTrue (D.Disk.is_clean (disk_of journal.new))
        → 2 ^ 63 ≤ length (D.Disk.seen (disk_of journal.old)) + sector + sector)
        (MoreFaults (D.Disk.faults (disk_of journal.old)) (D.Disk.faults (disk_of journal.new)))
        (Unit {0})) }
{
    let mut census = Census::new(alloc, limits);
    match journal.look(alloc, &mut census) {
        Ok(looked) => Ok((census, looked)),
        Err(error) => Err(error),
    }
}
