//! The file of a journal is read as it stands, and nothing is written.
ghost use Rattle.std.specs.Prelude.{◌≡◌, ◌≢◌, ◌⊎◌, ◌+◌, ◌≤◌, ◌^◌, true, false, length, take};
ghost use Rattle.std.specs.Prelude.{IfOk, IfErr, OnOk, IsTrue, IsFalse};
ghost use Rattle.sqlite_disk.specs.Disk.{MoreFaults};
ghost use Rattle.journal.specs.Machine.{Runs};
ghost use Rattle.journal.specs.Errors.{Because};
ghost use Rattle.journal.specs.Format.{stored, has_mark, sector};
ghost use Rattle.journal.specs.Line.{line_bytes};
ghost use Rattle.journal.specs.Ending.{Looks};
ghost use Rattle.journal.specs.declared.ending.Ending.TheVariants.{Sound};
ghost use Rattle.journal.specs.Reads.{OnlyReads};

use crate::ending::see_end;
use crate::line::is_ours;
use crate::recovery::measure;
use crate::replay::replay;
use crate::{Ending, Error, Line, Machine};
use sqlite_disk::Disk;
use std::alloc::Global;

/// What a look at the batches of a file has come to.
#[derive(Clone, Copy, Debug, PartialEq, Eq)]
pub struct Looked {
    pub ending: Ending,
    /// One of the batches has no record, so that others are lost before it (`Journal::go_on`).
    pub has_mark: bool,
}

impl Looked {
    /// Whether the file has all that was added to it, as far as it tells.
    pub fn is_sure(&self) -> bool
        ensures sure { IsTrue result → (self.now.ending ≡ Sound) × (self.now.has_mark ≡ false) }
        ensures other { IsFalse result → (self.now.ending ≢ Sound) ⊎ (self.now.has_mark ≡ true) }
    {
        match self.ending {
            Ending::Sound => !self.has_mark,
            Ending::Doubtful | Ending::Broken => false,
        }
    }
}

/// Runs a machine over the batches of a file that begins with this line, as it stands. Nothing is written, so the file
/// may be another one's: what is added to it meanwhile is read as far as its gates are open. A file that was only begun
/// has no batch.
///
pub fn look<D: Disk, M: Machine>(
    disk: &mut D,
    line: &Line,
    alloc: Global,
    machine: &mut M,
) -> Result<Looked, Error>
    ensures ran { OnOk result (IsTrue (D.Disk.is_clean disk.new)
        → Runs M.steps machine.old (stored (D.Disk.seen disk.old)) machine.new) }
    ensures ends { IfOk result (λ it. IsTrue (D.Disk.is_clean disk.new)
        → Looks it.ending (D.Disk.seen disk.old)) }
    ensures marked { IfOk result (λ it. IsTrue (D.Disk.is_clean disk.new)
        → it.has_mark ≡ has_mark (stored (D.Disk.seen disk.old))) }
    ensures keeps { (first : M) → M.keeps first machine.old → M.keeps first machine.new }
    ensures reads { IsTrue (D.Disk.is_usable disk.old) → OnlyReads D.Disk disk.old disk.new }
    ensures unused { D.Disk.is_usable disk.old ≡ false → disk.new ≡ disk.old }
    // Why it gives up: a disk whose sync has failed, another first line, a file of almost 2^63 bytes, a call of the
    // disk, or the machine.
    ensures cause { IfErr result (Because (D.Disk.is_usable disk.old ≡ false)
        (IsTrue (D.Disk.is_clean disk.new) → take sector (D.Disk.seen disk.old) ≢ line_bytes line.now)
        (IsTrue (D.Disk.is_clean disk.new)
        → 2 ^ 63 ≤ length (D.Disk.seen disk.old) + sector + sector)
        (MoreFaults (D.Disk.faults disk.old) (D.Disk.faults disk.new))
        (M.has_refused machine.new)) }
{
    if !disk.may_be_used() {
        return Err(Error::Closed);
    }
    let len = measure(disk)?;
    let stands = match is_ours(disk, len, line.bytes()) {
        Ok(stands) => stands,
        Err(error) => return Err(error),
    };
    if !stands {
        return Ok(Looked {
            ending: Ending::Doubtful,
            has_mark: false,
        });
    }
    let end = replay(disk, len, alloc, machine)?;
    let ending = see_end(disk, len, end.at, end.count)?;
    Ok(Looked {
        ending,
        has_mark: end.has_mark,
    })
}
