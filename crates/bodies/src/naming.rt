//! A file that was written gets its number.
ghost use Rattle.std.specs.Prelude.{◌≡◌, ◌⊎◌, ◌≤◌, false, Some, None, IsSome, IfErr, OnOk, OnErr, IsTrue};
ghost use Rattle.sqlite_disk.specs.Disk.{MoreFaults};
ghost use Rattle.bodies.specs.Faults.{Because};
ghost use Rattle.bodies.specs.Shelf.{Keeps, KeepsOthers, Stored};

use crate::fault::BodyFault;
use crate::shelf::Shelf;
use upload_bytes::SyncedFile;

/// Gives this number to a file of the shelf's spool, and puts the name on the disk. At `Ok` every crash leaves exactly
/// its bytes at the number, until it is removed. At an error nothing is to name it; what is left of it is a file to
/// remove.
///
/// `Taken` says that the number has a file, `Ended` that a sync of names has failed before, and `Io` that a call failed.
pub fn name<S: Shelf>(shelf: &mut S, number: u64, file: &SyncedFile) -> Result<(), BodyFault>
    ensures stored { OnOk result (Stored S.Shelf.may_leave shelf.new number file.now) }
    ensures held { OnOk result (S.Shelf.held shelf.new number ≡ Some file.now) }
    ensures free { OnOk result (S.Shelf.IsClean shelf.new → S.Shelf.held shelf.old number ≡ None) }
    ensures err { OnErr result (Keeps S.Shelf.held S.Shelf.may_leave shelf.old shelf.new number
        ⊎ (S.Shelf.IsClean shelf.new → S.Shelf.held shelf.old number ≡ None)) }
    ensures others { KeepsOthers S.Shelf.held S.Shelf.may_leave shelf.old shelf.new number }
    ensures cause { IfErr result (Because
        (S.Shelf.IsClean shelf.new → IsSome (S.Shelf.held shelf.old number))
        ⊥ (S.Shelf.is_usable shelf.old ≡ false) ⊥
        (MoreFaults (S.Shelf.faults shelf.old) (S.Shelf.faults shelf.new))) }
    ensures usable { OnOk result (IsTrue (S.Shelf.is_usable shelf.new)) }
    ensures faults { S.Shelf.faults shelf.old ≤ S.Shelf.faults shelf.new }
    ensures clean { S.Shelf.IsClean shelf.new → S.Shelf.IsClean shelf.old }
{
    if !shelf.may_be_used() {
        return Err(BodyFault::Ended);
    }
    shelf.name(number, file)?;
    shelf.sync(number)?;
    Ok(())
}
