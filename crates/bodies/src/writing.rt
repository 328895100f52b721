//! A body is begun, and then finished.
ghost use Rattle.std.specs.Prelude.{◌≡◌, ◌⊎◌, ◌≤◌, false, Some, None, Err, []};
ghost use Rattle.std.specs.Prelude.{IsSome, IfOk, IfErr, OnOk, OnErr, IsTrue};
ghost use Rattle.sqlite_disk.specs.Disk.{MoreFaults};
ghost use Rattle.bodies.specs.Faults.{Because};
ghost use Rattle.bodies.specs.Files.{HasFailed};
ghost use Rattle.bodies.specs.Shelf.{Keeps, KeepsOthers, Stored};
ghost use Rattle.bodies.specs.Body.{number_of, bytes_of, is_open, file_of};
ghost use Rattle.bodies.specs.declared.fault.BodyFault.TheVariants.{Taken};

use crate::body::Body;
use crate::fault::BodyFault;
use crate::shelf::Shelf;

/// Begins the body of a number that has no file yet. `Taken` says that it has one, and `Ended` that a sync of names has
/// failed before. At an error nothing has changed.
pub fn begin<S: Shelf>(shelf: &mut S, number: u64) -> Result<Body<S::File>, BodyFault>
    ensures begun { IfOk result (λ body. (number_of body ≡ number)
        × (bytes_of body ≡ []) × IsTrue (is_open body)) }
    ensures free { OnOk result (S.Shelf.IsClean shelf.new → S.Shelf.held shelf.old number ≡ None) }
    ensures taken { result ≡ Err Taken → S.Shelf.IsClean shelf.new
        → IsSome (S.Shelf.held shelf.old number) }
    ensures ended { OnOk result (IsTrue (S.Shelf.is_usable shelf.old)) }
    ensures cause { IfErr result (Because
        (S.Shelf.IsClean shelf.new → IsSome (S.Shelf.held shelf.old number))
        ⊥ (S.Shelf.is_usable shelf.old ≡ false) ⊥
        (MoreFaults (S.Shelf.faults shelf.old) (S.Shelf.faults shelf.new))) }
    ensures err { OnErr result (Keeps S.Shelf.held S.Shelf.may_leave shelf.old shelf.new number) }
    ensures others { KeepsOthers S.Shelf.held S.Shelf.may_leave shelf.old shelf.new number }
    ensures usable { S.Shelf.is_usable shelf.new ≡ S.Shelf.is_usable shelf.old }
    ensures faults { S.Shelf.faults shelf.old ≤ S.Shelf.faults shelf.new }
    ensures clean { S.Shelf.IsClean shelf.new → S.Shelf.IsClean shelf.old }
{
    if !shelf.may_be_used() {
        return Err(BodyFault::Ended);
    }
    let file = shelf.make(number)?;
    Ok(Body::new(number, file))
}

/// Ends a body: its bytes are put on the disk, and then its name. At `Ok` every crash leaves exactly these bytes at its
/// number, until it is removed. At an error nothing is to name it; it is a file to remove.
///
/// `Ended` says that the body was not open, or that a sync of names has failed before; `Io` that a sync failed now.
pub fn finish<S: Shelf>(shelf: &mut S, body: Body<S::File>) -> Result<(), BodyFault>
    ensures stored { OnOk result
        (Stored S.Shelf.may_leave shelf.new (number_of body) (bytes_of body)) }
    ensures held { OnOk result (S.Shelf.held shelf.new (number_of body) ≡ Some (bytes_of body)) }
    ensures others { KeepsOthers S.Shelf.held S.Shelf.may_leave
        shelf.old shelf.new (number_of body) }
    // Why it gives up: it may not begin, a call of the shelf failed, or the body's file, as it is closed then, has
    // failed to sync.
    ensures cause { IfErr result (Because ⊥ ⊥
        ((is_open body ≡ false) ⊎ (S.Shelf.is_usable shelf.old ≡ false)) ⊥
        (MoreFaults (S.Shelf.faults shelf.old) (S.Shelf.faults shelf.new)
        ⊎ HasFailed S.File.Disk (bytes_of body) (file_of body))) }
    ensures usable { OnOk result (IsTrue (S.Shelf.is_usable shelf.new)) }
    ensures closes { IsTrue (S.Shelf.is_usable shelf.old) → S.Shelf.is_usable shelf.new ≡ false
        → MoreFaults (S.Shelf.faults shelf.old) (S.Shelf.faults shelf.new) }
    ensures faults { S.Shelf.faults shelf.old ≤ S.Shelf.faults shelf.new }
    ensures clean { S.Shelf.IsClean shelf.new → S.Shelf.IsClean shelf.old }
{
    let number = body.number();
    let (file, synced) = body.end();
    shelf.close(number, file)?;
    synced?;
    if !shelf.may_be_used() {
        return Err(BodyFault::Ended);
    }
    shelf.sync(number)?;
    Ok(())
}
