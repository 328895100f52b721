//! Files by their numbers, as a store of bodies sees them.
ghost use Rattle.std.specs.Prelude.{◌≡◌, ◌⊎◌, ◌↔◌, ◌≤◌, ℕ, Bool, List, Option, Some, None, Err, length, take, is_ok};
ghost use Rattle.std.specs.Prelude.{Contains, IsSome, IfSome, IfOk, OnOk, OnErr, IsTrue};
ghost use Rattle.sqlite_disk.specs.Disk.{CountsFault};
ghost use Rattle.bodies.specs.Shelf.{Keeps, KeepsAll, KeepsOthers, IsPiece, Counts};
ghost use Rattle.bodies.specs.Files.{IsEmpty};
ghost use Rattle.bodies.specs.declared.fault.BodyFault.TheVariants.{Taken, Missing};

use crate::fault::BodyFault;
use crate::hint::Hint;
use sqlite_disk::Disk;
use std::alloc::Global;
use std::io;
use upload_bytes::{Body, Front, Spool, SyncedFile};
use upload_names::UploadRef;

/// Files by their numbers.
pub trait Shelf {
    /// A file while it is written.
    type File: Disk + Drop;

    /// The file of each number, if there is one, as a read finds it. Of a file that is being written nothing is said
    /// but that it is there.
    ghost held: { Self → ℕ → Option (List ℕ) };

    /// What a crash at this moment may leave at each number.
    ghost may_leave: { Self → ℕ → Option (List ℕ) → Type 0 };

    /// No sync of names has failed. After one has, names may be lost with no further error.
    ghost is_usable: { Self → Bool };

    /// No wrong answer has been taken as true. No code can tell, so only what is said of answers rests on it.
    ghost IsClean: { Self → Type 0 };

    /// How many calls have failed, or have found no memory.
    ghost faults: { Self → ℕ };

    fn may_be_used(&self) -> bool
        ensures { result ≡ is_usable self.now };

    /// Makes the file of this number, which is empty. `Taken` says that the number has one.
    fn make(&mut self, number: u64) -> Result<Self::File, BodyFault>
        ensures empty { IfOk result (IsEmpty Self.File.Disk) }
        ensures free { OnOk result (IsClean self.new → held self.old number ≡ None) }
        ensures taken { result ≡ Err Taken → IsClean self.new → IsSome (held self.old number) }
        ensures err { OnErr result (Keeps held may_leave self.old self.new number) }
        ensures others { KeepsOthers held may_leave self.old self.new number }
        ensures usable { is_usable self.new ≡ is_usable self.old }
        ensures faults { Counts (IsClean self.new → IsSome (held self.old number)) ⊥
            result (faults self.old) (faults self.new) }
        ensures clean { IsClean self.new → IsClean self.old };

    /// Closes the file of this number, to which no more is written. A crash may lose its name until `sync`. At an error
    /// a crash may leave anything of it.
    fn close(&mut self, number: u64, file: Self::File) -> io::Result<()>
        ensures held { OnOk result (held self.new number ≡ Some (Self.File.Disk.seen file)) }
        ensures left { OnOk result ((left : Option (List ℕ)) → may_leave self.new number left
            → (left ≡ None) ⊎ ((bytes : List ℕ) × Self.File.Disk.may_leave file bytes
            × (left ≡ Some bytes))) }
        ensures others { KeepsOthers held may_leave self.old self.new number }
        ensures usable { is_usable self.new ≡ is_usable self.old }
        ensures faults { CountsFault result (faults self.old) (faults self.new) }
        ensures clean { IsClean self.new → IsClean self.old };

    /// Puts the name of this number's file on the disk.
    fn sync(&mut self, number: u64) -> io::Result<()>
        requires { IsTrue (is_usable self.old) }
        ensures kept { OnOk result ((left : Option (List ℕ)) → may_leave self.new number left
            → IsSome (held self.old number) → IsSome left) }
        ensures same { KeepsAll held may_leave self.old self.new }
        ensures usable { is_usable self.new ≡ is_ok result }
        ensures faults { CountsFault result (faults self.old) (faults self.new) }
        ensures clean { IsClean self.new → IsClean self.old };

    /// Reads bytes of this number's file at an offset into the front of `buf`, and says how many: none is its end.
    fn read_at(&mut self, number: u64, at: usize, buf: &mut [u8]) -> Result<usize, BodyFault>
        ensures count { IfOk result (λ n. n ≤ length buf.old) }
        ensures read { IfOk result (λ n. IsClean self.new
            → IsPiece (held self.old number) at (length buf.old) (take n buf.new)) }
        ensures missing { result ≡ Err Missing → IsClean self.new → held self.old number ≡ None }
        ensures same { KeepsAll held may_leave self.old self.new }
        ensures usable { is_usable self.new ≡ is_usable self.old }
        ensures faults { Counts ⊥ (IsClean self.new → held self.old number ≡ None)
            result (faults self.old) (faults self.new) }
        ensures clean { IsClean self.new → IsClean self.old };

    /// Removes this number's file. A crash may bring it back.
    fn remove(&mut self, number: u64) -> Result<(), BodyFault>
        ensures held { OnOk result (held self.new number ≡ None) }
        ensures left { (left : Option (List ℕ)) → may_leave self.new number left
            → (left ≡ None) ⊎ may_leave self.old number left }
        ensures missing { result ≡ Err Missing → IsClean self.new → held self.old number ≡ None }
        ensures others { KeepsOthers held may_leave self.old self.new number }
        ensures usable { is_usable self.new ≡ is_usable self.old }
        ensures faults { Counts ⊥ (IsClean self.new → held self.old number ≡ None)
            result (faults self.old) (faults self.new) }
        ensures clean { IsClean self.new → IsClean self.old };

    /// Where files are made that have no number yet, and are written in any thread. A start finds nothing of them. None
    /// says that there is no memory, or that none are made. If there is one, a blob is kept in the files that its bodies
    /// were read of.
    fn spool(&self) -> Option<Spool>;

    /// Gives this number to a file of its spool. `Taken` says that the number has a file. A crash may lose the name
    /// until `sync`.
    fn name(&mut self, number: u64, file: &SyncedFile) -> Result<(), BodyFault>
        ensures held { OnOk result (held self.new number ≡ Some file.now) }
        ensures left { OnOk result ((left : Option (List ℕ)) → may_leave self.new number left
            → (left ≡ None) ⊎ (left ≡ Some file.now)) }
        ensures free { OnOk result (IsClean self.new → held self.old number ≡ None) }
        ensures taken { result ≡ Err Taken → IsClean self.new → IsSome (held self.old number) }
        ensures err { OnErr result (Keeps held may_leave self.old self.new number) }
        ensures others { KeepsOthers held may_leave self.old self.new number }
        ensures usable { is_usable self.new ≡ is_usable self.old }
        ensures faults { Counts (IsClean self.new → IsSome (held self.old number)) ⊥
            result (faults self.old) (faults self.new) }
        ensures clean { IsClean self.new → IsClean self.old };

    /// Takes word of the bodies that it will be asked for from now on, in this order. A shelf that reads nothing ahead
    /// has no use for that.
    fn take_hints(&mut self, hints: Vec<Hint>)
        ensures same { KeepsAll held may_leave self.old self.new }
        ensures usable { is_usable self.new ≡ is_usable self.old }
        ensures faults { faults self.new ≡ faults self.old }
        ensures clean { IsClean self.new → IsClean self.old }
    {
        let _ = hints;
    }

    /// The body of this number, if all of it was read already. It may carry its hash. A shelf that reads nothing ahead
    /// has none.
    fn ready(&mut self, number: u64) -> Option<Body>
        ensures read { IfSome result
            (λ body. IsClean self.new → held self.old number ≡ Some body) }
        ensures same { KeepsAll held may_leave self.old self.new }
        ensures usable { is_usable self.new ≡ is_usable self.old }
        ensures faults { faults self.new ≡ faults self.old }
        ensures clean { IsClean self.new → IsClean self.old }
    {
        let _ = number;
        None
    }

    /// The body that is in several files, of which this number's is the first, if it was read already, with its hash: a
    /// guess, which whoever takes it compares with what he reads. A shelf that reads nothing ahead has none.
    fn joined(&mut self, first: u64) -> Option<Body>
        ensures same { KeepsAll held may_leave self.old self.new }
        ensures usable { is_usable self.new ≡ is_usable self.old }
        ensures faults { faults self.new ≡ faults self.old }
        ensures clean { IsClean self.new → IsClean self.old }
    {
        let _ = first;
        None
    }

    /// What an upload has received that is about to be closed, if it was read already, with its hash: a guess,
    /// which whoever takes it compares. A shelf that reads nothing ahead has none.
    fn front(&mut self, at: &UploadRef) -> Option<Front>
        ensures same { KeepsAll held may_leave self.old self.new }
        ensures usable { is_usable self.new ≡ is_usable self.old }
        ensures faults { faults self.new ≡ faults self.old }
        ensures clean { IsClean self.new → IsClean self.old }
    {
        let _ = at;
        None
    }

    /// The numbers that have a file, in any order.
    fn numbers(&mut self, alloc: Global) -> Result<Vec<u64>, BodyFault>
        ensures listed { IfOk result (λ numbers. IsClean self.new
            → (number : ℕ) → Contains numbers.items number ↔ IsSome (held self.old number)) }
        ensures same { KeepsAll held may_leave self.old self.new }
        ensures usable { is_usable self.new ≡ is_usable self.old }
        ensures faults { Counts ⊥ ⊥ result (faults self.old) (faults self.new) }
        ensures clean { IsClean self.new → IsClean self.old };
}
