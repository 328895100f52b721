//! A shelf that crashes.
ghost use Rattle.std.specs.Prelude.{◌≤◌, ℕ, List, Option, IsTrue};

use bodies::{MemoryShelf, Shelf};

/// A shelf that can be made to crash and come back, for tests and for theorems that span a restart.
pub trait CrashShelf: Shelf {
    fn crash(&mut self)
        ensures left { (n : ℕ) → Self.Shelf.may_leave self.old n (Self.Shelf.held self.new n) }
        ensures no_more { (n : ℕ) (left : Option (List ℕ)) → Self.Shelf.may_leave self.new n left
            → Self.Shelf.may_leave self.old n left }
        ensures usable { IsTrue (Self.Shelf.is_usable self.new) }
        ensures faults { Self.Shelf.faults self.old ≤ Self.Shelf.faults self.new }
        ensures clean { Self.Shelf.IsClean self.new → Self.Shelf.IsClean self.old };
}

/// By its seed (`MemoryShelf::reseed`) it loses and tears what a crash may lose and tear.
impl CrashShelf for MemoryShelf {
    fn crash(&mut self) {
        self.power_cut();
    }
}
