//! A shelf whose files are read apart from it.
ghost use Rattle.std.specs.Prelude.{◌≡◌, [], Some, IfOk, IsTrue};
ghost use Rattle.bodies.specs.Reader.{number_of, bytes_of, is_over};
ghost use Rattle.bodies.specs.Shelf.{KeepsAll};

use crate::reader::BodyReader;
use crate::shelf::Shelf;
use std::io;

/// A shelf that lends files of its bodies, so that they can be read in other threads. A body's file never changes, so
/// it may be read at any time before it is removed.
pub trait Lends: Shelf {
    /// The file of this number, which is opened as it is read.
    fn lend(&self, number: u64) -> io::Result<BodyReader>
        ensures { IfOk result (λ reader.
            (number_of reader ≡ number) × (bytes_of reader ≡ [])) };

    /// Notes what was read of a file, up to its end. Nothing may have been removed since it was lent.
    fn take_back(&mut self, reader: BodyReader)
        requires { IsTrue (is_over reader) }
        ensures read { Self.Shelf.IsClean self.new
            → Self.Shelf.held self.old (number_of reader) ≡ Some (bytes_of reader) }
        ensures same { KeepsAll Self.Shelf.held Self.Shelf.may_leave self.old self.new }
        ensures usable { Self.Shelf.is_usable self.new ≡ Self.Shelf.is_usable self.old }
        ensures faults { Self.Shelf.faults self.new ≡ Self.Shelf.faults self.old }
        ensures clean { Self.Shelf.IsClean self.new → Self.Shelf.IsClean self.old };
}
