//! Notes that only proofs read. They take no memory, and their methods do nothing at run time.
ghost use Rattle.std.specs.Prelude.{◌≡◌, [], ◌∷◌};

use std::marker::Model;
use std::snapshot::Snapshot;

/// A clause reads them as a list, the newest in front.
#[derive(Drop)]
pub struct Notes<T> {
    // The newest note, and the notes before it.
    newest: Snapshot<Option<(Snapshot<T>, Snapshot<Notes<T>>)>>,
}

impl<T> Model for Notes<T> {
    ghost use Rattle.std.specs.Prelude.{List, length};
    ghost use Rattle.std.proofs.Common.{arith};
    ghost use Rattle.journal_file.specs.Notes.{noted};

    ghost Value = { List T };

    ghost view = { λ notes. noted notes.newest.value };

    ghost size = { length };

    ghost size_decreases = { λ a h. Prim.grind (arith) };
}

impl<T> Notes<T> {
    pub fn none() -> Notes<T>
        ensures { result ≡ [] }
    {
        Notes {
            newest: Snapshot::of(&None),
        }
    }

    pub fn and(&self, note: &T) -> Notes<T>
        ensures { result ≡ note.now ∷ self.now }
    {
        Notes {
            newest: Snapshot::of(&Some((Snapshot::of(note), Snapshot::of(self)))),
        }
    }
}

impl Notes<u64> {
    /// These bytes, in their order. Of the loop nothing is left at run time.
    pub fn of_bytes(bytes: &[u8]) -> Notes<u64>
        ensures { result ≡ bytes.now }
    {
        let mut notes = Notes::none();
        let mut left = bytes.len();
        while left > 0 {
            left -= 1;
            notes = notes.and(&u64::from(bytes[left]));
        }
        notes
    }
}
