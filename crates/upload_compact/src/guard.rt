//! A new journal names no file but those that no crash takes.
ghost use Rattle.std.specs.Prelude.{◌≡◌, OnOk, IsTrue};
ghost use Rattle.std.specs.List.{All};
ghost use Rattle.journal.specs.Journal.{disk_of, kept, line_of};
ghost use Rattle.upload_store.specs.Found.{entry_numbers, numbers_of, texts_of};
ghost use Rattle.upload_compact.specs.Numbers.{Has};
ghost use Rattle.upload_compact.specs.Guards.{Allows};

use crate::numbers::{Numbers, files_in};
use bodies::Hint;
use journal::{Error, Journal, Machine};
use sqlite_disk::Disk;
use std::alloc::Global;
use std::io::{self, ErrorKind};
use upload_journal::{Entry, ReadError, read_entry};
use upload_store::{Hints, most_ahead};

/// Sees that records name no other files than these.
#[derive(Drop)]
pub struct Guard {
    alloc: Global,
    /// The numbers that may be named.
    safe: Numbers,
    /// Those that are.
    named: Numbers,
    /// Which bodies a replay asks for.
    hints: Hints,
}

/// What the records of a journal name.
#[derive(Drop)]
pub struct Named {
    /// How many files they name.
    pub files: usize,
    /// Which bodies a replay of them asks for.
    pub hints: Vec<Hint>,
}

impl Guard {
    /// Takes an entry, unless it names another file.
    fn allow(&mut self, entry: &Entry) -> io::Result<()>
        ensures same { self.new.safe ≡ self.old.safe }
        ensures named { OnOk result (All (Has self.old.safe) (entry_numbers entry.now)) }
    {
        let files = files_in(entry);
        if !self.safe.have_files(files) {
            return Err(ErrorKind::InvalidData.into());
        }
        self.named.add_files(files)?;
        self.hints.note(entry);
        Ok(())
    }
}

impl Machine for Guard {
    ghost steps = { λ old time text new. Allows old text new };

    ghost has_refused = { λ _. Unit {0} };

    fn apply(&mut self, _time: u64, bytes: &[u8]) -> io::Result<()> {
        match read_entry(self.alloc, bytes) {
            Ok(entry) => self.allow(&entry),
            Err(ReadError::NoMemory) => Err(ErrorKind::OutOfMemory.into()),
            Err(ReadError::Fault(_)) => Err(ErrorKind::InvalidData.into()),
        }
    }
}

/// Sees that the records of a journal name no other files than these, and says what they name. The journal is recovered
/// for that, as `Journal::recover` does.
///
/// An error is one of `Journal::recover`: it is also that of a record that names another file.
pub fn guarded<N: Disk>(
    alloc: Global,
    journal: &mut Journal<N>,
    safe: Numbers,
) -> Result<Named, Error>
    ensures named { OnOk result (IsTrue (N.Disk.is_clean (disk_of journal.new))
        → All (λ text. All (Has safe) (numbers_of text)) (texts_of (kept journal.old))) }
    ensures same { OnOk result (IsTrue (N.Disk.is_clean (disk_of journal.new))
        → kept journal.new ≡ kept journal.old) }
    ensures line { line_of journal.new ≡ line_of journal.old }
    ensures clean { IsTrue (N.Disk.is_clean (disk_of journal.new))
        → IsTrue (N.Disk.is_clean (disk_of journal.old)) }
{
    let mut guard = Guard {
        alloc,
        safe,
        named: Numbers::none(alloc),
        hints: Hints::new(alloc, most_ahead(None)),
    };
    if let Err(error) = journal.recover(alloc, &mut guard) {
        return Err(error);
    }
    Ok(Named {
        files: guard.named.len(),
        hints: guard.hints.into_list(),
    })
}
