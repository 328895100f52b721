//! Bytes that are in a file, and not in memory.
ghost use Rattle.std.specs.Prelude.{◌≡◌, ◌<◌, ◌≤◌, ◌-◌, length, take, drop, min, IfOk, IfErr, IfSome};

use crate::spool::{Spool, SyncedFile};
use http_wire::{Excerpt, Given};
use std::alloc::{AllocError, Global};
use std::fs;
use std::marker::Model;
use std::os::unix::fs::FileExt;
use std::sync::Arc;

/// All bytes of a file, seen as those that it was given. It has several owners, in any threads, and is open only while
/// somebody reads it. The file goes with the last of them, unless a shelf gave it a number.
#[derive(Drop)]
pub struct FilePart {
    alloc: Global,
    file: Arc<SyncedFile, Global>,
    len: u64,
}

impl Model for FilePart {
    ghost use Rattle.std.specs.Prelude.{◌≡◌, List, ℕ, length};
    ghost use Rattle.std.specs.Arc.{arc_value};

    ghost Value = { List ℕ };

    ghost view = { λ a. arc_value a.file };

    ghost invariant = { λ a. a.len ≡ length (arc_value a.file) };
}

impl FilePart {
    /// The bytes of this file, which are so many. An `Err` gives the file back.
    pub fn of(alloc: Global, file: SyncedFile, len: u64) -> Result<FilePart, SyncedFile>
        requires { len ≡ length file }
        ensures ok { IfOk result (λ part. part ≡ file) }
        ensures err { IfErr result (λ back. back ≡ file) }
    {
        match Arc::new(alloc, file) {
            Ok(file) => Ok(FilePart { alloc, file, len }),
            Err(failed) => Err(failed.value),
        }
    }

    /// All bytes of the file to which the shelf of this spool gave this number: it was given these, which are so many.
    pub(crate) fn numbered(
        alloc: Global,
        spool: &Spool,
        number: u64,
        given: Given,
        len: u64,
    ) -> Option<FilePart>
        requires { len ≡ length given }
        ensures { IfSome result (λ part. part ≡ given) }
    {
        let file = SyncedFile::numbered(spool, number, given)?;
        FilePart::of(alloc, file, len).ok()
    }

    /// One more owner of the same file. It takes no memory. An `Err` comes only if there are more owners than can be
    /// counted.
    pub fn share(&self) -> Result<FilePart, AllocError>
        ensures { IfOk result (λ part. part ≡ self.now) }
    {
        let file = Arc::try_clone(&self.file)?;
        Ok(FilePart {
            alloc: self.alloc,
            file,
            len: self.len,
        })
    }

    /// How many bytes there are.
    pub fn len(&self) -> u64
        ensures { result ≡ length self.now }
    {
        self.len
    }

    /// What the file was given, for contracts.
    fn given(&self) -> &Given
        ensures { result.now ≡ self.now }
    {
        self.file.given()
    }

    /// The file, open to be read, if it can be.
    fn open(&self) -> Option<fs::File> {
        match self.file.open(self.alloc) {
            Ok(file) => Some(file),
            Err(error) => {
                self.file.tell(self.alloc, &error);
                None
            }
        }
    }

    /// Has it read. The file is opened, and there is memory for a piece of it; if not, nothing will come.
    pub fn read(&self) -> FileReader<'_>
        ensures { result ≡ record { whole = self.now; at = 0; len = 0 } }
    {
        FileReader {
            part: self,
            file: self.open(),
            piece: buffer_of(self.alloc, self.len),
            came: 0,
            at: 0,
            len: 0,
        }
    }
}

/// So many bytes of a file are read at once.
const PIECE: usize = 1_048_576;

/// Room for a piece of so many bytes, or for none if there is no memory.
fn buffer_of(alloc: Global, len: u64) -> Vec<u8> {
    let room = len.min(PIECE as u64) as usize;
    match vec![in alloc; 0u8; room] {
        Ok(piece) => piece,
        Err(_) => Vec::new(alloc),
    }
}

/// Reads so many bytes of a part behind an offset into the front of a piece. Says how many came: all of them, or none.
fn fill(part: &FilePart, file: &Option<fs::File>, piece: &mut Vec<u8>, at: u64, len: usize) -> usize
    ensures fits { result ≤ len }
    ensures has { result ≤ length piece.new.items }
{
    let Some(file) = file else {
        return 0;
    };
    if piece.len() < len {
        return 0;
    }
    match file.read_exact_at(&mut piece.as_mut_slice()[..len], at) {
        Ok(()) => len,
        Err(error) => {
            part.file.tell(part.alloc, &error);
            0
        }
    }
}

/// A file that is read piece by piece. Contracts see all that it was given, and where the piece that was read last is.
#[derive(Drop)]
pub struct FileReader<'a> {
    part: &'a FilePart,
    /// None if it can't be opened.
    file: Option<fs::File>,
    piece: Vec<u8>,
    /// So many bytes of the piece came.
    came: usize,
    at: u64,
    len: usize,
}

impl<'a> Model for FileReader<'a> {
    ghost use Rattle.upload_bytes.specs.FileReading.{FileReading, IsRead};

    ghost Value = { FileReading };

    ghost view = { λ a. record { whole = a.part.now; at = a.at; len = a.len } };

    ghost invariant = { λ a. IsRead a.part.now a.at a.len a.came a.piece.items };
}

impl<'a> FileReader<'a> {
    /// Reads the piece at an offset. If that fails, nothing comes.
    pub fn read_at(&mut self, at: u64)
        requires { at < length self.old.whole }
        ensures { self.new ≡ record {
          whole = self.old.whole;
          at = at;
          len = min 1048576 (length self.old.whole - at);
        } }
    {
        let len = (self.part.len() - at).min(PIECE as u64) as usize;
        self.came = fill(self.part, &self.file, &mut self.piece, at, len);
        self.at = at;
        self.len = len;
    }

    /// What was read of the piece.
    pub fn excerpt(&self) -> Excerpt<'_>
        ensures { result.told ≡ take self.now.len (drop self.now.at self.now.whole) }
    {
        let part = self.part;
        Excerpt::new(&self.piece[..self.came], part.given(), self.at, self.len)
    }
}
