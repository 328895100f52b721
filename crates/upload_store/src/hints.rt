//! Which bodies a start will ask for, as the entries of a journal tell.
ghost use Rattle.std.specs.Prelude.{◌≡◌, ◌+◌, ◌≤◌, ◌^◌, List, ℕ, length, false, IfErr, OnOk, IsTrue};
ghost use Rattle.sqlite_disk.specs.Disk.{MoreFaults};
ghost use Rattle.journal.specs.Errors.{Because};
ghost use Rattle.journal.specs.Format.{stored, sector};
ghost use Rattle.journal.specs.Journal.{line_of};
ghost use Rattle.journal.specs.Reads.{Refuses};
ghost use Rattle.upload_store.specs.Faults.{ComesBy, Never, NoBody, NoRecord};

use crate::ahead::most_ahead;
use crate::{Store, StoreFault};
use bodies::{Bond, Hint, HintedClose, HintedFile, Shelf};
use journal::Machine;
use sqlite_disk::Disk;
use std::alloc::{AllocError, Global};
use std::collections::BTreeMap;
use std::io;
use upload_journal::{BodyFile, Entry, KeptAsk, KeptBody, read_entry};
use upload_names::{Algorithm, UploadRef};

/// Where the chunks of an open upload are.
#[derive(Clone, Copy)]
enum Chunks {
    /// Each is in a file of the hint of this index. They have so many bytes.
    Hinted { index: usize, len: u64 },
    /// They aren't all, so what the upload has received isn't read ahead.
    Elsewhere,
}

/// Which bodies a replay will ask for, as the entries tell, as far as there was memory to list them. Nothing is
/// promised of them.
#[derive(Drop)]
pub struct Hints {
    alloc: Global,
    list: Vec<Hint>,
    /// The open uploads that took a chunk.
    uploads: BTreeMap<UploadRef, Chunks>,
    /// The bodies of an upload are one hint if they have no more bytes.
    most: u64,
    /// The place of what is asked for next.
    next: u64,
    /// Whether there was no memory for an entry.
    is_over: bool,
}

impl Hints {
    /// Of no entries. The bodies of an upload are read by one thread, and are all there before the first is taken, if
    /// they have no more bytes than `most`. Those of a longer one are read each by itself.
    pub fn new(alloc: Global, most: u64) -> Hints {
        Hints {
            alloc,
            list: Vec::new(alloc),
            uploads: BTreeMap::new(alloc),
            most,
            next: 0,
            is_over: false,
        }
    }

    /// Takes in the next entry. If there is no memory for it, it is left out, and so are all after it: an upload would
    /// be read ahead without one of its chunks.
    pub fn note(&mut self, entry: &Entry) {
        if !self.is_over {
            self.is_over = self.add(entry).is_err();
        }
    }

    /// The hints, in the order in which their first bodies are asked for.
    pub fn as_slice(&self) -> &[Hint] {
        &self.list
    }

    /// The same, which are moved and not copied.
    pub fn into_list(self) -> Vec<Hint> {
        self.list
    }

    fn add(&mut self, entry: &Entry) -> Result<(), AllocError> {
        let Entry::Exchange(exchange) = entry else {
            return Ok(());
        };
        match &exchange.ask {
            KeptAsk::Single { digest, body, .. } => {
                self.add_alone(body, Some(digest.algorithm()))
            }
            KeptAsk::Chunk { at, body, .. } => self.add_chunk(at, body),
            KeptAsk::Close {
                at,
                digest,
                body,
                ..
            } => self.add_close(at, digest.algorithm(), body),
            _ => Ok(()),
        }
    }

    fn next_place(&mut self) -> u64 {
        let place = self.next;
        self.next = place.saturating_add(1);
        place
    }

    /// A body by itself, if it is in files. Of one in several files only the hash is of use, and not if it is long.
    fn add_alone(&mut self, body: &KeptBody, hashed: Option<Algorithm>) -> Result<(), AllocError> {
        let KeptBody::InFiles(files) = body else {
            return Ok(());
        };
        let bond = match files.as_slice() {
            [_] => Bond::Apart,
            files if hashed.is_some() && size_of(files) <= self.most => Bond::OneBody,
            _ => return Ok(()),
        };
        let place = self.next_place();
        let files = hinted(self.alloc, files.as_slice(), place)?;
        self.list.push(Hint {
            files,
            bond,
            hashed,
        })?;
        Ok(())
    }

    /// A chunk of an upload.
    fn add_chunk(&mut self, at: &UploadRef, body: &KeptBody) -> Result<(), AllocError> {
        let before = self.uploads.get(at).copied();
        let after = match (before, file_of(body)) {
            (None, Some(file)) => {
                let index = self.list.len();
                self.add_alone(body, None)?;
                let len = file.len;
                Chunks::Hinted { index, len }
            }
            (Some(Chunks::Hinted { index, len }), Some(file)) if self.fits(len, file) => {
                self.add_to(index, file)?;
                let len = len.saturating_add(file.len);
                Chunks::Hinted { index, len }
            }
            _ => {
                self.add_alone(body, None)?;
                Chunks::Elsewhere
            }
        };
        self.uploads.insert(*at, after)?;
        Ok(())
    }

    /// Whether a file may be in one hint with others of so many bytes.
    fn fits(&self, len: u64, file: BodyFile) -> bool {
        len.saturating_add(file.len) <= self.most
    }

    /// A file of the hint of this index.
    fn add_to(&mut self, index: usize, file: BodyFile) -> Result<(), AllocError> {
        let file = HintedFile {
            number: file.number,
            len: file.len,
            place: self.next_place(),
        };
        if let Some(hint) = self.list.get_mut(index) {
            hint.files.push(file)?;
        }
        Ok(())
    }

    /// The close of an upload.
    fn add_close(
        &mut self,
        at: &UploadRef,
        algorithm: Algorithm,
        body: &KeptBody,
    ) -> Result<(), AllocError> {
        let file = file_of(body);
        match self.uploads.remove(at) {
            // The body is all.
            None => self.add_alone(body, Some(algorithm)),
            Some(Chunks::Hinted { index, len }) if file.is_none_or(|file| self.fits(len, file)) => {
                if let Some(file) = file {
                    self.add_to(index, file)?;
                }
                let close = HintedClose {
                    at: *at,
                    algorithm,
                    has_file: file.is_some(),
                    place: self.next_place(),
                };
                if let Some(hint) = self.list.get_mut(index) {
                    hint.bond = Bond::OneUpload(close);
                }
                Ok(())
            }
            Some(_) => self.add_alone(body, None),
        }
    }
}

/// How many bytes files have.
fn size_of(files: &[BodyFile]) -> u64 {
    let mut size: u64 = 0;
    for file in files {
        size = size.saturating_add(file.len);
    }
    size
}

/// Files that are asked for at this place.
fn hinted(alloc: Global, files: &[BodyFile], place: u64) -> Result<Vec<HintedFile>, AllocError> {
    let mut hinted = Vec::with_capacity(alloc, files.len())?;
    for file in files {
        let BodyFile { number, len } = *file;
        hinted.push(HintedFile { number, len, place })?;
    }
    Ok(hinted)
}

/// The file that has a body, if it is one alone.
fn file_of(body: &KeptBody) -> Option<BodyFile> {
    match body {
        KeptBody::InFiles(files) => match files.as_slice() {
            [file] => Some(*file),
            _ => None,
        },
        KeptBody::Here(_) => None,
    }
}

impl Machine for Hints {
    // A hint is nothing to rest on.
    ghost steps = { λ _ _ _ _. Unit {0} };

    ghost has_refused = { λ _. Never };

    fn apply(&mut self, _time: u64, bytes: &[u8]) -> io::Result<()> {
        match read_entry(self.alloc, bytes) {
            Ok(entry) => self.note(&entry),
            Err(_) => self.is_over = true,
        }
        Ok(())
    }
}

impl<D: Disk, S: Shelf> Store<D, S> {
    ghost use Rattle.upload_store.specs.Store.{journal_of, shelf_of, disk_of, is_open, kept_of, next_of, limits_of};
    ghost use Rattle.upload_store.specs.Store.{IsClean};

    /// Which bodies a start will ask for, in order, as the entries of the journal tell: hints, of which nothing is
    /// promised. The journal is recovered for that (`Journal::recover`), and its entries aren't run.
    pub(crate) fn list_hints(&mut self, alloc: Global) -> Result<Vec<Hint>, StoreFault>
        ensures same { OnOk result (IsClean self.new → kept_of self.new ≡ kept_of self.old) }
        ensures shelf { shelf_of self.new ≡ shelf_of self.old }
        ensures next { next_of self.new ≡ next_of self.old }
        ensures limits { limits_of self.new ≡ limits_of self.old }
        ensures line { line_of (journal_of self.new) ≡ line_of (journal_of self.old) }
        ensures clean { IsClean self.new → IsClean self.old }
        ensures faults { D.Disk.faults (disk_of self.old) ≤ D.Disk.faults (disk_of self.new) }
        ensures longer { length (D.Disk.seen (disk_of self.old))
            ≤ length (D.Disk.seen (disk_of self.new)) }
        // Why it gives up: as `recover`, but no record is refused, and nothing is asked of the shelf.
        ensures cause { IfErr result (ComesBy (Because
            (D.Disk.is_usable (disk_of self.old) ≡ false)
            (Refuses D.Disk (line_of (journal_of self.old)).bytes (disk_of self.old)
            (disk_of self.new))
            (IsTrue (D.Disk.is_clean (disk_of self.new))
            → 2 ^ 63 ≤ length (D.Disk.seen (disk_of self.old)) + sector + sector)
            (MoreFaults (D.Disk.faults (disk_of self.old)) (D.Disk.faults (disk_of self.new)))
            Never) NoBody NoRecord Never) }
        // Whatever the call met, a crash leaves a file that stands for what one from before it would have stood for.
        ensures any_crash { IsClean self.new → (file : List ℕ)
            → D.Disk.may_leave (disk_of self.new) file
            → (before : List ℕ) × D.Disk.may_leave (disk_of self.old) before
            × (stored file ≡ stored before) }
    {
        let most = most_ahead(self.memory.as_ref().map(|room| room.limit()));
        let mut hints = Hints::new(alloc, most);
        if let Err(error) = self.journal.recover(alloc, &mut hints) {
            return Err(StoreFault::Journal(error));
        }
        Ok(hints.into_list())
    }
}
