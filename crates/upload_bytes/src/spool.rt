//! Files that bodies are written into as they come, before they have a name of their own.
ghost use Rattle.std.specs.Prelude.{◌≡◌, ◌++◌, [], IfOk, IfErr, IfSome, OnOk};
ghost use Rattle.upload_bytes.specs.SpoolFiles.{given_to};

use http_wire::Given;
use std::alloc::{AllocError, Global};
use std::fs::{self, OpenOptions};
use std::io::{self, Eprint, ErrorKind, Write};
use std::marker::Model;
use std::os::fd::AsRawFd;
use std::os::unix::fs::OpenOptionsExt;
use std::sync::Arc;
use std::sync::atomic::{AtomicU64, Ordering};
use std::time::Instant;

/// How many folders a shelf has: the low byte of its number says in which of them a file is.
pub const FOLDERS: u64 = 256;

/// The folder of a shelf's spool, within it.
pub const SPOOL: &str = "new";

/// How long it is at least from one line about files that can't be read to the next, in seconds.
const PAUSE_SECONDS: u64 = 60;

/// Where files are made.
#[derive(Drop)]
enum Folder {
    /// In the folder `new` of the shelf at this path.
    Disk { rt: HostRuntime, shelf: String },
    /// None is made: their bytes stay in memory, for tests.
    Memory,
}

/// What the owners of a spool share.
#[derive(Drop)]
struct Shared {
    folder: Folder,
    /// The number of the next file.
    next: AtomicU64,
    /// Since when seconds are counted. Without a clock it is told once of files that can't be read.
    start: Option<Instant>,
    /// From which of these seconds on it may be told again.
    due: AtomicU64,
}

/// A folder for files that have no name of their own yet. It has several owners, in any threads.
#[derive(Drop)]
pub struct Spool {
    shared: Arc<Shared, Global>,
}

/// What a file was given, and where it is.
#[derive(Drop)]
enum Place {
    Disk {
        rt: HostRuntime,
        path: String,
        file: fs::File,
        given: Given,
    },
    Memory(Vec<u8>),
}

/// A file of a spool, seen as the bytes that it was given. It is removed as it goes.
pub struct SpoolFile {
    place: Place,
    /// Where it was made, and its number there.
    spool: Spool,
    made: u64,
}

/// Where a file is that is written no more.
#[derive(Drop)]
pub enum Kept {
    Disk {
        rt: HostRuntime,
        spool: Spool,
        made: u64,
        /// One more than the number that it was given by a shelf, or 0.
        named: AtomicU64,
    },
    Memory(Vec<u8>),
}

/// A file of a spool, all of whose bytes are on the disk: every crash leaves just these, once it has a name that a
/// crash leaves. It isn't open. It is removed as it goes, unless a shelf gave it a number.
pub struct SyncedFile {
    kept: Kept,
    given: Given,
}

impl Model for SyncedFile {
    ghost use Rattle.std.specs.Prelude.{List, ℕ};
    ghost use Rattle.upload_bytes.specs.SpoolFiles.{IsKept};

    ghost Value = { List ℕ };

    ghost view = { λ a. a.given };

    ghost invariant = { λ a. IsKept a.kept a.given };
}

impl Model for SpoolFile {
    ghost use Rattle.std.specs.Prelude.{List, ℕ};
    ghost use Rattle.upload_bytes.specs.SpoolFiles.{given_to};

    ghost Value = { List ℕ };

    ghost view = { λ a. given_to a.place };
}

impl Drop for SpoolFile {
    fn drop(self) {
        let SpoolFile {
            place,
            spool: _spool,
            made: _made,
        } = self;
        if let Place::Disk { rt, path, .. } = place {
            let _ = fs::remove_file(&rt, path.as_str());
        }
    }
}

impl Drop for SyncedFile {
    fn drop(self) {
        let SyncedFile {
            kept,
            given: _given,
        } = self;
        if let Kept::Disk {
            rt,
            spool,
            made,
            named,
            ..
        } = kept
        {
            if named.load(Ordering::SeqCst) == 0 {
                if let Ok(path) = spool.path_of(rt.alloc(), made) {
                    let _ = fs::remove_file(&rt, path.as_str());
                }
            }
        }
    }
}

impl Spool {
    /// A spool in the folder `new` of the shelf at this path, in which nothing else stands.
    pub fn in_shelf(rt: &HostRuntime, shelf: String) -> Result<Spool, AllocError> {
        let start = Instant::now(rt).ok();
        Spool::of(rt.alloc(), Folder::Disk { rt: *rt, shelf }, start)
    }

    /// A spool whose files are in memory.
    pub fn in_memory(alloc: Global) -> Result<Spool, AllocError> {
        Spool::of(alloc, Folder::Memory, None)
    }

    fn of(alloc: Global, folder: Folder, start: Option<Instant>) -> Result<Spool, AllocError> {
        let shared = Shared {
            folder,
            next: AtomicU64::new(0),
            start,
            due: AtomicU64::new(0),
        };
        match Arc::new(alloc, shared) {
            Ok(shared) => Ok(Spool { shared }),
            Err(_) => Err(AllocError),
        }
    }

    /// The same spool, for one more owner. It takes no memory. An `Err` comes only if there are more owners than can be
    /// counted.
    pub fn share(&self) -> Result<Spool, AllocError> {
        let shared = Arc::try_clone(&self.shared)?;
        Ok(Spool { shared })
    }

    /// Makes a file, which is empty, with mode 0600.
    pub fn make(&self, alloc: Global) -> io::Result<SpoolFile>
        ensures { IfOk result (λ file. file ≡ []) }
    {
        let spool = self.share()?;
        let made = self.shared.next.fetch_add(1, Ordering::SeqCst);
        let place = match &self.shared.folder {
            Folder::Disk { rt, .. } => {
                let path = self.path_of(alloc, made)?;
                let file = new_file(rt, path.as_str())?;
                Place::Disk {
                    rt: *rt,
                    path,
                    file,
                    given: Given::none(),
                }
            }
            Folder::Memory => Place::Memory(Vec::new(alloc)),
        };
        Ok(SpoolFile { place, spool, made })
    }

    /// Where the file is that it made under this number.
    fn path_of(&self, alloc: Global, made: u64) -> io::Result<String> {
        match &self.shared.folder {
            Folder::Disk { shelf, .. } => Ok(format!(in alloc; "{shelf}/{SPOOL}/{made}")?),
            Folder::Memory => Err(ErrorKind::NotFound.into()),
        }
    }

    /// Where a file is to which the shelf of this spool gave a number.
    fn path_under(&self, alloc: Global, number: u64) -> io::Result<String> {
        let low = number % FOLDERS;
        match &self.shared.folder {
            Folder::Disk { shelf, .. } => Ok(format!(in alloc; "{shelf}/{low:02x}/{number}")?),
            Folder::Memory => Err(ErrorKind::NotFound.into()),
        }
    }

    /// The file to which its shelf gave this number, open to be read. `InvalidData` says that this is no plain file, or
    /// that it has another length.
    pub(crate) fn open_numbered(
        &self,
        alloc: Global,
        number: u64,
        len: u64,
    ) -> io::Result<fs::File> {
        let Folder::Disk { rt, .. } = &self.shared.folder else {
            return Err(ErrorKind::NotFound.into());
        };
        let path = self.path_under(alloc, number)?;
        // A pipe in its place would have the call that opens it wait.
        let found = fs::symlink_metadata(rt, path.as_str())?;
        if !found.is_file() || found.len() != len {
            return Err(ErrorKind::InvalidData.into());
        }
        fs::File::open(rt, path.as_str())
    }

    /// Whether it is to be told now that a file can't be read: at most once a minute. Of threads that ask at once one
    /// tells it.
    fn tells(&self, rt: &HostRuntime) -> bool {
        let second = match self.shared.start {
            Some(start) => start.elapsed(rt).map_or(0, |passed| passed.as_secs()),
            None => 0,
        };
        let due = self.shared.due.load(Ordering::SeqCst);
        let next = second.saturating_add(PAUSE_SECONDS);
        due <= second
            && self
                .shared
                .due
                .compare_exchange(due, next, Ordering::SeqCst, Ordering::SeqCst)
                .is_ok()
    }
}

impl SpoolFile {
    /// Writes bytes behind those that it has. After an `Err` it may have some of them.
    pub fn write(&mut self, bytes: &[u8]) -> io::Result<()>
        ensures { OnOk result (self.new ≡ self.old ++ bytes.now) }
    {
        match &mut self.place {
            Place::Disk { file, given, .. } => {
                file.write_all(bytes)?;
                *given = given.and(bytes);
            }
            Place::Memory(held) => held.extend_from_slice(bytes)?,
        }
        Ok(())
    }

    /// Puts what it was given so far on the disk.
    pub fn sync_data(&self) -> io::Result<()> {
        match &self.place {
            Place::Disk { file, .. } => file.sync_data(),
            Place::Memory(_) => Ok(()),
        }
    }

    /// Puts all that it was given on the disk, and closes it.
    pub fn sync_all(self) -> io::Result<SyncedFile>
        ensures { IfOk result (λ synced. synced ≡ self) }
    {
        if let Place::Disk { file, .. } = &self.place {
            file.sync_all()?;
        }
        let SpoolFile { place, spool, made } = self;
        Ok(closed(place, spool, made))
    }
}

/// A file that is on the disk, closed.
fn closed(place: Place, spool: Spool, made: u64) -> SyncedFile
    ensures { result ≡ given_to place }
{
    match place {
        Place::Disk {
            rt,
            path: _path,
            file: _file,
            given,
        } => SyncedFile {
            kept: Kept::Disk {
                rt,
                spool,
                made,
                named: AtomicU64::new(0),
            },
            given,
        },
        Place::Memory(bytes) => {
            drop(spool);
            let given = Given::none().and(bytes.as_slice());
            SyncedFile {
                kept: Kept::Memory(bytes),
                given,
            }
        }
    }
}

impl SyncedFile {
    /// The file to which the shelf of this spool gave this number, and which was given these bytes. It stays as this
    /// goes. None if the spool is in memory, or has more owners than can be counted.
    pub(crate) fn numbered(spool: &Spool, number: u64, given: Given) -> Option<SyncedFile>
        ensures { IfSome result (λ file. file ≡ given) }
    {
        let Folder::Disk { rt, .. } = &spool.shared.folder else {
            return None;
        };
        let kept = Kept::Disk {
            rt: *rt,
            spool: spool.share().ok()?,
            made: 0,
            named: AtomicU64::new(number.checked_add(1)?),
        };
        Some(SyncedFile { kept, given })
    }

    /// Where it is. None says that it is in memory.
    pub fn path(&self, alloc: Global) -> io::Result<Option<String>> {
        match &self.kept {
            Kept::Disk {
                spool,
                made,
                named,
                ..
            } => {
                let path = match named.load(Ordering::SeqCst).checked_sub(1) {
                    None => spool.path_of(alloc, *made)?,
                    Some(number) => spool.path_under(alloc, number)?,
                };
                Ok(Some(path))
            }
            Kept::Memory(_) => Ok(None),
        }
    }

    /// Whether a shelf gave it a number.
    pub fn has_number(&self) -> bool {
        match &self.kept {
            Kept::Disk { named, .. } => named.load(Ordering::SeqCst) != 0,
            Kept::Memory(_) => false,
        }
    }

    /// Notes that the shelf of its spool gave it this number: from then on it is there, and stays as this goes.
    pub fn note_number(&self, number: u64) {
        let Some(next) = number.checked_add(1) else {
            return;
        };
        if let Kept::Disk { named, .. } = &self.kept {
            named.store(next, Ordering::SeqCst);
        }
    }

    /// Its bytes, if it is in memory.
    pub fn in_memory(&self) -> Option<&[u8]>
        ensures { IfSome result (λ bytes. bytes.now ≡ self.now) }
    {
        match &self.kept {
            Kept::Disk { .. } => None,
            Kept::Memory(bytes) => Some(bytes.as_slice()),
        }
    }

    /// What it was given, for contracts.
    pub(crate) fn given(&self) -> &Given
        ensures { result.now ≡ self.now }
    {
        &self.given
    }

    /// Tells people who look on why it can't be read.
    pub(crate) fn tell(&self, alloc: Global, error: &io::Error) {
        let Kept::Disk { rt, spool, .. } = &self.kept else {
            return;
        };
        if !spool.tells(rt) {
            return;
        }
        if let Ok(Some(path)) = self.path(alloc) {
            let _ = eprintln!(rt; "blobd: {path} can't be read: {error}: a reply with it was cut");
        }
    }

    /// The file, open to be read.
    pub(crate) fn open(&self, alloc: Global) -> io::Result<fs::File> {
        let Kept::Disk { rt, .. } = &self.kept else {
            return Err(ErrorKind::NotFound.into());
        };
        match self.path(alloc)? {
            Some(path) => fs::File::open(rt, path.as_str()),
            None => Err(ErrorKind::NotFound.into()),
        }
    }
}

/// Makes a file at a path. What is meant for a standard stream that was closed must not land in it.
fn new_file(rt: &HostRuntime, path: &str) -> io::Result<fs::File> {
    let file = OpenOptions::new()
        .write(true)
        .create_new(true)
        .mode(0o600)
        .open(rt, path)?;
    if file.as_raw_fd() <= 2 {
        return file.try_clone();
    }
    Ok(file)
}
