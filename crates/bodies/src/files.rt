//! A shelf in a folder of the system. Each method makes the call that it notes, and no other.
ghost use Rattle.std.specs.Prelude.{◌≡◌, ◌≤◌, [], ◌∷◌, ℕ, Bool, List, Option, length, IfOk, IsTrue};
ghost use Rattle.bodies.specs.declared.calls.Call.TheVariants as Call;
ghost use Rattle.bodies.specs.declared.fault.BodyFault.TheVariants.{Io};
ghost use Rattle.bodies.specs.Calls.{Refused, RefusedName};
ghost use Rattle.journal_file.specs.Opened.{IsJustOpened};

use crate::calls::Call;
use crate::closed::Closed;
use crate::counter::Counter;
use crate::fault::BodyFault;
use crate::lending::Lends;
use crate::reader::BodyReader;
use crate::shelf::Shelf;
use journal_file::{
    FileFrom, Folder, Notes, OpenFault, Start, make_file, make_folder, sync_folder,
};
use std::alloc::Global;
use std::fs;
use std::io::{self, ErrorKind};
use std::marker::PhantomData;
use std::os::unix::fs::FileExt;
use std::snapshot::Snapshot;
use upload_bytes::{FOLDERS, SPOOL, Spool, SyncedFile};

/// What is supposed of the bodies as a folder is opened. A function over `H: Holds` is proved for all.
pub trait Holds {
    /// The file of each number, as a read finds it.
    ghost bodies: { ℕ → Option (List ℕ) };

    /// The disk has what a read finds. Of a body that was not finished, or was removed, it may have something else.
    ghost is_kept: { ℕ → Bool };
}

/// Bodies in a folder of 256 folders, which the low byte of the number names, so that none is large. `S` stands for a
/// file that is new, and `H` for the bodies that were there.
#[derive(Drop)]
pub struct FolderShelf<S: Start, H: Holds> {
    rt: HostRuntime,
    path: String,
    calls: Notes<Call<Closed<S>>>,
    is_usable: bool,
    counter: Counter,
    /// None if what is read stays in memory.
    spool: Option<Spool>,
    held: PhantomData<H>,
    ghost empty: { S.Start.db ≡ [] },
}

impl<S: Start, H: Holds> FolderShelf<S, H> {
    /// Opens the shelf of this name in a folder, and makes what is missing of it, each folder with mode 0700. The
    /// files of its spool are removed: a server that was killed left them.
    pub fn open(
        rt: &HostRuntime,
        folder: &Folder,
        name: &str,
    ) -> Result<FolderShelf<S, H>, OpenFault>
        requires empty { S.Start.db ≡ [] }
        ensures fresh { IfOk result (λ shelf. (shelf.calls ≡ []) × IsTrue shelf.is_usable) }
    {
        let path = folder.path_of(rt, name)?;
        make_folder(rt, path.as_str())?;
        for low in 0..FOLDERS {
            make_folder(rt, path_within(rt, path.as_str(), low)?.as_str())?;
        }
        let spool = format!(in rt.alloc(); "{path}/{SPOOL}").map_err(io::Error::from)?;
        make_empty(rt, spool.as_str())?;
        sync_folder(rt, path.as_str())?;
        folder.sync()?;
        let shelf = String::from_str(rt.alloc(), path.as_str()).map_err(io::Error::from)?;
        Ok(FolderShelf {
            rt: *rt,
            path,
            calls: Notes::none(),
            is_usable: true,
            counter: Counter::new(rt.alloc()).map_err(io::Error::from)?,
            spool: Some(Spool::in_shelf(rt, shelf).map_err(io::Error::from)?),
            held: PhantomData,
        })
    }

    /// The same shelf, without its spool: what is read of its bodies stays in memory.
    pub fn without_spool(self) -> FolderShelf<S, H>
        ensures { (result.calls ≡ self.calls) × (result.is_usable ≡ self.is_usable) }
    {
        let mut shelf = self;
        shelf.spool = None;
        shelf
    }

    /// How many bytes are read of its bodies from now on.
    pub fn counter(&self) -> &Counter {
        &self.counter
    }

    /// The folder that a number's file is in.
    fn folder_of(&self, number: u64) -> io::Result<String> {
        path_within(&self.rt, self.path.as_str(), number % FOLDERS)
    }

    fn path_of(&self, number: u64) -> io::Result<String> {
        Ok(format!(in self.rt.alloc(); "{}/{number}", self.folder_of(number)?.as_str())?)
    }

    /// Puts the name of this number's file on the disk.
    fn sync_name(&self, number: u64) -> io::Result<()> {
        sync_folder(&self.rt, self.folder_of(number)?.as_str())
    }

    /// Makes the file of this number.
    fn make_new(&self, number: u64) -> io::Result<FileFrom<S>>
        ensures { IfOk result (IsJustOpened S.Start) }
    {
        make_file(&self.rt, self.path_of(number)?.as_str())
    }

    /// Has a file of the spool stand at this number, unless something stands there: nobody else puts something there
    /// meanwhile, since the folder is locked.
    fn rename(&self, file: &SyncedFile, number: u64) -> io::Result<()> {
        let Some(from) = file.path(self.rt.alloc())? else {
            return Err(ErrorKind::InvalidInput.into());
        };
        let to = self.path_of(number)?;
        match fs::symlink_metadata(&self.rt, to.as_str()) {
            Ok(_) => Err(ErrorKind::AlreadyExists.into()),
            Err(error) if error.kind() == ErrorKind::NotFound => {
                fs::rename(&self.rt, from.as_str(), to.as_str())?;
                file.note_number(number);
                Ok(())
            }
            Err(error) => Err(error),
        }
    }

    /// Reads this number's file, as `read_at` does.
    fn read(&self, number: u64, at: usize, buf: &mut [u8]) -> io::Result<usize>
        ensures { IfOk result (λ n. n ≤ length buf.old) }
    {
        let n = self.open_body(number)?.read_at(buf, at as u64)?;
        self.counter.add(n);
        Ok(n)
    }

    /// Opens the file of this number, to read it.
    fn open_body(&self, number: u64) -> io::Result<fs::File> {
        fs::File::open(&self.rt, self.path_of(number)?.as_str())
    }

    /// Removes this number's file.
    fn remove_file(&self, number: u64) -> io::Result<()> {
        fs::remove_file(&self.rt, self.path_of(number)?.as_str())
    }

    /// The numbers that have a file.
    fn list_all(&self, alloc: Global) -> io::Result<Vec<u64>> {
        let mut numbers = Vec::new(alloc);
        for low in 0..FOLDERS {
            list(&self.rt, self.folder_of(low)?.as_str(), low, &mut numbers)?;
        }
        Ok(numbers)
    }

    /// Why a file can't be read or removed. That it isn't there is noted, or that the call failed.
    fn refuse(&mut self, number: u64, error: io::Error) -> BodyFault
        ensures noted { Refused number result self.old.calls self.new.calls }
        ensures usable { self.new.is_usable ≡ self.old.is_usable }
    {
        if error.kind() != ErrorKind::NotFound {
            return self.fail(error);
        }
        self.note(Call::Missing(number));
        BodyFault::Missing
    }

    /// Why a number can't be given to a file. That it has one is noted, or that the call failed.
    fn refuse_name(&mut self, number: u64, error: io::Error) -> BodyFault
        ensures noted { RefusedName number result self.old.calls self.new.calls }
        ensures usable { self.new.is_usable ≡ self.old.is_usable }
    {
        if error.kind() != ErrorKind::AlreadyExists {
            return self.fail(error);
        }
        self.note(Call::Taken(number));
        BodyFault::Taken
    }

    /// Notes that a call failed.
    fn fail(&mut self, error: io::Error) -> BodyFault
        ensures is { result ≡ Io error }
        ensures calls { self.new.calls ≡ Call.Failed ∷ self.old.calls }
        ensures usable { self.new.is_usable ≡ self.old.is_usable }
    {
        self.note(Call::Failed);
        BodyFault::Io(error)
    }

    /// Notes a call with its answer.
    fn note(&mut self, call: Call<Closed<S>>)
        ensures calls { self.new.calls ≡ call ∷ self.old.calls }
        ensures usable { self.new.is_usable ≡ self.old.is_usable }
    {
        self.calls = self.calls.and(&call);
    }
}

fn path_within(rt: &HostRuntime, path: &str, low: u64) -> io::Result<String> {
    Ok(format!(in rt.alloc(); "{path}/{low:02x}")?)
}

/// Makes a folder, if it isn't there, and removes the files in it.
fn make_empty(rt: &HostRuntime, path: &str) -> Result<(), OpenFault> {
    make_folder(rt, path)?;
    for entry in fs::read_dir(rt, path)? {
        let entry = entry?;
        let name = entry.file_name();
        let file = format!(in rt.alloc(); "{path}/{name}").map_err(io::Error::from)?;
        fs::remove_file(rt, file.as_str())?;
    }
    Ok(())
}

/// The number that a file is named by, if it is in its folder.
fn number_of(name: &str, low: u64) -> Option<u64> {
    let number = name.parse::<u64>().ok()?;
    let is_plain = name == "0" || !(name.starts_with('0') || name.starts_with('+'));
    (is_plain && number % FOLDERS == low).then_some(number)
}

/// Adds the numbers of the files in a folder.
fn list(rt: &HostRuntime, path: &str, low: u64, numbers: &mut Vec<u64>) -> io::Result<()> {
    for entry in fs::read_dir(rt, path)? {
        if let Some(number) = number_of(entry?.file_name(), low) {
            numbers.push(number)?;
        }
    }
    Ok(())
}

impl<S: Start, H: Holds> Shelf for FolderShelf<S, H> {
    ghost use Rattle.bodies.specs.Calls.{held_after, left_after, failed_in, IsHonest};
    ghost use Rattle.bodies.specs.FolderFiles.{seen_of, may_leave_of};

    type File = FileFrom<S>;

    ghost held = { λ shelf. held_after (seen_of S.Start) H.Holds.bodies shelf.calls };

    ghost may_leave = { λ shelf. left_after (seen_of S.Start) H.Holds.bodies
        (may_leave_of S.Start) H.Holds.is_kept shelf.calls };

    ghost is_usable = { λ shelf. shelf.is_usable };

    ghost IsClean = { λ shelf. IsHonest (seen_of S.Start) H.Holds.bodies shelf.calls };

    ghost faults = { λ shelf. failed_in shelf.calls };

    fn may_be_used(&self) -> bool {
        self.is_usable
    }

    fn make(&mut self, number: u64) -> Result<FileFrom<S>, BodyFault> {
        match self.make_new(number) {
            Ok(file) => {
                self.note(Call::Made(number));
                Ok(file)
            }
            Err(error) => Err(self.refuse_name(number, error)),
        }
    }

    fn close(&mut self, number: u64, file: FileFrom<S>) -> io::Result<()> {
        self.note(Call::Closed(number, Closed::Written(Snapshot::of(&file))));
        Ok(())
    }

    fn sync(&mut self, number: u64) -> io::Result<()> {
        match self.sync_name(number) {
            Ok(()) => {
                self.note(Call::Synced(number));
                Ok(())
            }
            Err(error) => {
                self.is_usable = false;
                self.note(Call::Failed);
                Err(error)
            }
        }
    }

    fn spool(&self) -> Option<Spool> {
        self.spool.as_ref()?.share().ok()
    }

    fn name(&mut self, number: u64, file: &SyncedFile) -> Result<(), BodyFault> {
        match self.rename(file, number) {
            Ok(()) => {
                self.note(Call::Made(number));
                let whole = Closed::Whole(Snapshot::of(file));
                self.note(Call::Closed(number, whole));
                Ok(())
            }
            Err(error) => Err(self.refuse_name(number, error)),
        }
    }

    fn read_at(&mut self, number: u64, at: usize, buf: &mut [u8]) -> Result<usize, BodyFault> {
        match self.read(number, at, buf) {
            Ok(n) => {
                let read = Notes::of_bytes(&buf[..n]);
                self.note(Call::Read(number, at as u64, buf.len() as u64, read));
                Ok(n)
            }
            Err(error) => Err(self.refuse(number, error)),
        }
    }

    fn remove(&mut self, number: u64) -> Result<(), BodyFault> {
        match self.remove_file(number) {
            Ok(()) => {
                self.note(Call::Removed(number));
                Ok(())
            }
            Err(error) => Err(self.refuse(number, error)),
        }
    }

    fn numbers(&mut self, alloc: Global) -> Result<Vec<u64>, BodyFault> {
        match self.list_all(alloc) {
            Ok(numbers) => {
                self.note(Call::Listed(Snapshot::of(&numbers)));
                Ok(numbers)
            }
            Err(error) => Err(self.fail(error)),
        }
    }
}

impl<S: Start, H: Holds> Lends for FolderShelf<S, H> {
    fn lend(&self, number: u64) -> io::Result<BodyReader> {
        let counter = self.counter.share()?;
        let path = self.path_of(number)?;
        Ok(BodyReader::new(&self.rt, number, path, counter, self.spool()))
    }

    fn take_back(&mut self, reader: BodyReader) {
        let number = reader.number();
        self.note(Call::Whole(number, reader.into_came()));
    }
}
