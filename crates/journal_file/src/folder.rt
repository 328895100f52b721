//! A folder that is locked, and the files in it.
ghost use Rattle.std.specs.Prelude.{◌≡◌, [], IfOk, IfErr};
ghost use Rattle.journal_file.specs.Faults.{IsNamed};
ghost use Rattle.journal_file.specs.Opened.{IsJustOpened};

use crate::FileFrom;
use crate::fault::OpenFault;
use crate::host::Host;
use sqlite_disk::{Modelled, Start};
use std::fs::{self, DirBuilder, Metadata, OpenOptions};
use std::io::{self, ErrorKind};
use std::os::fd::AsRawFd;
use std::os::unix::fs::{DirBuilderExt, MetadataExt, OpenOptionsExt};
use std::path::Path;

/// A folder that no other process may open by this type until it is dropped.
#[derive(Drop)]
pub struct Folder {
    handle: fs::File,
    path: String,
}

impl Folder {
    /// Opens the folder at `path` and locks it (`flock`). One that isn't there is made, with mode 0700; the mode of one
    /// that is there stays. The folder that it is in is synced, so that a crash leaves its name.
    ///
    /// `NotAFolder`, `Denied` and `Locked` are of this folder; `Io` is anything else.
    pub fn open(rt: &HostRuntime, path: &str) -> Result<Folder, OpenFault>
        ensures named { IfErr result IsNamed }
    {
        make_folder(rt, path)?;
        let handle = fs::File::open(rt, path)?;
        if !is_at(rt, &handle.metadata()?, path)? {
            return Err(OpenFault::NotAFolder);
        }
        handle.try_lock()?;
        sync_folder(rt, parent_of(path))?;
        Ok(Folder {
            handle,
            path: copy_of(rt, path)?,
        })
    }

    /// Opens the file of this name to read and write. One that isn't there is made, with mode 0600, and holds nothing.
    /// The file and the folder are synced. `S` stands for what the file holds. Its value is used up, so that code over
    /// any `S` opens one file.
    ///
    /// `NotAFile`, `Denied` and `TooLong` are of this file; `Io` is anything else.
    pub fn open_file<S: Start>(
        &self,
        rt: &HostRuntime,
        name: &str,
        _start: S,
    ) -> Result<FileFrom<S>, OpenFault>
        ensures opened { IfOk result (IsJustOpened S.Start) }
        ensures named { IfErr result IsNamed }
    {
        let path = self.path_of(rt, name)?;
        let file = above_the_streams(open_or_make(rt, path.as_str())?)?;
        let found = file.metadata()?;
        if !found.is_file() || !is_at(rt, &found, path.as_str())? {
            return Err(OpenFault::NotAFile);
        }
        if found.len() >= 1 << 63 {
            return Err(OpenFault::TooLong);
        }
        Ok(Modelled::new(Host::settle(file, &self.handle)?, false, 0))
    }

    /// Has the file of this name stand at another name in the folder, in the place of what stood there, and syncs the
    /// folder. A crash leaves what stood there before or the file, and after `Ok` the file.
    pub fn rename(&self, rt: &HostRuntime, name: &str, other: &str) -> io::Result<()> {
        let from = self.path_of(rt, name)?;
        let to = self.path_of(rt, other)?;
        fs::rename(rt, from.as_str(), to.as_str())?;
        self.sync()
    }

    /// Removes the file of this name, if there is one. A crash may bring it back until the folder is synced.
    pub fn remove(&self, rt: &HostRuntime, name: &str) -> io::Result<()> {
        match fs::remove_file(rt, self.path_of(rt, name)?.as_str()) {
            Err(error) if error.kind() == ErrorKind::NotFound => Ok(()),
            removed => removed,
        }
    }

    /// Syncs the folder: the names in it are then on the disk.
    pub fn sync(&self) -> io::Result<()> {
        self.handle.sync_all()
    }

    /// The path of a name in it.
    pub fn path_of(&self, rt: &HostRuntime, name: &str) -> io::Result<String> {
        Ok(format!(in rt.alloc(); "{}/{name}", self.path.as_str())?)
    }
}

fn copy_of(rt: &HostRuntime, path: &str) -> io::Result<String> {
    Ok(String::from_str(rt.alloc(), path)?)
}

/// Makes a folder with mode 0700, if it isn't there. It is not on the disk before the folder that it is in is synced.
pub fn make_folder(rt: &HostRuntime, path: &str) -> Result<(), OpenFault>
    ensures named { IfErr result IsNamed }
{
    match DirBuilder::new().mode(0o700).create(rt, path) {
        Err(error) if error.kind() == ErrorKind::AlreadyExists => {}
        made => return Ok(made?),
    }
    if !fs::symlink_metadata(rt, path)?.is_dir() {
        return Err(OpenFault::NotAFolder);
    }
    Ok(())
}

/// Syncs a folder: the names in it are then on the disk.
pub fn sync_folder(rt: &HostRuntime, path: &str) -> io::Result<()> {
    fs::File::open(rt, path)?.sync_all()
}

/// Makes a file, which is empty, with mode 0600. An error of the kind `AlreadyExists` says that something stands at its
/// name.
pub fn make_file<S: Start>(rt: &HostRuntime, path: &str) -> io::Result<FileFrom<S>>
    requires empty { S.Start.db ≡ [] }
    ensures made { IfOk result (IsJustOpened S.Start) }
{
    let file = above_the_streams(new_file(rt, path)?)?;
    Ok(Modelled::new(Host::made(file), false, 0))
}

/// Opens the file at a path only to read it, as it stands: nothing is locked, made, synced or written, so it may be
/// another process's. `S` stands for what the file holds, if nobody writes to it.
///
/// `NotAFile`, `Denied` and `TooLong` are of this file; `Io` is anything else.
pub fn look_at<S: Start>(rt: &HostRuntime, path: &str, _start: S) -> Result<FileFrom<S>, OpenFault>
    ensures opened { IfOk result (IsJustOpened S.Start) }
    ensures named { IfErr result IsNamed }
{
    if !fs::symlink_metadata(rt, path)?.is_file() {
        return Err(OpenFault::NotAFile);
    }
    let file = fs::File::open(rt, path)?;
    if file.metadata()?.len() >= 1 << 63 {
        return Err(OpenFault::TooLong);
    }
    Ok(Modelled::new(Host::found(file), false, 0))
}

fn new_file(rt: &HostRuntime, path: &str) -> io::Result<fs::File> {
    OpenOptions::new()
        .read(true)
        .write(true)
        .create_new(true)
        .mode(0o600)
        .open(rt, path)
}

/// What is meant for a standard stream that was closed must not land in the file.
fn above_the_streams(file: fs::File) -> io::Result<fs::File> {
    if file.as_raw_fd() <= 2 {
        return file.try_clone();
    }
    Ok(file)
}

/// The folder that a path is in.
fn parent_of(path: &str) -> &str {
    match Path::new(path).parent() {
        Some(parent) if !parent.as_str().is_empty() => parent.as_str(),
        _ => ".",
    }
}

/// Whether what was opened stands at this path, and no link to it.
fn is_at(rt: &HostRuntime, found: &Metadata, path: &str) -> io::Result<bool> {
    let named = fs::symlink_metadata(rt, path)?;
    Ok(found.dev() == named.dev() && found.ino() == named.ino())
}

fn open_or_make(rt: &HostRuntime, path: &str) -> Result<fs::File, OpenFault>
    ensures named { IfErr result IsNamed }
{
    match new_file(rt, path) {
        Err(error) if error.kind() == ErrorKind::AlreadyExists => {}
        made => return Ok(made?),
    }
    if !fs::symlink_metadata(rt, path)?.is_file() {
        return Err(OpenFault::NotAFile);
    }
    Ok(OpenOptions::new().read(true).write(true).open(rt, path)?)
}
