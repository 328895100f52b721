//! A folder and its files on the system's disk, and the shelf in it: what the system answers, also where something else
//! stands at a name.
ghost use Rattle.std.specs.Prelude.{None, true};

use crate::ended::{Done, Ended, holds, is_done, is_over};
use bodies::{BodyFault, FolderShelf, Holds, Lends, Shelf, begin, finish};
use journal_file::{FileFrom, Folder, OpenFault, Wary, look_at, make_file};
use sqlite_disk::Disk;
use std::alloc::Global;
use std::os::unix::fs::symlink;
use std::process::Abort;
use std::test::Fail;
use std::{fs, io};

/// A folder that is new has no bodies.
#[derive(Drop)]
pub struct NoBodies;

impl Holds for NoBodies {
    ghost bodies = { λ _. None };

    ghost is_kept = { λ _. true };
}

pub type BodyShelf = FolderShelf<Wary, NoBodies>;

/// A new folder of this name.
pub fn new_folder(rt: &HostRuntime, name: &str) -> Result<Folder, OpenFault> {
    let _ = fs::remove_dir_all(rt, name);
    Folder::open(rt, name)
}

/// What stands at these names is neither opened nor looked at as a file, nor is one made in its place.
#[test]
fn a_file_has_a_name_of_its_own(rt: HostRuntime) -> Result<(), Fail> {
    let folder = new_folder(&rt, "named")?;
    fs::create_dir(&rt, "named/folder")?;
    symlink(&rt, "folder", "named/link")?;
    symlink(&rt, "none", "named/dangling")?;
    for name in ["folder", "link", "dangling"] {
        let path = folder.path_of(&rt, name)?;
        let opened = folder.open_file(&rt, name, Wary);
        let looked = look_at(&rt, path.as_str(), Wary);
        let made: io::Result<FileFrom<Wary>> = make_file(&rt, path.as_str());
        holds(&rt, matches!(opened, Err(OpenFault::NotAFile)), &name);
        holds(&rt, matches!(looked, Err(OpenFault::NotAFile)), &name);
        holds(&rt, made.is_err(), &name);
    }
    fs::remove_dir_all(&rt, "named")?;
    Ok(())
}

/// A file that is written from its third byte on: what lies past its end isn't read, and no byte is written past 2^63.
#[test]
fn a_file_has_what_was_written(rt: HostRuntime) -> Result<(), Fail> {
    let folder = new_folder(&rt, "written")?;
    let mut file = folder.open_file(&rt, "file", Wary)?;
    file.write_at(3, b"abc")?;
    file.sync()?;
    let mut back = [1; 6];
    file.read_at(0, &mut back)?;
    holds(&rt, back == *b"\0\0\0abc", &"it is read");
    holds(
        &rt,
        file.read_at(1, &mut back).is_err(),
        &"a byte is lacking",
    );
    holds(&rt, file.write_at(1 << 63, b"a").is_err(), &"too far");
    file.set_len(4)?;
    holds(&rt, file.len()? == 4, &"it is cut");
    fs::remove_dir_all(&rt, "written")?;
    Ok(())
}

/// Puts a body on a shelf.
pub fn put<S: Shelf>(shelf: &mut S, number: u64, bytes: &[u8]) -> Result<(), BodyFault> {
    let mut body = begin(shelf, number)?;
    body.append(bytes)?;
    finish(shelf, body)
}

/// Puts the files on a shelf that entries name.
pub fn stock<S: Shelf>(shelf: &mut S) -> Result<(), BodyFault> {
    put(shelf, 7, b"a")?;
    put(shelf, 8, b"bc")
}

pub fn new_shelf(rt: &HostRuntime, folder: &Folder) -> Result<BodyShelf, OpenFault> {
    FolderShelf::open(rt, folder, "bodies")
}

/// A number has one file, or none.
#[test]
fn a_number_is_written_once(rt: HostRuntime) -> Result<(), Fail> {
    let folder = new_folder(&rt, "once")?;
    let mut shelf = new_shelf(&rt, &folder)?;
    put(&mut shelf, 8, b"abc")?;
    let read = shelf.read_at(9, 0, &mut [0; 4]);
    holds(&rt, matches!(read, Err(BodyFault::Missing)), &"a read");
    let removed = shelf.remove(9);
    holds(
        &rt,
        matches!(removed, Err(BodyFault::Missing)),
        &"a removal",
    );
    let begun = begin(&mut shelf, 8);
    holds(&rt, matches!(begun, Err(BodyFault::Taken)), &"a second one");
    fs::remove_dir_all(&rt, "once")?;
    Ok(())
}

/// The numbers of a shelf that has the two files, and one more.
fn check_numbers(rt: &impl Abort, alloc: Global, shelf: &mut BodyShelf) -> Done {
    put(shelf, 0x1ab, b"abc")?;
    shelf.remove(7)?;
    let mut numbers = shelf.numbers(alloc)?;
    numbers.sort_unstable();
    holds(
        rt,
        numbers.as_slice() == [8, 0x1ab].as_slice(),
        &"what is there",
    );
    Ok(())
}

/// A body is a file in the folder of its low byte. It is lent, and what is read of it is counted.
fn check_shelf(host: &HostRuntime, rt: &impl Abort) -> Done {
    let folder = new_folder(host, "shelf")?;
    let mut shelf = new_shelf(host, &folder)?;
    stock(&mut shelf)?;
    check_numbers(rt, host.alloc(), &mut shelf)?;
    let found = fs::read(host, "shelf/bodies/ab/427")?;
    holds(rt, found.as_slice() == b"abc".as_slice(), &"its file");
    let counter = shelf.counter().share()?;
    let mut reader = shelf.lend(0x1ab)?;
    let mut back = [0; 4];
    let read = reader.read(&mut back)?;
    let is_over = reader.read(&mut back)? == 0;
    holds(
        rt,
        read == 3 && is_over && counter.count() == 3,
        &"it is lent",
    );
    fs::remove_dir_all(host, "shelf")?;
    Ok(())
}

#[test]
fn a_refused_growth_changes_no_shelf(rt: HostRuntime) {
    if !is_over(&rt, check_shelf(&rt, &rt)) {
        is_done(&rt, check_shelf(&rt, &rt));
    }
}
