//! The files of blobs: those that have their bytes already, and new ones for bytes that were in records.
ghost use Rattle.std.specs.Prelude.{◌≡◌, OnOk, IfOk};
ghost use Rattle.upload_compact.specs.Copies.{Copies, Puts};

use crate::fault::CompactFault;
use crate::numbers::Numbers;
use crate::survey::{Place, Tables};
use bodies::Shelf;
use sqlite_disk::Disk;
use std::alloc::{AllocError, Global};
use std::collections::BTreeMap;
use upload_bytes::{Blob, BlobBytes, Body, Stretch};
use upload_journal::{BodyFile, MOST_HERE};
use upload_names::BlobDigest;
use upload_service::Service;
use upload_store::{Store, StoreFault};

/// Bytes that are copied from the front of stretches, one behind another.
#[derive(Drop)]
struct Cursor<'a> {
    stretches: &'a [Stretch],
    /// How many bytes of the first stretch were copied.
    at: usize,
}

impl<'a> Cursor<'a> {
    /// Goes on by so many bytes, and copies them if that is asked for. `NotTheSame` says that they are in a file.
    fn go_on(&mut self, alloc: Global, len: u64, is_copied: bool) -> Result<Vec<u8>, CompactFault> {
        let mut bytes = Vec::new(alloc);
        let mut left = len;
        for _ in 0..u64::MAX {
            let [stretch, behind @ ..] = self.stretches else {
                break;
            };
            let Ok(whole) = stretch.as_slice() else {
                return Err(CompactFault::NotTheSame);
            };
            let rest = whole.get(self.at..).unwrap_or(&[]);
            if rest.len() as u64 > left {
                let (front, _) = rest.split_at(left as usize);
                if is_copied {
                    bytes.extend_from_slice(front)?;
                }
                self.at = self.at.saturating_add(front.len());
                break;
            }
            if is_copied {
                bytes.extend_from_slice(rest)?;
            }
            left -= rest.len() as u64;
            self.stretches = behind;
            self.at = 0;
        }
        Ok(bytes)
    }
}

/// A copy of a blob's bytes.
pub fn copy_of(alloc: Global, blob: &Blob) -> Result<Vec<u8>, CompactFault> {
    let bytes = blob.share(alloc)?;
    let mut cursor = Cursor {
        stretches: bytes.stretches(),
        at: 0,
    };
    cursor.go_on(alloc, blob.len(), true)
}

/// Puts these bytes on the shelf of a store, in a file of their own.
fn put_bytes<D: Disk, S: Shelf>(
    alloc: Global,
    store: &mut Store<D, S>,
    bytes: Vec<u8>,
) -> Result<BodyFile, StoreFault>
    ensures { Puts store.old store.new result }
{
    let body = Body::of(alloc, bytes);
    store.put_body(&body)
}

/// Puts these bytes on the shelf of a store, in a file of their own, whose number is safe from then on.
fn put_copy<D: Disk, S: Shelf>(
    alloc: Global,
    store: &mut Store<D, S>,
    safe: &mut Numbers,
    bytes: Vec<u8>,
) -> Result<BodyFile, CompactFault>
    ensures { Copies store.old store.new safe.old safe.new }
{
    let file = match put_bytes(alloc, store, bytes) {
        Ok(file) => file,
        Err(fault) => return Err(CompactFault::Old(fault)),
    };
    safe.add(file.number)?;
    Ok(file)
}

/// The file of the next bytes: the one that they are in already, or a new one if they were in records.
fn file_at<D: Disk, S: Shelf>(
    alloc: Global,
    store: &mut Store<D, S>,
    safe: &mut Numbers,
    cursor: &mut Cursor,
    place: Place,
) -> Result<BodyFile, CompactFault>
    ensures { Copies store.old store.new safe.old safe.new }
{
    match place {
        Place::File(file) => {
            let _ = cursor.go_on(alloc, file.len, false)?;
            Ok(file)
        }
        Place::Here(len) => {
            let copy = cursor.go_on(alloc, len, true)?;
            put_copy(alloc, store, safe, copy)
        }
    }
}

/// The files of bytes of which some are in files: these, and new ones of what was in records.
fn files_at<D: Disk, S: Shelf>(
    alloc: Global,
    store: &mut Store<D, S>,
    safe: &mut Numbers,
    bytes: &BlobBytes,
    places: &[Place],
) -> Result<Vec<BodyFile>, CompactFault>
    ensures { Copies store.old store.new safe.old safe.new }
{
    let mut files = Vec::new(alloc);
    let mut cursor = Cursor {
        stretches: bytes.stretches(),
        at: 0,
    };
    for place in places {
        files.push(file_at(alloc, store, safe, &mut cursor, *place)?)?;
    }
    Ok(files)
}

/// The file of a blob that was in records, and is too long for one.
fn whole_file<D: Disk, S: Shelf>(
    alloc: Global,
    store: &mut Store<D, S>,
    safe: &mut Numbers,
    blob: &Blob,
) -> Result<Vec<BodyFile>, CompactFault>
    ensures { Copies store.old store.new safe.old safe.new }
{
    let mut files = Vec::new(alloc);
    let copy = copy_of(alloc, blob)?;
    files.push(put_copy(alloc, store, safe, copy)?)?;
    Ok(files)
}

/// The files that a blob is in. None if it is to be in its entry.
fn files_of<D: Disk, S: Shelf>(
    alloc: Global,
    store: &mut Store<D, S>,
    safe: &mut Numbers,
    blob: &Blob,
    places: Option<&Vec<Place>>,
) -> Result<Vec<BodyFile>, CompactFault>
    ensures { Copies store.old store.new safe.old safe.new }
{
    if let Some(places) = places {
        let bytes = blob.share(alloc)?;
        return files_at(alloc, store, safe, &bytes, places.as_slice());
    }
    if blob.len() > MOST_HERE as u64 {
        return whole_file(alloc, store, safe, blob);
    }
    Ok(Vec::new(alloc))
}

/// Notes the files of a blob, if it has any.
fn note_files(
    all: &mut BTreeMap<BlobDigest, Vec<BodyFile>>,
    digest: BlobDigest,
    files: Vec<BodyFile>,
) -> Result<(), AllocError> {
    if !files.is_empty() {
        all.insert(digest, files)?;
    }
    Ok(())
}

/// The files of a service's blobs, but for those that are to be in their entries. Bytes that were in records are put on
/// the shelf, where they don't find room in one. The numbers of the new files are safe from then on.
pub fn settle<D: Disk, S: Shelf>(
    alloc: Global,
    store: &mut Store<D, S>,
    safe: &mut Numbers,
    service: &Service,
    tables: &Tables,
) -> Result<BTreeMap<BlobDigest, Vec<BodyFile>>, CompactFault>
    ensures { Copies store.old store.new safe.old safe.new }
{
    let mut all = BTreeMap::new(alloc);
    for digest in tables.holders.keys() {
        let Some(blob) = service.blob(digest) else {
            return Err(CompactFault::NotTheSame);
        };
        let files = files_of(alloc, store, safe, blob, tables.places.get(digest))?;
        note_files(&mut all, *digest, files)?;
    }
    Ok(all)
}
