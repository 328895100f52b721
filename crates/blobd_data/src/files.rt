//! The files of bodies in a data directory that may be another server's.
use crate::open::BODIES;
use journal::{Journal, Looked};
use journal_file::OpenFault;
use sqlite_disk::Disk;
use std::fs;
use std::io::{self, ErrorKind};
use upload_bytes::FOLDERS;
use upload_compact::Amount;
use upload_records::Named;
use upload_store::StoreFault;

/// A file of a body.
#[derive(Clone, Copy)]
pub(crate) struct BodyThere {
    number: u64,
    /// How many bytes it has.
    len: u64,
}

/// The number that a file is named by, if it is in its folder.
fn number_of(name: &str, low: u64) -> Option<u64> {
    let number = name.parse::<u64>().ok()?;
    let is_plain = name == "0" || !(name.starts_with('0') || name.starts_with('+'));
    (is_plain && number % FOLDERS == low).then_some(number)
}

/// Adds the files of a folder. One that is removed meanwhile isn't there.
fn list(rt: &HostRuntime, folder: &str, low: u64, files: &mut Vec<BodyThere>) -> io::Result<()> {
    let entries = match fs::read_dir(rt, folder) {
        Err(error) if error.kind() == ErrorKind::NotFound => return Ok(()),
        entries => entries?,
    };
    for entry in entries {
        let Some(number) = number_of(entry?.file_name(), low) else {
            continue;
        };
        let path = format!(in rt.alloc(); "{folder}/{number}")?;
        match fs::symlink_metadata(rt, path.as_str()) {
            Ok(found) => files.push(BodyThere {
                number,
                len: found.len(),
            })?,
            Err(error) if error.kind() == ErrorKind::NotFound => {}
            Err(error) => return Err(error),
        }
    }
    Ok(())
}

/// The files of bodies in the data directory at `path`. It has none if it has no folder of them.
pub(crate) fn list_files(rt: &HostRuntime, path: &str) -> Result<Vec<BodyThere>, OpenFault> {
    let mut files = Vec::new(rt.alloc());
    for low in 0..FOLDERS {
        let folder = format!(in rt.alloc(); "{path}/{BODIES}/{low:02x}").map_err(io::Error::from)?;
        list(rt, folder.as_str(), low, &mut files)?;
    }
    Ok(files)
}

/// How many of these files are named by none of these records, and how many bytes they have.
pub(crate) fn amount_but(files: &[BodyThere], named: &Named) -> Amount {
    let mut amount = Amount {
        records: 0,
        files: 0,
        in_files: 0,
    };
    for file in files {
        if !named.has(file.number) {
            amount.files = amount.files.saturating_add(1);
            amount.in_files = amount.in_files.saturating_add(file.len);
        }
    }
    amount
}

/// How many bytes those of these files have that records name.
pub(crate) fn bytes_in(files: &[BodyThere], named: &Named) -> u64 {
    let mut bytes: u64 = 0;
    for file in files {
        if named.has(file.number) {
            bytes = bytes.saturating_add(file.len);
        }
    }
    bytes
}

/// Notes the numbers of the files that a journal names, as it stands, and says how it ends.
pub(crate) fn note_named<D: Disk>(
    rt: &HostRuntime,
    journal: &mut Journal<D>,
    named: &mut Named,
) -> Result<Looked, StoreFault> {
    match journal.look(rt.alloc(), named) {
        Ok(looked) => Ok(looked),
        Err(error) => Err(StoreFault::Journal(error)),
    }
}
