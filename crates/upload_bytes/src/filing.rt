//! A file that has the first parts of a body while others come.
ghost use Rattle.std.specs.Prelude.{◌≡◌, ◌++◌, [], List, ℕ, IfOk};
ghost use Rattle.std.specs.List.{concat};
ghost use Rattle.upload_bytes.specs.Spools.{HasPrefix};

use crate::part::Part;
use crate::spool::{SpoolFile, SyncedFile};
use std::io;

/// A file, and how many parts of a body it has. Each call is given these parts, of which it has a prefix before the
/// call and after it. It is removed as it goes.
#[derive(Drop)]
pub struct PrefixFile {
    /// An `Err` says why it could not be written.
    file: io::Result<SpoolFile>,
    held: usize,
}

impl PrefixFile {
    /// A file that has no part yet, or why there is none.
    pub fn new(file: io::Result<SpoolFile>) -> PrefixFile
        requires { IfOk file (λ file. file ≡ []) }
        ensures { (parts : List (List ℕ)) → HasPrefix parts result }
    {
        PrefixFile { file, held: 0 }
    }

    /// Has it take in all parts.
    pub fn catch_up(self, parts: &[Part]) -> PrefixFile
        requires { HasPrefix parts.now self }
        ensures { HasPrefix parts.now result }
    {
        let PrefixFile { file, held } = self;
        PrefixFile {
            file: write_behind(file, &parts[held..]),
            held: parts.len(),
        }
    }

    /// The file with all parts and what came behind them, on the disk.
    pub fn finish(self, parts: &[Part], last: &[u8]) -> io::Result<SyncedFile>
        requires { HasPrefix parts.now self }
        ensures { IfOk result (λ file. file ≡ concat parts.now ++ last.now) }
    {
        let PrefixFile { file, held } = self;
        let mut file = write_parts(file?, &parts[held..])?;
        file.write(last)?;
        file.sync_all()
    }
}

/// Puts parts behind what a file has, if there is one.
fn write_behind(file: io::Result<SpoolFile>, parts: &[Part]) -> io::Result<SpoolFile>
    ensures { (bytes : List ℕ) → IfOk file (λ file. file ≡ bytes)
        → IfOk result (λ written. written ≡ bytes ++ concat parts.now) }
{
    match file {
        Ok(file) => write_parts(file, parts),
        Err(error) => Err(error),
    }
}

/// Puts parts behind what a file has, and each on the disk before the next, so that no long sync holds up those of
/// other files.
fn write_parts(file: SpoolFile, parts: &[Part]) -> io::Result<SpoolFile>
    ensures { IfOk result (λ written. written ≡ file ++ concat parts.now) }
{
    let mut file = file;
    for part in parts {
        file.write(part.as_slice())?;
        file.sync_data()?;
    }
    Ok(file)
}
