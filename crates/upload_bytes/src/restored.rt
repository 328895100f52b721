//! Bytes that are read back from files, for an upload or a blob that was there before.
ghost use Rattle.std.specs.Prelude.{◌≡◌, ◌++◌, ◌≤◌, List, ℕ, [], length, IfOk, IfSome};
ghost use Rattle.upload_names.specs.Digest.{content_digest};
ghost use Rattle.upload_names.specs.declared.digest.Algorithm.{Algorithm as By};
ghost use Rattle.upload_bytes.specs.Restored.{HoldsIfThere};
ghost use Rattle.upload_bytes.specs.Running.{HoldsBy};

use crate::blob::Blob;
use crate::hashing::Running;
use crate::in_files::Reading;
use crate::received::Received;
use crate::spool::Spool;
use http_wire::Given;
use std::alloc::Global;
use std::fs;
use std::io::{self, ErrorKind};
use std::marker::Model;
use std::os::unix::fs::FileExt;
use upload_names::{Algorithm, BlobDigest};

/// So many bytes of a file are read at once.
const PIECE: usize = 1_048_576;

/// The bytes of files, one after another, as they were read back, seen as the bytes. They were hashed as they came, and
/// none of them stays in memory.
#[derive(Drop)]
pub struct Restored {
    alloc: Global,
    spool: Spool,
    reading: Reading,
    /// What came, for contracts; and how many bytes they are.
    came: Given,
    len: u64,
    sha256: Option<Running>,
    sha512: Option<Running>,
}

impl Model for Restored {
    ghost use Rattle.std.specs.Prelude.{List, ℕ};
    ghost use Rattle.upload_bytes.specs.Restored.{IsRestored};

    ghost Value = { List ℕ };

    ghost view = { λ a. a.came };

    ghost invariant = { λ a. IsRestored a.sha256 a.sha512 a.reading a.len a.came };
}

impl Restored {
    /// No bytes yet. What comes of the files to which the shelf of this spool gave numbers is hashed for a blob of a
    /// digest by this algorithm; or for an upload, if there is none.
    pub fn new(alloc: Global, spool: Spool, algorithm: Option<Algorithm>) -> Restored
        ensures { result ≡ [] }
    {
        Restored {
            alloc,
            spool,
            reading: Reading::none(),
            came: Given::none(),
            len: 0,
            sha256: hash_for(algorithm, Algorithm::Sha256),
            sha512: hash_for(algorithm, Algorithm::Sha512),
        }
    }

    /// With all that comes of the file of this number behind them: so many bytes.
    ///
    /// An error is the system's; `InvalidData` says that this is no plain file, or has another length, and
    /// `OutOfMemory` that there is no memory for a piece.
    pub fn and(self, number: u64, len: u64) -> io::Result<Restored>
        ensures { IfOk result (λ more. (came : List ℕ) × (more ≡ self ++ came)) }
    {
        let file = self.spool.open_numbered(self.alloc, number, len)?;
        let mut piece = vec![in self.alloc; 0u8; len.min(PIECE as u64) as usize]?;
        let read = self.read(&file, &mut piece, len)?;
        read.ended(number).ok_or(ErrorKind::OutOfMemory.into())
    }

    /// With so many bytes of a file behind them, a piece after another.
    fn read(self, file: &fs::File, piece: &mut Vec<u8>, len: u64) -> io::Result<Restored>
        ensures { IfOk result (λ more. (came : List ℕ) × (more ≡ self ++ came)) }
    {
        let mut read = self;
        let mut at: u64 = 0;
        'pieces: while at < len {
            let count = (len - at).min(piece.len() as u64) as usize;
            if count == 0 {
                return Err(ErrorKind::InvalidData.into());
            }
            let piece = &mut piece.as_mut_slice()[..count];
            file.read_exact_at(piece, at)?;
            read = read.with(piece)?;
            at += count as u64;
        }
        Ok(read)
    }

    /// With a piece behind them. An error says that there are more than can be counted.
    fn with(self, piece: &[u8]) -> io::Result<Restored>
        ensures { IfOk result (λ more. more ≡ self ++ piece.now) }
    {
        let Restored {
            alloc,
            spool,
            reading,
            came,
            len,
            sha256,
            sha512,
        } = self;
        let Some(len) = len.checked_add(piece.len() as u64) else {
            return Err(ErrorKind::InvalidData.into());
        };
        let Some(reading) = reading.and(piece) else {
            return Err(ErrorKind::InvalidData.into());
        };
        Ok(Restored {
            alloc,
            spool,
            reading,
            came: came.and(piece),
            len,
            sha256: hashed(sha256, piece),
            sha512: hashed(sha512, piece),
        })
    }

    /// The same, of which what came of the last file is all of it. None if there is no memory.
    fn ended(self, number: u64) -> Option<Restored>
        ensures { IfSome result (λ same. same ≡ self) }
    {
        let Restored {
            alloc,
            spool,
            reading,
            came,
            len,
            sha256,
            sha512,
        } = self;
        let reading = reading.ended(alloc, &spool, number)?;
        Some(Restored {
            alloc,
            spool,
            reading,
            came,
            len,
            sha256,
            sha512,
        })
    }

    /// A blob of these bytes, which is in the files alone, and its digest by this algorithm. None if they weren't hashed
    /// by it, there are none, or there is no memory.
    pub fn into_blob(self, algorithm: Algorithm) -> Option<(Blob, BlobDigest)>
        ensures blob { IfSome result (λ it. it.0 ≡ self) }
        ensures digest { IfSome result (λ it. it.1 ≡ content_digest algorithm self) }
    {
        let Restored {
            alloc,
            reading,
            len: _len,
            sha256,
            sha512,
            ..
        } = self;
        let hash = match algorithm {
            Algorithm::Sha256 => sha256?,
            Algorithm::Sha512 => sha512?,
        };
        let blob = Blob::of_files(alloc, reading.into_files()?)?;
        Some((blob, digest_of(hash)))
    }

    /// What an upload received that has these bytes, which are in the files alone. None if they were hashed for a blob, or
    /// there are none.
    pub fn into_received(self) -> Option<Received>
        ensures { IfSome result (λ received. received ≡ self) }
    {
        let Restored {
            alloc,
            reading,
            came,
            len,
            sha256,
            sha512,
            ..
        } = self;
        let files = reading.into_files()?;
        Some(Received::of_files(alloc, files, came, len, sha256?, sha512?))
    }
}

/// A hash of no bytes by this algorithm, if what is read is to be hashed by it.
fn hash_for(wanted: Option<Algorithm>, algorithm: Algorithm) -> Option<Running>
    ensures { HoldsIfThere algorithm result [] }
{
    match wanted {
        Some(other) if other != algorithm => None,
        _ => Some(Running::new(algorithm)),
    }
}

/// A hash, if there is one, with a piece taken in.
fn hashed(hash: Option<Running>, piece: &[u8]) -> Option<Running>
    ensures { (by : By) (before : List ℕ) → HoldsIfThere by hash before
        → HoldsIfThere by result (before ++ piece.now) }
{
    Some(hash?.with(piece))
}

/// The digest of what a hash holds.
fn digest_of(hash: Running) -> BlobDigest
    requires { (by : By) × (bytes : List ℕ) × HoldsBy by hash bytes }
    ensures { (by : By) (bytes : List ℕ) → HoldsBy by hash bytes
        → result ≡ content_digest by bytes }
{
    match hash {
        Running::Sha256(hash) => BlobDigest::of_hashed(hash),
        Running::Sha512(hash) => BlobDigest::of_hashed_512(hash),
    }
}
