//! Where the bytes of each blob and of each open upload are, as the entries of a journal tell.
ghost use Rattle.std.specs.Prelude.{◌≡◌, ◌⊎◌, ℕ, OnOk, IfOk, IsTrue, Contains};
ghost use Rattle.journal.specs.Journal.{disk_of, kept, line_of};
ghost use Rattle.upload_store.specs.Found.{entry_numbers};
ghost use Rattle.upload_compact.specs.Numbers.{Has, HasNone};
ghost use Rattle.upload_compact.specs.Surveys.{NamesMore, IsSurveyOf};

use crate::numbers::{Numbers, files_in};
use journal::{Error, Journal, Machine};
use sqlite_disk::Disk;
use std::alloc::{AllocError, Global};
use std::collections::BTreeMap;
use std::io::{self, ErrorKind};
use upload_bytes::Pieces;
use upload_journal::{
    BodyFile, Entry, KeptAnswer, KeptAsk, KeptBody, KeptExchange, ReadError, read_entry,
};
use upload_names::{BlobDigest, RepoName, UploadRef};
use upload_service::Limits;
use upload_store::{Hints, most_ahead};

/// Bytes that an upload received.
#[derive(Drop)]
pub enum Piece {
    /// They are this file.
    File(BodyFile),
    /// They were in records.
    Here(Vec<u8>),
}

/// Where bytes of a blob are.
#[derive(Clone, Copy)]
pub enum Place {
    /// They are this file.
    File(BodyFile),
    /// So many are in records.
    Here(u64),
}

/// An open upload.
#[derive(Drop)]
pub struct Upload {
    pub name: RepoName,
    /// The secret of its reference.
    pub secret: [u8; 12],
    pub pieces: Vec<Piece>,
    /// The moment of its opening or of its last chunk, in seconds.
    pub seen: u64,
}

impl Upload {
    /// Whether it took nothing for more than `max_idle` seconds.
    fn is_idle(&self, max_idle: u64, now: u64) -> bool {
        now.saturating_sub(self.seen) > max_idle
    }

    /// What it has received.
    fn into_pieces(self) -> Vec<Piece> {
        let Upload {
            name: _name,
            secret: _secret,
            pieces,
            seen: _seen,
        } = self;
        pieces
    }
}

/// What the records of a journal leave.
#[derive(Drop)]
pub struct Tables {
    pub alloc: Global,
    pub limits: Limits,
    /// The open uploads.
    pub uploads: BTreeMap<UploadRef, Upload>,
    /// Where the bytes of each blob are of which some are in files.
    pub places: BTreeMap<BlobDigest, Vec<Place>>,
    /// The repositories that have each blob, with the latest time of the batches that said so.
    pub holders: BTreeMap<BlobDigest, BTreeMap<RepoName, u64>>,
}

impl Tables {
    fn new(alloc: Global, limits: Limits) -> Tables {
        Tables {
            alloc,
            limits,
            uploads: BTreeMap::new(alloc),
            places: BTreeMap::new(alloc),
            holders: BTreeMap::new(alloc),
        }
    }

    /// Takes in what an exchange changed.
    fn note(&mut self, time: u64, exchange: KeptExchange) -> Result<(), AllocError> {
        let KeptExchange {
            ask,
            secret,
            now,
            answer,
        } = exchange;
        match ask {
            KeptAsk::Opening { name } => self.begin(name, secret, now, answer),
            KeptAsk::Mount {
                name,
                digest,
                source: _source,
            } => match answer {
                KeptAnswer::Stored(_) => self.hold(name, digest, time),
                _ => self.begin(name, secret, now, answer),
            },
            KeptAsk::Single { name, digest, body } => {
                let mut pieces = Vec::new(self.alloc);
                put_body(self.alloc, &mut pieces, body)?;
                self.store(name, digest, &pieces, time)
            }
            KeptAsk::Chunk {
                name: _name,
                at,
                range: _range,
                body,
            } => self.take(at, now, body),
            KeptAsk::Close {
                name,
                at,
                range: _range,
                digest,
                body,
            } => self.close(name, at, digest, body, time),
        }
    }

    /// Has the idle uploads leave if there are as many as there may be: those of the service leave then too.
    fn leave_idle(&mut self, now: u64) {
        let max_idle = self.limits.max_idle;
        if self.uploads.len() >= self.limits.max_open as usize {
            self.uploads
                .retain(|_, upload| !upload.is_idle(max_idle, now));
        }
    }

    /// An upload was begun.
    fn begin(
        &mut self,
        name: RepoName,
        secret: [u8; 12],
        now: u64,
        answer: KeptAnswer,
    ) -> Result<(), AllocError> {
        let KeptAnswer::Begun(at) = answer else {
            return Ok(());
        };
        self.leave_idle(now);
        let upload = Upload {
            name,
            secret,
            pieces: Vec::new(self.alloc),
            seen: now,
        };
        self.uploads.insert(at, upload)?;
        Ok(())
    }

    /// An upload took a chunk.
    fn take(&mut self, at: UploadRef, now: u64, body: KeptBody) -> Result<(), AllocError> {
        let Some(upload) = self.uploads.get_mut(&at) else {
            return Ok(());
        };
        upload.seen = now;
        put_body(self.alloc, &mut upload.pieces, body)
    }

    /// An upload was closed, and its blob is stored.
    fn close(
        &mut self,
        name: RepoName,
        at: UploadRef,
        digest: BlobDigest,
        body: KeptBody,
        time: u64,
    ) -> Result<(), AllocError> {
        let mut pieces = match self.uploads.remove(&at) {
            Some(upload) => upload.into_pieces(),
            None => Vec::new(self.alloc),
        };
        put_body(self.alloc, &mut pieces, body)?;
        self.store(name, digest, &pieces, time)
    }

    /// A blob of these pieces is stored, and a repository has it.
    fn store(
        &mut self,
        name: RepoName,
        digest: BlobDigest,
        pieces: &[Piece],
        time: u64,
    ) -> Result<(), AllocError> {
        let places = places_of(self.alloc, pieces)?;
        if places.is_empty() {
            let _ = self.places.remove(&digest);
        } else {
            self.places.insert(digest, places)?;
        }
        self.hold(name, digest, time)
    }

    /// A repository has a blob.
    fn hold(&mut self, name: RepoName, digest: BlobDigest, time: u64) -> Result<(), AllocError> {
        if let Some(holders) = self.holders.get_mut(&digest) {
            let before = holders.get(&name).map_or(0, |before| *before);
            holders.insert(name, time.max(before))?;
            return Ok(());
        }
        let mut holders = BTreeMap::new(self.alloc);
        holders.insert(name, time)?;
        self.holders.insert(digest, holders)?;
        Ok(())
    }
}

/// Puts bytes that are in a record behind others.
fn put_here(alloc: Global, pieces: &mut Vec<Piece>, bytes: &[u8]) -> Result<(), AllocError> {
    if bytes.is_empty() {
        return Ok(());
    }
    if let Some(Piece::Here(last)) = pieces.last_mut() {
        last.extend_from_slice(bytes)?;
        return Ok(());
    }
    pieces.push(Piece::Here(Vec::from_slice(alloc, bytes)?))?;
    Ok(())
}

/// Puts a body behind others.
fn put_body(alloc: Global, pieces: &mut Vec<Piece>, body: KeptBody) -> Result<(), AllocError> {
    match body {
        KeptBody::Here(body) => {
            let Pieces { parts, last } = body.into_pieces();
            for part in parts.iter() {
                put_here(alloc, pieces, part.as_slice())?;
            }
            put_here(alloc, pieces, last.as_slice())
        }
        KeptBody::InFiles(files) => {
            for file in files.as_slice() {
                pieces.push(Piece::File(*file))?;
            }
            Ok(())
        }
    }
}

/// Where these pieces are, or nothing if all are in records.
fn places_of(alloc: Global, pieces: &[Piece]) -> Result<Vec<Place>, AllocError> {
    let mut places = Vec::new(alloc);
    let mut in_files = false;
    for piece in pieces {
        match piece {
            Piece::File(file) => {
                in_files = true;
                places.push(Place::File(*file))?;
            }
            Piece::Here(bytes) => places.push(Place::Here(bytes.len() as u64))?,
        }
    }
    if !in_files {
        places.clear();
    }
    Ok(places)
}

/// What the records of a journal leave, as far as they were surveyed.
#[derive(Drop)]
pub struct Survey {
    pub tables: Tables,
    /// The numbers of the files that entries name.
    pub named: Numbers,
    /// How many records there are.
    pub records: u64,
    /// Which bodies a replay of them asks for.
    pub hints: Hints,
}

impl Survey {
    pub(crate) fn new(alloc: Global, limits: Limits) -> Survey
        ensures { HasNone result.named }
    {
        Survey {
            tables: Tables::new(alloc, limits),
            named: Numbers::none(alloc),
            records: 0,
            hints: Hints::new(alloc, most_ahead(None)),
        }
    }

    /// Takes in an entry.
    fn note(&mut self, time: u64, entry: Entry) -> Result<(), AllocError>
        ensures only { (n : ℕ) → Has self.new.named n
            → Has self.old.named n ⊎ Contains (entry_numbers entry) n }
    {
        self.named.add_files(files_in(&entry))?;
        self.hints.note(&entry);
        match entry {
            Entry::Exchange(exchange) => self.tables.note(time, exchange),
            Entry::NumbersUpTo(_) | Entry::MomentsUpTo(_) => Ok(()),
        }
    }
}

impl Machine for Survey {
    // Of what it leaves nothing is said but which files are named: the rest is compared once it is written.
    ghost steps = { λ old time text new. NamesMore old text new };

    ghost has_refused = { λ _. Unit {0} };

    fn apply(&mut self, time: u64, bytes: &[u8]) -> io::Result<()> {
        self.records = self.records.saturating_add(1);
        match read_entry(self.tables.alloc, bytes) {
            Ok(entry) => self.note(time, entry)?,
            Err(ReadError::NoMemory) => return Err(ErrorKind::OutOfMemory.into()),
            Err(ReadError::Fault(_)) => {}
        }
        Ok(())
    }
}

/// Surveys what the records of a journal leave, of a service with these limits. Of what is no entry nothing is taken
/// in. The journal is recovered for that, as `Journal::recover` does.
pub fn survey_of<D: Disk>(
    alloc: Global,
    journal: &mut Journal<D>,
    limits: Limits,
) -> Result<Survey, Error>
    ensures survey { IfOk result (λ survey. IsTrue (D.Disk.is_clean (disk_of journal.new))
        → IsSurveyOf (kept journal.old) survey) }
    ensures same { OnOk result (IsTrue (D.Disk.is_clean (disk_of journal.new))
        → kept journal.new ≡ kept journal.old) }
    ensures line { line_of journal.new ≡ line_of journal.old }
    ensures clean { IsTrue (D.Disk.is_clean (disk_of journal.new))
        → IsTrue (D.Disk.is_clean (disk_of journal.old)) }
{
    let mut survey = Survey::new(alloc, limits);
    if let Err(error) = journal.recover(alloc, &mut survey) {
        return Err(error);
    }
    Ok(survey)
}
