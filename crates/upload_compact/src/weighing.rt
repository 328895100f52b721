//! How much of a journal goes as it is written anew, by its records alone.
ghost use Rattle.std.specs.Prelude.{IsTrue};
ghost use Rattle.journal.specs.Journal.{disk_of};
ghost use Rattle.journal.specs.Reads.{OnlyReads};

use crate::numbers::files_in;
use journal::{Error, Journal, Looked, Machine};
use sqlite_disk::Disk;
use std::alloc::{AllocError, Global};
use std::collections::BTreeMap;
use std::io::{self, ErrorKind};
use upload_journal::{BodyFile, Entry, KeptAnswer, KeptAsk, KeptExchange, ReadError, read_entry};
use upload_names::{BlobDigest, UploadRef};
use upload_service::Limits;

/// Records, and the files of bodies that they name. A number stays at 2^64 - 1 once there.
#[derive(Clone, Copy, Debug, PartialEq, Eq)]
pub struct Amount {
    /// How many bytes the records have.
    pub records: u64,
    /// How many files they name.
    pub files: u64,
    /// How many bytes these files have.
    pub in_files: u64,
}

impl Amount {
    /// Nothing.
    fn none() -> Amount {
        Amount {
            records: 0,
            files: 0,
            in_files: 0,
        }
    }

    /// A record of so many bytes, which names these files.
    fn of(bytes: usize, files: &[BodyFile]) -> Amount {
        let mut in_files = 0u64;
        for file in files {
            in_files = in_files.saturating_add(file.len);
        }
        Amount {
            records: bytes as u64,
            files: files.len() as u64,
            in_files,
        }
    }

    /// Both together.
    pub fn and(self, other: Amount) -> Amount {
        Amount {
            records: self.records.saturating_add(other.records),
            files: self.files.saturating_add(other.files),
            in_files: self.in_files.saturating_add(other.in_files),
        }
    }

    /// What is left of it without another.
    fn without(self, other: Amount) -> Amount {
        Amount {
            records: self.records.saturating_sub(other.records),
            files: self.files.saturating_sub(other.files),
            in_files: self.in_files.saturating_sub(other.in_files),
        }
    }
}

/// What the records of a journal come to.
#[derive(Clone, Copy, Debug, PartialEq, Eq)]
pub struct Weight {
    /// Those that a blob or an open upload needs, and their files.
    pub needed: Amount,
    /// The others, and theirs: they go as the journal is written anew.
    pub dead: Amount,
    /// How many records are no entries: they are damaged.
    pub unread: u64,
    /// How the journal ends, and whether others are lost before it.
    pub looked: Looked,
}

/// What an open upload has.
#[derive(Clone, Copy)]
struct Open {
    amount: Amount,
    /// The moment of its opening or of its last chunk, in seconds.
    seen: u64,
}

/// What blobs and open uploads have, as far as the records of a journal were weighed.
#[derive(Drop)]
pub(crate) struct Scales {
    alloc: Global,
    limits: Limits,
    uploads: BTreeMap<UploadRef, Open>,
    blobs: BTreeMap<BlobDigest, Amount>,
    /// The records by which further repositories have a blob.
    mounts: Amount,
    all: Amount,
    /// The last moment, in seconds.
    moment: u64,
    unread: u64,
}

impl Scales {
    pub(crate) fn new(alloc: Global, limits: Limits) -> Scales {
        Scales {
            alloc,
            limits,
            uploads: BTreeMap::new(alloc),
            blobs: BTreeMap::new(alloc),
            mounts: Amount::none(),
            all: Amount::none(),
            moment: 0,
            unread: 0,
        }
    }

    /// Takes an entry, whose text has so many bytes.
    fn take(&mut self, bytes: usize, entry: &Entry) -> Result<(), AllocError> {
        let amount = Amount::of(bytes, files_in(entry));
        self.all = self.all.and(amount);
        match entry {
            Entry::Exchange(exchange) => self.exchange(amount, exchange),
            Entry::NumbersUpTo(_) => Ok(()),
            Entry::MomentsUpTo(moment) => {
                self.moment = self.moment.max(*moment);
                Ok(())
            }
        }
    }

    /// Takes an exchange.
    fn exchange(&mut self, amount: Amount, exchange: &KeptExchange) -> Result<(), AllocError> {
        let now = exchange.now;
        self.moment = self.moment.max(now);
        match exchange.answer {
            KeptAnswer::Begun(at) => {
                self.leave_idle(now);
                self.put(at, amount, now)
            }
            KeptAnswer::Taken(_) => match &exchange.ask {
                KeptAsk::Chunk { at, .. } => {
                    let before = self.uploads.get(at).map_or(Amount::none(), |it| it.amount);
                    self.put(*at, before.and(amount), now)
                }
                _ => Ok(()),
            },
            KeptAnswer::Stored(digest) => self.stored(amount, &exchange.ask, digest),
        }
    }

    /// An upload has so much now.
    fn put(&mut self, at: UploadRef, amount: Amount, now: u64) -> Result<(), AllocError> {
        self.uploads.insert(at, Open { amount, seen: now })?;
        Ok(())
    }

    /// Has the idle uploads leave if there are as many as there may be: those of the service leave then too.
    fn leave_idle(&mut self, now: u64) {
        let max_idle = self.limits.max_idle;
        if self.uploads.len() >= self.limits.max_open as usize {
            self.uploads
                .retain(|_, upload| !upload.is_idle(max_idle, now));
        }
    }

    /// A repository has a blob. One that was there before is in the files of the last.
    fn stored(
        &mut self,
        amount: Amount,
        ask: &KeptAsk,
        digest: BlobDigest,
    ) -> Result<(), AllocError> {
        let amount = match ask {
            KeptAsk::Mount { .. } => {
                self.mounts = self.mounts.and(amount);
                return Ok(());
            }
            KeptAsk::Close { at, .. } => match self.uploads.remove(at) {
                Some(upload) => upload.amount.and(amount),
                None => amount,
            },
            _ => amount,
        };
        self.blobs.insert(digest, amount)?;
        Ok(())
    }

    /// A blob is to be left out.
    pub(crate) fn forget(&mut self, digest: &BlobDigest) {
        let _ = self.blobs.remove(digest);
    }

    /// What the records come to. The gate behind the last batch may be shut.
    pub(crate) fn weight(&self, looked: Looked) -> Weight {
        let needed = self.needed();
        Weight {
            needed,
            dead: self.all.without(needed),
            unread: self.unread,
            looked,
        }
    }

    /// What blobs, and uploads that aren't idle, have.
    fn needed(&self) -> Amount {
        let mut needed = self.mounts;
        for amount in self.blobs.values() {
            needed = needed.and(*amount);
        }
        for upload in self.uploads.values() {
            if !upload.is_idle(self.limits.max_idle, self.moment) {
                needed = needed.and(upload.amount);
            }
        }
        needed
    }
}

impl Open {
    /// Whether it took nothing for more than `max_idle` seconds.
    fn is_idle(&self, max_idle: u64, now: u64) -> bool {
        now.saturating_sub(self.seen) > max_idle
    }
}

impl Machine for Scales {
    // It is for people, and for who decides whether a journal is worth to be written anew.
    ghost steps = { λ _ _ _ _. Unit {0} };

    ghost has_refused = { λ _. Unit {0} };

    fn apply(&mut self, _time: u64, bytes: &[u8]) -> io::Result<()> {
        match read_entry(self.alloc, bytes) {
            Ok(entry) => self.take(bytes.len(), &entry)?,
            Err(ReadError::NoMemory) => return Err(ErrorKind::OutOfMemory.into()),
            Err(ReadError::Fault(_)) => self.unread = self.unread.saturating_add(1),
        }
        Ok(())
    }
}

/// How much of a journal of a service with these limits would go as it is written anew, as its records stand
/// (`Journal::look`). Nothing is written, and no body is read.
///
/// An error is one of `Journal::look`.
pub fn weigh<D: Disk>(
    alloc: Global,
    journal: &mut Journal<D>,
    limits: Limits,
) -> Result<Weight, Error>
    ensures reads { IsTrue (D.Disk.is_usable (disk_of journal.old))
        → OnlyReads D.Disk (disk_of journal.old) (disk_of journal.new) }
{
    let mut scales = Scales::new(alloc, limits);
    let looked = match journal.look(alloc, &mut scales) {
        Ok(looked) => looked,
        Err(error) => return Err(error),
    };
    Ok(scales.weight(looked))
}
