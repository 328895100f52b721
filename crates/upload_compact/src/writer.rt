//! Entries, written into a new journal.
use crate::fault::CompactFault;
use journal::{Batch, Error, Journal, Machine};
use sqlite_disk::Disk;
use std::alloc::Global;
use std::io::{self, ErrorKind};
use upload_journal::{BodyFile, Draft, moments_text, numbers_text};
use upload_service::{Answer, Ask};
use upload_store::StoreFault;

/// A batch is written once it has so many bytes.
const MOST: usize = 8_388_608;

/// What no record is for: a new journal has none.
#[derive(Drop)]
struct Nothing;

impl Machine for Nothing {
    ghost steps = { λ _ _ _ _. Unit {0} };

    ghost has_refused = { λ _. Unit {0} };

    fn apply(&mut self, _time: u64, _bytes: &[u8]) -> io::Result<()> {
        Err(ErrorKind::AlreadyExists.into())
    }
}

/// What can't be written.
fn not_written(error: Error) -> CompactFault {
    CompactFault::New(StoreFault::Journal(error))
}

/// A new journal, and the entries that are to be written into it.
#[derive(Drop)]
pub struct Writer<N: Disk> {
    pub alloc: Global,
    journal: Journal<N>,
    batch: Batch,
    /// How many bytes the entries of the batch have.
    size: usize,
    /// The time of the batch, in seconds since 1970.
    time: u64,
    /// How many entries there are.
    records: u64,
}

/// A new journal that was written.
#[derive(Drop)]
pub struct Written<N: Disk> {
    pub journal: Journal<N>,
    /// How many entries it has.
    pub records: u64,
}

impl<N: Disk + Drop> Writer<N> {
    /// Begins with a file that has no batch.
    pub fn begin(alloc: Global, journal: Journal<N>) -> Result<Writer<N>, CompactFault> {
        let mut journal = journal;
        if let Err(error) = journal.recover(alloc, &mut Nothing) {
            return Err(not_written(error));
        }
        Ok(Writer {
            alloc,
            journal,
            batch: Batch::new(alloc),
            size: 0,
            time: 0,
            records: 0,
        })
    }

    /// Adds an entry to the batch of this time.
    fn add(&mut self, time: u64, text: &[u8]) -> Result<(), CompactFault> {
        if time != self.time || self.size >= MOST {
            self.flush()?;
        }
        self.time = time;
        if self.batch.add(text).is_err() {
            return Err(CompactFault::NoMemory);
        }
        self.size = self.size.saturating_add(text.len());
        self.records = self.records.saturating_add(1);
        Ok(())
    }

    /// Writes the batch, if it has entries.
    fn flush(&mut self) -> Result<(), CompactFault> {
        if self.size > 0 {
            if let Err(error) = self.journal.append(&self.batch, self.time) {
                return Err(not_written(error));
            }
        }
        self.batch.clear();
        self.size = 0;
        Ok(())
    }

    /// Adds an entry by which the numbers up to this one are used up.
    pub fn use_up(&mut self, time: u64, number: u32) -> Result<(), CompactFault> {
        self.add(time, &numbers_text(number))
    }

    /// Adds an entry that promises the moments up to this one.
    pub fn promise(&mut self, time: u64, moment: u64) -> Result<(), CompactFault> {
        self.add(time, &moments_text(moment))
    }

    /// Adds the entry of a request, whose body is in these files, or in the entry if there are none.
    pub fn put(
        &mut self,
        time: u64,
        noted: &Noted,
        files: &[BodyFile],
        answer: &Answer,
    ) -> Result<(), CompactFault> {
        if !Draft::fits(&noted.ask, files) {
            return Err(CompactFault::NotTheSame);
        }
        let draft = match Draft::of(self.alloc, &noted.ask, files, &noted.secret, noted.moment) {
            Ok(Some(draft)) => draft,
            Ok(None) => return Err(CompactFault::NotTheSame),
            Err(_) => return Err(CompactFault::NoMemory),
        };
        let Some(text) = draft.finish(answer) else {
            return Err(CompactFault::NotTheSame);
        };
        self.add(time, &text)
    }

    /// Writes what is left, and gives the journal.
    pub fn finish(self) -> Result<Written<N>, CompactFault> {
        let mut writer = self;
        writer.flush()?;
        let Writer {
            alloc: _alloc,
            journal,
            batch: _batch,
            size: _size,
            time: _time,
            records,
        } = writer;
        Ok(Written { journal, records })
    }
}

/// A request with its secret, and its moment.
#[derive(Drop)]
pub struct Noted {
    pub ask: Ask,
    pub secret: [u8; 12],
    /// The moment when it is served, in seconds.
    pub moment: u64,
}
