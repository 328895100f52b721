//! The files that records name.
ghost use Rattle.std.specs.Prelude.{◌≡◌, ◌↔◌, ℕ, ◌∷◌, [], map, true, IsTrue, OnOk};
ghost use Rattle.std.specs.List.{All};
ghost use Rattle.upload_journal.specs.declared.body.BodyFile.{BodyFile as File};
ghost use Rattle.upload_store.specs.Found.{ask_numbers, body_numbers, entry_numbers};
ghost use Rattle.upload_records.specs.Names.{Has, Notes, are_entries};

use journal::Machine;
use std::alloc::{AllocError, Global};
use std::collections::BTreeSet;
use std::io::{self, ErrorKind};
use upload_journal::{BodyFile, Entry, KeptAsk, KeptBody, ReadError, read_entry};

/// The numbers of the files that records name.
#[derive(Drop)]
pub struct Named {
    alloc: Global,
    numbers: BTreeSet<u64>,
    /// Whether each record was an entry.
    are_entries: bool,
    /// How many bytes these files have, as the entries say. It stays at 2^64 - 1 once there.
    bytes: u64,
}

impl Named {
    /// Of no records.
    pub fn new(alloc: Global) -> Named
        ensures { are_entries result ≡ true }
    {
        Named {
            alloc,
            numbers: BTreeSet::new(alloc),
            are_entries: true,
            bytes: 0,
        }
    }

    /// Whether a record names this number.
    pub fn has(&self, number: u64) -> bool
        ensures { IsTrue result ↔ Has self.now number }
    {
        self.numbers.contains(&number)
    }

    /// Whether each record was an entry, so that no other number is named.
    pub fn are_entries(&self) -> bool
        ensures { result ≡ are_entries self.now }
    {
        self.are_entries
    }

    /// How many bytes the files have that records name: for people.
    pub fn bytes(&self) -> u64 {
        self.bytes
    }

    fn note_file(&mut self, file: BodyFile) -> Result<(), AllocError>
        ensures named { OnOk result (Has self.new file.number) }
        ensures more { (n : ℕ) → Has self.old n → Has self.new n }
        ensures entries { are_entries self.new ≡ are_entries self.old }
    {
        match self.numbers.insert(file.number) {
            Ok(_) => {
                self.bytes = self.bytes.saturating_add(file.len);
                Ok(())
            }
            Err(_) => Err(AllocError),
        }
    }

    fn note_files(&mut self, files: &[BodyFile]) -> Result<(), AllocError>
        ensures named { OnOk result
            (All (Has self.new) (map (λ (file : File). file.number) files.now)) }
        ensures more { (n : ℕ) → Has self.old n → Has self.new n }
        ensures entries { are_entries self.new ≡ are_entries self.old }
    {
        for file in files {
            self.note_file(*file)?;
        }
        Ok(())
    }

    fn note_body(&mut self, body: &KeptBody) -> Result<(), AllocError>
        ensures named { OnOk result (All (Has self.new) (body_numbers body.now)) }
        ensures more { (n : ℕ) → Has self.old n → Has self.new n }
        ensures entries { are_entries self.new ≡ are_entries self.old }
    {
        match body {
            KeptBody::Here(_) => Ok(()),
            KeptBody::InFiles(files) => self.note_files(files.as_slice()),
        }
    }

    fn note_ask(&mut self, ask: &KeptAsk) -> Result<(), AllocError>
        ensures named { OnOk result (All (Has self.new) (ask_numbers ask.now)) }
        ensures more { (n : ℕ) → Has self.old n → Has self.new n }
        ensures entries { are_entries self.new ≡ are_entries self.old }
    {
        match ask {
            KeptAsk::Single { body, .. } => self.note_body(body),
            KeptAsk::Chunk { body, .. } => self.note_body(body),
            KeptAsk::Close { body, .. } => self.note_body(body),
            KeptAsk::Opening { .. } | KeptAsk::Mount { .. } => Ok(()),
        }
    }

    /// Notes the files that an entry names. At `Err` there is no memory.
    fn note(&mut self, entry: &Entry) -> Result<(), AllocError>
        ensures named { OnOk result (All (Has self.new) (entry_numbers entry.now)) }
        ensures more { (n : ℕ) → Has self.old n → Has self.new n }
        ensures entries { are_entries self.new ≡ are_entries self.old }
    {
        match entry {
            Entry::Exchange(exchange) => self.note_ask(&exchange.ask),
            Entry::NumbersUpTo(_) | Entry::MomentsUpTo(_) => Ok(()),
        }
    }
}

impl Machine for Named {
    ghost steps = { λ old time text new. Notes old (text ∷ []) new };

    // Only a want of memory refuses a record.
    ghost has_refused = { λ _. Unit {0} };

    #[tactic(auto, using(crate::proofs::Runs::noted_entry, crate::proofs::Runs::noted_fault))]
    fn apply(&mut self, _time: u64, bytes: &[u8]) -> io::Result<()> {
        match read_entry(self.alloc, bytes) {
            Ok(entry) => match self.note(&entry) {
                Ok(()) => Ok(()),
                Err(_) => Err(ErrorKind::OutOfMemory.into()),
            },
            Err(ReadError::Fault(_)) => {
                self.are_entries = false;
                Ok(())
            }
            Err(ReadError::NoMemory) => Err(ErrorKind::OutOfMemory.into()),
        }
    }
}
