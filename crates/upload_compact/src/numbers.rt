//! The numbers of files that entries name.
ghost use Rattle.std.specs.Prelude.{◌≡◌, ◌⊎◌, ◌↔◌, ℕ, map, IsTrue, Contains};
ghost use Rattle.std.specs.List.{All};
ghost use Rattle.upload_journal.specs.declared.body.BodyFile.{BodyFile as File};
ghost use Rattle.upload_store.specs.Found.{entry_numbers};
ghost use Rattle.upload_compact.specs.Numbers.{Has, HasNone};

use std::alloc::{AllocError, Global};
use std::collections::BTreeSet;
use upload_journal::{BodyFile, Entry, KeptAsk, KeptBody};

/// Numbers of files.
#[derive(Drop)]
pub struct Numbers {
    set: BTreeSet<u64>,
}

impl Numbers {
    /// No number.
    pub fn none(alloc: Global) -> Numbers
        ensures { HasNone result }
    {
        Numbers {
            set: BTreeSet::new(alloc),
        }
    }

    /// How many there are.
    pub fn len(&self) -> usize {
        self.set.len()
    }

    /// Whether a number is among them.
    pub fn has(&self, number: u64) -> bool
        ensures { IsTrue result ↔ Has self.now number }
    {
        self.set.contains(&number)
    }

    /// Adds a number.
    pub fn add(&mut self, number: u64) -> Result<(), AllocError>
        ensures only { (n : ℕ) → Has self.new n → Has self.old n ⊎ (n ≡ number) }
    {
        match self.set.insert(number) {
            Ok(_) => Ok(()),
            Err(_) => Err(AllocError),
        }
    }

    /// Adds the numbers of files.
    pub fn add_files(&mut self, files: &[BodyFile]) -> Result<(), AllocError>
        ensures only { (n : ℕ) → Has self.new n
            → Has self.old n ⊎ Contains (map (λ (file : File). file.number) files.now) n }
    {
        for file in files {
            self.add(file.number)?;
        }
        Ok(())
    }

    /// Whether the numbers of these files are among them.
    pub fn have_files(&self, files: &[BodyFile]) -> bool
        ensures { IsTrue result
            → All (Has self.now) (map (λ (file : File). file.number) files.now) }
    {
        for file in files {
            if !self.has(file.number) {
                return false;
            }
        }
        true
    }
}

/// The files that an entry names.
pub fn files_in(entry: &Entry) -> &[BodyFile]
    ensures { map (λ (file : File). file.number) result.now ≡ entry_numbers entry.now }
{
    let Entry::Exchange(exchange) = entry else {
        return &[];
    };
    let body = match &exchange.ask {
        KeptAsk::Single { body, .. } => body,
        KeptAsk::Chunk { body, .. } => body,
        KeptAsk::Close { body, .. } => body,
        KeptAsk::Opening { .. } | KeptAsk::Mount { .. } => return &[],
    };
    match body {
        KeptBody::InFiles(files) => files.as_slice(),
        KeptBody::Here(_) => &[],
    }
}
