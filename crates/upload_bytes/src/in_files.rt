//! Bytes of a body that files have.
ghost use Rattle.std.specs.Prelude.{◌≡◌, ◌++◌, ◌+◌, ◌<◌, ◌^◌, List, ℕ, [], length, IfOk, IfSome};
ghost use Rattle.std.specs.List.{concat};

use crate::filed::FilePart;
use crate::spool::Spool;
use crate::stretch::Stretch;
use http_wire::Given;
use std::alloc::{AllocError, Global};
use std::marker::Model;

/// Bytes in files, one after another: one file at least. They are seen as the bytes.
#[derive(Drop)]
pub struct InFiles {
    stretches: Vec<Stretch>,
}

impl Model for InFiles {
    ghost use Rattle.std.specs.Prelude.{List, ℕ, ◌<◌, length};
    ghost use Rattle.std.specs.List.{concat};

    ghost Value = { List ℕ };

    ghost view = { λ a. concat a.stretches.items };

    ghost invariant = { λ a. 0 < length a.stretches.items };
}

impl InFiles {
    /// Those of one file.
    pub(crate) fn of(alloc: Global, file: FilePart) -> Result<InFiles, AllocError>
        ensures { IfOk result (λ files. files ≡ file) }
    {
        let mut stretches = Vec::with_capacity(alloc, 1)?;
        stretches.push(Stretch::filed(file))?;
        Ok(InFiles { stretches })
    }

    /// With those of one more file behind them.
    fn and(self, file: FilePart) -> Result<InFiles, AllocError>
        ensures { IfOk result (λ files. files ≡ self ++ file) }
    {
        let InFiles { mut stretches } = self;
        stretches.push(Stretch::filed(file))?;
        Ok(InFiles { stretches })
    }

    /// How many files there are.
    pub(crate) fn count(&self) -> usize {
        self.stretches.len()
    }

    /// The stretches, in their order.
    pub(crate) fn into_stretches(self) -> Vec<Stretch>
        ensures bytes { concat result.items ≡ self }
        ensures some { 0 < length result.items }
    {
        let InFiles { stretches } = self;
        stretches
    }
}

/// What was read of files so far: those that came to their end, and what came of the next one. It is seen as the
/// bytes.
#[derive(Drop)]
pub struct Reading {
    files: Option<InFiles>,
    came: Given,
    /// So many bytes came of the next one.
    len: u64,
}

impl Model for Reading {
    ghost use Rattle.std.specs.Prelude.{◌≡◌, ◌++◌, List, ℕ, length};
    ghost use Rattle.upload_bytes.specs.InFiles.{bytes_of};

    ghost Value = { List ℕ };

    ghost view = { λ a. bytes_of a.files ++ a.came };

    ghost invariant = { λ a. a.len ≡ length a.came };
}

impl Reading {
    /// Nothing.
    pub(crate) fn none() -> Reading
        ensures { result ≡ [] }
    {
        Reading {
            files: None,
            came: Given::none(),
            len: 0,
        }
    }

    /// With a piece behind that. None if there are more bytes than can be counted.
    pub(crate) fn and(self, piece: &[u8]) -> Option<Reading>
        ensures { IfSome result (λ reading. reading ≡ self ++ piece.now) }
    {
        let Reading { files, came, len } = self;
        let len = len.checked_add(piece.len() as u64)?;
        Some(Reading {
            files,
            came: came.and(piece),
            len,
        })
    }

    /// The same, of which what came of the next file is all of it: of the one to which the shelf of this spool gave this
    /// number. None if there is no memory, or if the spool is in memory.
    pub(crate) fn ended(self, alloc: Global, spool: &Spool, number: u64) -> Option<Reading>
        ensures { IfSome result (λ reading. reading ≡ self) }
    {
        let Reading { files, came, len } = self;
        let file = FilePart::numbered(alloc, spool, number, came, len)?;
        let files = match files {
            None => InFiles::of(alloc, file).ok()?,
            Some(files) => files.and(file).ok()?,
        };
        Some(Reading {
            files: Some(files),
            came: Given::none(),
            len: 0,
        })
    }

    /// The files, if nothing was read behind the last one's end.
    pub(crate) fn into_files(self) -> Option<InFiles>
        ensures { IfSome result (λ files. files ≡ self) }
    {
        let Reading { files, len, .. } = self;
        if len == 0 { files } else { None }
    }
}
