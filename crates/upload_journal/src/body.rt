//! Where the body of a kept request is.
ghost use Rattle.std.specs.Prelude.{◌≡◌, ◌∷◌, [], ◌++◌, length, OnOk, OnErr};

use std::alloc::{AllocError, Global};
use std::marker::Model;
use upload_bytes::Body;

/// A file that has a body, or a part of one.
#[derive(Clone, Copy, Debug, PartialEq, Eq)]
pub struct BodyFile {
    /// Its number, by which it is found.
    pub number: u64,
    /// How many bytes it has.
    pub len: u64,
}

/// The files that have a body, one part behind another, seen as their list.
#[derive(Drop)]
pub struct BodyFiles {
    files: Vec<BodyFile>,
}

impl Model for BodyFiles {
    ghost use Rattle.std.specs.Prelude.{List};
    ghost use Rattle.upload_journal.specs.declared.body.BodyFile.{BodyFile};

    ghost Value = { List BodyFile };

    ghost view = { λ a. a.files.items };
}

impl BodyFiles {
    /// The files of a vector, which is moved and not copied.
    pub fn of(files: Vec<BodyFile>) -> BodyFiles
        ensures { result ≡ files.items }
    {
        BodyFiles { files }
    }

    /// The files, in place.
    pub fn as_slice(&self) -> &[BodyFile]
        ensures { result.now ≡ self.now }
    {
        &self.files
    }
}

/// The body of a kept request.
#[derive(Drop)]
pub enum KeptBody {
    /// It is in the entry, and has at most 64 KiB.
    Here(Body),
    /// It is in these files, of which there is at least one.
    InFiles(BodyFiles),
}
