//! What a shelf is told of the bodies that it will be asked for.
use std::alloc::{AllocError, Global};
use upload_names::{Algorithm, UploadRef};

/// A file that is likely to be asked for.
#[derive(Clone, Copy, Debug, PartialEq, Eq)]
pub struct HintedFile {
    /// Its number.
    pub number: u64,
    /// How many bytes it has.
    pub len: u64,
    /// Its place among all that is likely to be asked for, in that order.
    pub place: u64,
}

/// The close of an upload whose bodies are hinted.
#[derive(Clone, Copy)]
pub struct HintedClose {
    /// The upload.
    pub at: UploadRef,
    /// What the upload is hashed by.
    pub algorithm: Algorithm,
    /// Whether the last file has its body. Without one what the upload has received is asked for.
    pub has_file: bool,
    /// Its place among all that is likely to be asked for, in that order.
    pub place: u64,
}

/// What files are to each other that one thread reads.
#[derive(Clone, Copy)]
pub enum Bond {
    /// Each is a body by itself.
    Apart,
    /// They are one body, one behind another. It has one place.
    OneBody,
    /// They are the bodies of an upload that is closed.
    OneUpload(HintedClose),
}

/// Bodies that are likely to be asked for, in the order of their files. Others may be asked for between them. Nothing
/// rests on it but the time that its reader takes.
#[derive(Drop)]
pub struct Hint {
    pub files: Vec<HintedFile>,
    pub bond: Bond,
    /// What each body will be hashed by, if its hash is of use: that of an upload is hashed by the algorithm of its
    /// close.
    pub hashed: Option<Algorithm>,
}

impl Hint {
    /// How many bytes the files have.
    pub(crate) fn len(&self) -> u64 {
        let mut len: u64 = 0;
        for file in self.files.iter() {
            len = len.saturating_add(file.len);
        }
        len
    }

    /// A copy.
    pub fn copy(&self, alloc: Global) -> Result<Hint, AllocError> {
        Ok(Hint {
            files: Vec::from_slice(alloc, self.files.as_slice())?,
            bond: self.bond,
            hashed: self.hashed,
        })
    }
}
