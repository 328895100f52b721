//! What a GET hands out of a large blob is what is stored, and no copy.
ghost use Rattle.std.specs.Prelude.{◌≡◌, IfOk};
ghost use Rattle.std.specs.List.{concat};

use crate::granted::Granted;
use crate::part::Part;
use crate::stretch::Stretch;
use std::alloc::{AllocError, Global};
use std::marker::Model;
use upload_names::Bytes;

/// The bytes of a stored blob, seen as one list. It holds the stretches that the blob is stored in, which it shares.
#[derive(Drop)]
pub struct BlobBytes {
    stretches: Vec<Stretch>,
}

impl Model for BlobBytes {
    ghost use Rattle.std.specs.Prelude.{List, ℕ};
    ghost use Rattle.std.specs.List.{concat};

    ghost Value = { List ℕ };

    ghost view = { λ a. concat a.stretches.items };
}

impl BlobBytes {
    /// The bytes of these stretches.
    pub(crate) fn of_stretches(stretches: Vec<Stretch>) -> BlobBytes
        ensures { result ≡ concat stretches.items }
    {
        BlobBytes { stretches }
    }

    /// A text of one part.
    pub fn of(alloc: Global, bytes: Bytes) -> Result<BlobBytes, AllocError>
        ensures { IfOk result (λ whole. whole ≡ bytes) }
    {
        let Ok(part) = Part::of(alloc, Granted::unlimited(bytes.into_vec())) else {
            return Err(AllocError);
        };
        let mut stretches = Vec::new(alloc);
        stretches.push(Stretch::here(part))?;
        Ok(BlobBytes { stretches })
    }

    /// The stretches, in their order.
    pub fn stretches(&self) -> &[Stretch]
        ensures { concat result.now ≡ self.now }
    {
        self.stretches.as_slice()
    }
}
