// Records that are to be added together: all of them or none.
ghost use Rattle.std.specs.Prelude.{◌≡◌, ◌+◌, ◌<◌, ◌^◌, [], ◌∷◌, ◌++◌, length, OnOk, OnErr};
ghost use Rattle.journal.specs.Format.{block, blocks, records, number_bytes, AreShort};

use crate::head::HEAD_LEN;
use crate::sectors::{SECTOR, whole};
use std::alloc::{AllocError, Global};

/// Records in memory, as they are to stand in the file.
#[derive(Drop)]
pub struct Batch {
    bytes: Vec<u8>,
    ghost whole: { bytes.items ≡ blocks (records bytes.items) },
    ghost short: { AreShort (records bytes.items) },
}

impl Batch {
    ghost use Rattle.journal.specs.Batch.{batch_records, batch_size};

    /// One without records.
    pub fn new(alloc: Global) -> Batch
        ensures { batch_records result ≡ [] }
    {
        Batch {
            bytes: Vec::new(alloc),
        }
    }

    /// Adds a record at the end. At `Err`, which says that memory is short, the batch is as it was.
    pub fn add(&mut self, bytes: &[u8]) -> Result<(), AllocError>
        ensures ok { OnOk result (batch_records self.new ≡ batch_records self.old
            ++ bytes.now ∷ []) }
        ensures err { OnErr result (batch_records self.new ≡ batch_records self.old) }
    {
        put_block(&mut self.bytes, bytes)
    }

    /// Empties it, and keeps its memory.
    pub fn clear(&mut self)
        ensures { batch_records self.new ≡ [] }
    {
        self.bytes.clear();
    }

    /// How many bytes of the file it takes.
    pub fn size(&self) -> usize
        ensures { result ≡ batch_size self.now }
    {
        whole(HEAD_LEN + self.bytes.len()) + SECTOR
    }

    /// Its records as they are to stand in the file.
    pub(crate) fn bytes(&self) -> &[u8]
        ensures { result.now ≡ self.now.bytes.items }
    {
        &self.bytes
    }
}

fn put_block(out: &mut Vec<u8>, bytes: &[u8]) -> Result<(), AllocError>
    ensures ok { OnOk result (out.new.items ≡ out.old.items ++ block bytes.now) }
    ensures err { OnErr result (out.new.items ≡ out.old.items) }
    ensures short { length bytes.now < 2 ^ 64 }
{
    let len = out.len();
    out.extend_from_slice(&(bytes.len() as u64).to_be_bytes())?;
    if let Err(error) = out.extend_from_slice(bytes) {
        out.truncate(len);
        return Err(error);
    }
    Ok(())
}
