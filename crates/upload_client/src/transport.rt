//! Where a client's asks go.
ghost use Rattle.std.specs.Prelude.{◌≡◌, IfOk};
ghost use Rattle.upload_client.specs.AskText.{CanBeWritten, ask_of_chunk};

use crate::heard::Heard;
use std::alloc::{AllocError, Global};
use upload_bytes::Body;
use upload_names::{RepoName, UploadRef};
use upload_service::{Ask, Extent};

/// A chunk of an upload, whose name and bytes are lent.
#[derive(Clone, Copy)]
pub struct LentChunk<'a> {
    pub name: &'a RepoName,
    pub at: UploadRef,
    /// Where the bytes begin and end in the blob.
    pub range: Extent,
    pub body: &'a [u8],
}

impl LentChunk<'_> {
    /// The ask of the chunk, with a copy of its name and its bytes.
    pub fn to_ask(&self, alloc: Global) -> Result<Ask, AllocError>
        ensures { IfOk result (λ ask. ask ≡ ask_of_chunk self.now) }
    {
        let name = self.name.copy(alloc)?;
        let body = Body::of(alloc, self.body.to_vec(alloc)?);
        Ok(Ask::Chunk {
            name,
            at: self.at,
            range: self.range,
            body,
        })
    }
}

/// Where asks go, and replies may come from.
pub trait Transport {
    ghost use Rattle.std.specs.Prelude.{◌≡◌, IfOk, OnErr, Option};
    ghost use Rattle.upload_service.specs.declared.ask.Ask.{Ask};
    ghost use Rattle.upload_client.specs.declared.heard.Heard.{Heard};

    // What one ask may do: the state before it, the ask, what is heard, and the state after it.
    ghost asked: { Self → Ask → Option Heard → Self → Type 0 };

    /// Asks, and says what was heard, or `None` if no reply was. The ask isn't `Refused`, and its
    /// range isn't `Bad`.
    fn ask(&mut self, ask: Ask) -> Option<Heard>
        requires { CanBeWritten ask }
        ensures { asked self.old ask result self.new };

    /// Asks the same of a chunk that is lent. `Err` is out of memory for a copy of it, if one is wanted; nothing was
    /// asked then.
    fn ask_chunk(&mut self, chunk: &LentChunk<'_>) -> Result<Option<Heard>, AllocError>
        requires { CanBeWritten (ask_of_chunk chunk.now) }
        ensures asked { IfOk result
            (λ heard. asked self.old (ask_of_chunk chunk.now) heard self.new) }
        ensures unasked { OnErr result (self.new ≡ self.old) };
}
