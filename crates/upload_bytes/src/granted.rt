//! Bytes with the right to hold them.
ghost use Rattle.std.specs.Prelude.{◌≡◌, ◌==◌, ◌++◌, ℕ, List, [], length, take, IfOk, OnOk, OnErr};
ghost use Rattle.upload_bytes.specs.Room.{Covers};

use crate::room::Grant;
use std::alloc::{AllocError, Global};
use std::marker::Model;
use std::mem;

/// Bytes, and a grant that covers them. They are seen as the list of them.
#[derive(Drop)]
pub struct Granted {
    bytes: Vec<u8>,
    grant: Grant,
}

impl Model for Granted {
    ghost use Rattle.std.specs.Prelude.{List, ℕ, length};
    ghost use Rattle.upload_bytes.specs.Room.{Covers};

    ghost Value = { List ℕ };

    ghost view = { λ a. a.bytes.items };

    ghost invariant = { λ a. Covers a.grant (length a.bytes.items) };
}

impl Granted {
    /// No bytes, under a grant. It takes no memory.
    pub(crate) fn none(alloc: Global, grant: Grant) -> Granted
        ensures { result ≡ [] }
    {
        Granted {
            bytes: Vec::new(alloc),
            grant,
        }
    }

    /// The bytes of a vector, which is moved and not copied, without a limit.
    pub(crate) fn unlimited(bytes: Vec<u8>) -> Granted
        ensures { result ≡ bytes.items }
    {
        Granted {
            bytes,
            grant: Grant::unlimited(),
        }
    }

    /// The same bytes under another grant.
    pub(crate) fn under(self, grant: Grant) -> Granted
        requires { Covers grant (length self) }
        ensures { result ≡ self }
    {
        let Granted { bytes, .. } = self;
        Granted { bytes, grant }
    }

    /// Whether a limit counts them.
    pub(crate) fn is_limited(&self) -> bool {
        self.grant.is_limited()
    }

    /// How many bytes there are.
    pub fn len(&self) -> usize
        ensures { result ≡ length self.now }
    {
        self.bytes.len()
    }

    /// Whether there are none.
    pub fn is_empty(&self) -> bool
        ensures { result ≡ (length self.now == 0) }
    {
        self.bytes.is_empty()
    }

    /// The bytes, in place.
    pub fn as_slice(&self) -> &[u8]
        ensures { result.now ≡ self.now }
    {
        self.bytes.as_slice()
    }

    /// Makes room for so many bytes beside them. An `Err` says that there is none. Nothing that is seen changes.
    pub(crate) fn reserve(&mut self, more: usize) -> Result<(), AllocError>
        ensures { self.new ≡ self.old }
    {
        let Some(len) = self.bytes.len().checked_add(more) else {
            return Err(AllocError);
        };
        self.grant.cover(len as u64)?;
        self.bytes.reserve(more)?;
        Ok(())
    }

    /// Puts bytes behind them. An `Err` says that there is no room or no memory, and changes nothing that is seen.
    pub(crate) fn extend(&mut self, piece: &[u8]) -> Result<(), AllocError>
        ensures ok { OnOk result (self.new ≡ self.old ++ piece.now) }
        ensures err { OnErr result (self.new ≡ self.old) }
    {
        let Some(len) = self.bytes.len().checked_add(piece.len()) else {
            return Err(AllocError);
        };
        self.grant.cover(len as u64)?;
        self.bytes.extend_from_slice(piece)?;
        Ok(())
    }

    /// Puts others behind them, with what these are granted: copied, or moved if there are none before them. An `Err`
    /// says that there is no memory, and changes nothing that is seen.
    pub(crate) fn join(&mut self, others: Granted) -> Result<(), AllocError>
        ensures ok { OnOk result (self.new ≡ self.old ++ others) }
        ensures err { OnErr result (self.new ≡ self.old) }
    {
        if self.bytes.is_empty() {
            *self = others;
            return Ok(());
        }
        let Granted { bytes, grant } = others;
        self.bytes.extend_from_slice(bytes.as_slice())?;
        self.grant.join(grant);
        Ok(())
    }

    /// Leaves the first ones alone.
    pub(crate) fn truncate(&mut self, len: usize)
        ensures { self.new ≡ take len self.old }
    {
        self.bytes.truncate(len);
    }

    /// Gives back what they don't need: spare room, if the allocator takes it, and what they are granted beyond their
    /// number. Nothing that is seen changes.
    pub(crate) fn shrink(&mut self)
        ensures { self.new ≡ self.old }
    {
        self.bytes.shrink_to_fit();
        self.grant.lower(self.bytes.len() as u64);
    }
}
