//! Bytes with several owners, in any threads: what is stored, hashed and handed out is one memory, and no copy.
ghost use Rattle.std.specs.Prelude.{◌≡◌, ◌++◌, List, ℕ, IsTrue, IsFalse, IfOk, IfErr, OnOk};
ghost use Rattle.std.specs.List.{concat};

use crate::granted::Granted;
use sha2::Digest;
use std::alloc::{AllocError, Global};
use std::marker::Model;
use std::mem;
use std::sync::Arc;

/// A part of a body or of a blob, seen as its bytes. Its owners share one memory, which goes with the last of them.
#[derive(Drop)]
pub struct Part {
    bytes: Arc<Granted, Global>,
}

impl Model for Part {
    ghost use Rattle.std.specs.Prelude.{List, ℕ};
    ghost use Rattle.std.specs.Arc.{arc_value};

    ghost Value = { List ℕ };

    ghost view = { λ a. arc_value a.bytes };
}

impl Part {
    /// These bytes, which are moved and not copied. An `Err` gives them back.
    pub fn of(alloc: Global, bytes: Granted) -> Result<Part, Granted>
        ensures ok { IfOk result (λ part. part ≡ bytes) }
        ensures err { IfErr result (λ back. back ≡ bytes) }
    {
        match Arc::new(alloc, bytes) {
            Ok(bytes) => Ok(Part { bytes }),
            Err(failed) => Err(failed.value),
        }
    }

    /// Trades the bytes for others, if they have one owner. Says whether it did; if not, nothing changes.
    pub fn trade(&mut self, bytes: &mut Granted) -> bool
        ensures traded { IsTrue result → (self.new ≡ bytes.old) × (bytes.new ≡ self.old) }
        ensures kept { IsFalse result → (self.new ≡ self.old) × (bytes.new ≡ bytes.old) }
    {
        match Arc::get_mut(&mut self.bytes) {
            Some(held) => {
                mem::swap(held, bytes);
                true
            }
            None => false,
        }
    }

    /// One more owner of the same bytes. It takes no memory. An `Err` comes only if there are more owners than can be
    /// counted.
    pub fn share(&self) -> Result<Part, AllocError>
        ensures { IfOk result (λ part. part ≡ self.now) }
    {
        let bytes = Arc::try_clone(&self.bytes)?;
        Ok(Part { bytes })
    }

    /// Whether nobody else owns them.
    pub(crate) fn has_one_owner(&self) -> bool {
        Arc::strong_count(&self.bytes) == 1
    }

    /// Whether a room counts them.
    pub(crate) fn is_limited(&self) -> bool {
        self.bytes.is_limited()
    }

    /// The bytes, in place.
    pub fn as_slice(&self) -> &[u8]
        ensures { result.now ≡ self.now }
    {
        self.bytes.as_slice()
    }
}

/// Has a hash take parts in.
pub fn take_in<H: Digest>(hash: &mut H, parts: &[Part])
    ensures { (before : List ℕ) → H.holds hash.old before
        → H.holds hash.new (before ++ concat parts.now) }
{
    for part in parts {
        hash.update(part.as_slice());
    }
}

/// One more owner of each part.
pub fn share_all(alloc: Global, parts: &[Part]) -> Result<Vec<Part>, AllocError>
    ensures { IfOk result (λ shares. shares.items ≡ parts.now) }
{
    let mut shares = Vec::with_capacity(alloc, parts.len())?;
    share_into(&mut shares, parts)?;
    Ok(shares)
}

/// Puts one more owner of each part behind others. After an `Err` some were put there.
pub fn share_into(shares: &mut Vec<Part>, parts: &[Part]) -> Result<(), AllocError>
    ensures { OnOk result (shares.new.items ≡ shares.old.items ++ parts.now) }
{
    for part in parts {
        shares.push(part.share()?)?;
    }
    Ok(())
}
