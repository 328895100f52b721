//! What an upload had received at a moment, with its hash, for who hashes what is to come behind it.
ghost use Rattle.std.specs.Prelude.{◌≡◌, ◌++◌, length, IsTrue, Some};
ghost use Rattle.std.specs.List.{concat};
ghost use Rattle.upload_bytes.specs.Running.{HoldsIfCarried};
ghost use Rattle.upload_bytes.specs.Segments.{whole};

use crate::hashing::Running;
use crate::part::Part;
use crate::segments::Segments;
use crate::shares::Shares;
use std::marker::Model;

/// The bytes that an upload had received, and a hash that holds them but for the last ones. Its parts are those of the
/// upload, which it shares. Contracts see the bytes.
#[derive(Drop)]
pub struct Front {
    settled: Vec<Part>,
    tail: Vec<u8>,
    len: u64,
    /// It holds the bytes of the parts.
    hash: Running,
}

impl Model for Front {
    ghost use Rattle.std.specs.Prelude.{List, ℕ, ◌++◌};
    ghost use Rattle.std.specs.List.{concat};

    ghost Value = { List ℕ };

    ghost use Rattle.upload_bytes.specs.Fronts.{IsFront};

    ghost view = { λ a. concat a.settled.items ++ a.tail.items };

    ghost invariant = { λ a. IsFront a.hash a.len (concat a.settled.items) a.tail.items };
}

impl Front {
    /// These parts, which a hash holds, and the last bytes: so many in all.
    pub(crate) fn of(settled: Vec<Part>, tail: Vec<u8>, len: u64, hash: Running) -> Front
        requires hash { HoldsIfCarried (Some hash) (concat settled.items) }
        requires len { len ≡ length (concat settled.items ++ tail.items) }
        ensures { result ≡ concat settled.items ++ tail.items }
    {
        Front {
            settled,
            tail,
            len,
            hash,
        }
    }

    /// How many bytes there are.
    pub fn len(&self) -> u64
        ensures { result ≡ length self.now }
    {
        self.len
    }

    /// A hash that holds all the bytes.
    pub(crate) fn hash(&self) -> Running
        ensures { HoldsIfCarried (Some result) self.now }
    {
        self.hash.copy().with(self.tail.as_slice())
    }

    /// Has shares of its parts kept.
    pub(crate) fn keep_in(&self, shares: &mut Shares) {
        shares.add(self.settled.as_slice());
    }

    /// Whether these segments still have just these bytes. They are compared, which takes much less time than to hash
    /// them.
    pub(crate) fn is_of(&self, segments: &Segments) -> bool
        ensures { IsTrue result → self.now ≡ whole segments.now }
    {
        !segments.has_gone()
            && is_same(self.tail.as_slice(), segments.tail())
            && are_same(self.settled.as_slice(), segments.settled())
    }
}

/// Whether these are parts of the same bytes, one by one.
pub(crate) fn are_same(parts: &[Part], others: &[Part]) -> bool
    ensures { IsTrue result → parts.now ≡ others.now }
{
    if parts.len() != others.len() {
        return false;
    }
    for i in 0..parts.len() {
        if !is_same(parts[i].as_slice(), others[i].as_slice()) {
            return false;
        }
    }
    true
}

/// Whether these are the same bytes.
fn is_same(bytes: &[u8], others: &[u8]) -> bool
    ensures { IsTrue result → bytes.now ≡ others.now }
{
    bytes == others
}
