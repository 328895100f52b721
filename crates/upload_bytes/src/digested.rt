//! What is left of what an upload received, once its bytes were let go.
ghost use Rattle.std.specs.Prelude.{◌≡◌, ◌↔◌, ◌++◌, List, ℕ, length, IsTrue};
ghost use Rattle.upload_names.specs.Digest.{HasDigest};
ghost use Rattle.upload_names.specs.declared.digest.Algorithm.TheVariants.{Sha256 as BySha256, Sha512 as BySha512};
ghost use Rattle.upload_bytes.specs.Running.{HoldsBy};

use crate::body::Body;
use crate::hashing::Running;
use crate::received::Received;
use sha2::Digest;
use std::marker::Model;
use std::snapshot::Snapshot;
use upload_names::{Algorithm, BlobDigest};

/// The bytes that an upload received and that were let go. At run time it knows how many they were, and their hashes by
/// both algorithms; contracts see them.
#[derive(Drop)]
pub struct Digested {
    bytes: Snapshot<Received>,
    len: u64,
    sha256: Running,
    sha512: Running,
}

impl Model for Digested {
    ghost use Rattle.std.specs.Prelude.{List, ℕ};

    ghost Value = { List ℕ };

    ghost use Rattle.upload_bytes.specs.Uploads.{IsDigested};

    ghost view = { λ a. a.bytes.value };

    ghost invariant = { λ a. IsDigested a.sha256 a.sha512 a.len a.bytes.value };
}

impl Digested {
    /// What is left of these bytes, with hashes that hold them.
    pub(crate) fn of(received: &Received, sha256: Running, sha512: Running) -> Digested
        requires sha256 { HoldsBy BySha256 sha256 received.now }
        requires sha512 { HoldsBy BySha512 sha512 received.now }
        ensures { result ≡ received.now }
    {
        Digested {
            bytes: Snapshot::of(received),
            len: received.len(),
            sha256,
            sha512,
        }
    }

    /// How many bytes they were.
    pub fn len(&self) -> u64
        ensures { result ≡ length self.now }
    {
        self.len
    }

    /// Whether they and a last body have a digest, by the algorithm of that digest.
    pub fn has_digest(&self, digest: &BlobDigest, body: &Body) -> bool
        ensures { IsTrue result ↔ HasDigest (self.now ++ body.now) digest.now }
    {
        match digest.algorithm() {
            Algorithm::Sha256 => match self.sha256.copy() {
                Running::Sha256(hash) => finish(hash, body).as_slice() == digest.as_bytes(),
                Running::Sha512(_) => unreachable!(),
            },
            Algorithm::Sha512 => match self.sha512.copy() {
                Running::Sha512(hash) => finish(hash, body).as_slice() == digest.as_bytes(),
                Running::Sha256(_) => unreachable!(),
            },
        }
    }
}

/// The digest of what a hash holds and a last body.
fn finish<H: Digest>(mut hash: H, body: &Body) -> H::Output
    ensures { (before : List ℕ) → H.holds hash before → H.digest_of (before ++ body.now) result }
{
    body.hash_into(&mut hash);
    hash.finalize()
}
