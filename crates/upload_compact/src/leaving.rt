//! What a new journal leaves out: the blobs of repositories that nothing refers to.
ghost use Rattle.std.specs.Prelude.{◌≡◌, ◌<◌, ℕ, List, false, IfOk, OnOk};
ghost use Rattle.std.specs.List.{All};
ghost use Rattle.upload_names.specs.Digest.{Digest};
ghost use Rattle.upload_compact.specs.Leaving.{IsNotReferenced};

use crate::survey::Tables;
use std::alloc::{AllocError, Global};
use std::collections::{BTreeMap, BTreeSet};
use std::mem;
use upload_names::{BlobDigest, RepoName};

/// A repository, and the digest of a blob that it has.
pub type Pair = (RepoName, BlobDigest);

/// Which pairs stay: those that something refers to, and those that are young.
#[derive(Drop)]
pub struct Leaving {
    referenced: BTreeSet<Pair>,
    /// A pair stays too if a batch of this time or later has it, in seconds since 1970.
    since: u64,
}

impl Leaving {
    /// Nothing is referred to so far. What batches from this time on have stays, in seconds since 1970.
    pub fn new(alloc: Global, since: u64) -> Leaving
        ensures { (pair : List ℕ × Digest) → IsNotReferenced result pair }
    {
        Leaving {
            referenced: BTreeSet::new(alloc),
            since,
        }
    }

    /// Notes that something refers to a repository's blob. An `Err` says that there is no memory.
    pub fn refer(&mut self, name: RepoName, digest: BlobDigest) -> Result<(), AllocError>
        ensures referred { OnOk result (¬ (IsNotReferenced self.new (name, digest))) }
        ensures others { (pair : List ℕ × Digest) → IsNotReferenced self.new pair → IsNotReferenced self.old pair }
    {
        self.referenced.insert((name, digest))?;
        Ok(())
    }

    /// Whether a pair stays, of which the last batch has this time.
    fn keeps(&self, pair: &Pair, time: u64) -> bool
        ensures referred { result ≡ false → IsNotReferenced self.now pair.now }
        ensures young { result ≡ false → time < self.now.since }
    {
        self.referenced.contains(pair) || time >= self.since
    }
}

impl Tables {
    /// Leaves out the pairs that needn't stay, and gives them. An `Err` says that there is no memory.
    pub(crate) fn leave_out(&mut self, leaving: &Leaving) -> Result<Vec<Pair>, AllocError>
        ensures { IfOk result (λ gone. All (IsNotReferenced leaving.now) gone.items) }
    {
        let mut gone = Vec::new(self.alloc);
        let holders = mem::replace(&mut self.holders, BTreeMap::new(self.alloc));
        for (digest, names) in holders {
            self.leave_out_of(leaving, digest, names, &mut gone)?;
        }
        Ok(gone)
    }

    /// The same of one blob, which these repositories have.
    fn leave_out_of(
        &mut self,
        leaving: &Leaving,
        digest: BlobDigest,
        names: BTreeMap<RepoName, u64>,
        gone: &mut Vec<Pair>,
    ) -> Result<(), AllocError>
        ensures { OnOk result (All (IsNotReferenced leaving.now) gone.old.items
            → All (IsNotReferenced leaving.now) gone.new.items) }
    {
        let mut left = BTreeMap::new(self.alloc);
        for (name, time) in names {
            let pair = (name, digest);
            if leaving.keeps(&pair, time) {
                left.insert(pair.0, time)?;
            } else {
                gone.push(pair)?;
            }
        }
        if left.is_empty() {
            let _ = self.places.remove(&digest);
        } else {
            self.holders.insert(digest, left)?;
        }
        Ok(())
    }
}
