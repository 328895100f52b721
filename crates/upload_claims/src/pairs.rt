//! Which repository is claimed to have which blob.
ghost use Rattle.std.specs.Prelude.{◌≡◌, OnOk, OnErr};
ghost use Rattle.std.specs.FinSet as set;
ghost use Rattle.upload_claims.specs.Saved.{SavesPairs};

use crate::change::Change;
use crate::saving::put_pairs;
use std::alloc::{AllocError, Global};
use std::collections::BTreeSet;
use std::marker::Model;
use upload_names::{BlobDigest, RepoName};

/// The names of repositories, each with the digest of a blob that it is claimed to have, seen as a set.
#[derive(Drop)]
pub struct Pairs {
    rows: BTreeSet<(RepoName, BlobDigest)>,
}

impl Model for Pairs {
    ghost use Rattle.std.specs.FinSet as set;
    ghost use Rattle.std.specs.FinSet.{FinSet};
    ghost use Rattle.upload_service.specs.Machine.{pair_cmp};
    ghost use Rattle.upload_service.specs.Codes.{pair_code};

    ghost Value = { FinSet pair_cmp };

    ghost coded = { set.code pair_code };

    ghost view = { λ a. set.from_list a.rows.keys };
}

impl Pairs {
    /// No pairs. It takes no memory.
    pub fn new(alloc: Global) -> Pairs
        ensures { result ≡ set.empty }
    {
        Pairs {
            rows: BTreeSet::new(alloc),
        }
    }

    /// Whether a repository has a blob.
    pub fn contains(&self, pair: &(RepoName, BlobDigest)) -> bool
        ensures { result ≡ set.contains self.now pair.now }
    {
        self.rows.contains(pair)
    }

    /// Puts the changes that restore them. An `Err` may have put some.
    pub fn save(&self, alloc: Global, out: &mut Vec<Change>) -> Result<(), AllocError>
        ensures { OnOk result (SavesPairs out.old.items out.new.items self.now) }
    {
        put_pairs(alloc, out, &self.rows)
    }

    /// A repository has a blob. An `Err` changes nothing.
    pub fn insert(&mut self, name: RepoName, digest: BlobDigest) -> Result<(), AllocError>
        ensures ok { OnOk result (self.new ≡ set.insert self.old (name, digest)) }
        ensures err { OnErr result (self.new ≡ self.old) }
    {
        self.rows.insert((name, digest))?;
        Ok(())
    }
}
