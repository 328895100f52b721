//! The blobs that are claimed, by their digests.
ghost use Rattle.std.specs.Prelude.{◌≡◌, cond, Some, OnOk, OnErr, IsSome, IsTrue};
ghost use Rattle.std.specs.FinMap as map;
ghost use Rattle.std.specs.Map.{lookup};
ghost use Rattle.std.specs.Option.{option_map};
ghost use Rattle.upload_names.specs.Digest.{Digest};
ghost use Rattle.upload_service.specs.Machine.{same_digest};
ghost use Rattle.upload_claims.specs.Fold.{grown, with_claim};
ghost use Rattle.upload_claims.specs.Saved.{SavesBlobs};
ghost use Rattle.upload_claims.specs.Kept.{blob_of, joins_from, with_one_more};

use crate::bodies::is_next;
use crate::change::{Change, Stretch};
use crate::saving::put_blobs;
use std::alloc::{AllocError, Global};
use std::collections::BTreeMap;
use std::marker::Model;
use upload_names::BlobDigest;

/// A blob that is claimed: its bodies in order.
#[derive(Drop)]
pub struct ClaimedBlob {
    pub bodies: Vec<Stretch>,
}

/// The blobs that are claimed, seen as a map from their digests.
#[derive(Drop)]
pub struct Blobs {
    stored: BTreeMap<BlobDigest, ClaimedBlob>,
}

impl Model for Blobs {
    ghost use Rattle.std.specs.Prelude.{List};
    ghost use Rattle.std.specs.FinMap as map;
    ghost use Rattle.std.specs.FinMap.{FinMap};
    ghost use Rattle.upload_names.specs.Digest.{digest_cmp};
    ghost use Rattle.upload_service.specs.Codes.{digest_code};
    ghost use Rattle.upload_service.specs.Kept.Entries.{kept_as};
    ghost use Rattle.upload_claims.specs.declared.change.Stretch.{Stretch};
    ghost use Rattle.upload_claims.specs.Codes.{bodies_code};

    ghost Value = { FinMap digest_cmp (List Stretch) };

    ghost coded = { map.code digest_code bodies_code };

    ghost use Rattle.upload_claims.specs.Kept.{blob_of};

    ghost view = { λ a. kept_as digest_cmp blob_of a.stored.entries };
}

impl Blobs {
    /// No blobs. It takes no memory.
    pub fn new(alloc: Global) -> Blobs
        ensures { result ≡ map.empty }
    {
        Blobs {
            stored: BTreeMap::new(alloc),
        }
    }

    /// These bodies are the blob of a digest. An `Err` changes nothing.
    pub fn put(&mut self, digest: BlobDigest, bodies: Vec<Stretch>) -> Result<(), AllocError>
        ensures ok { OnOk result (self.new ≡ map.insert self.old digest bodies.items) }
        ensures err { OnErr result (self.new ≡ self.old) }
    {
        self.stored.insert(digest, ClaimedBlob { bodies })?;
        Ok(())
    }

    /// Puts the changes that restore them. An `Err` may have put some.
    pub fn save(&self, out: &mut Vec<Change>) -> Result<(), AllocError>
        ensures { OnOk result (SavesBlobs out.old.items out.new.items self.now) }
    {
        let _ = self.stored.len();
        put_blobs(out, &self.stored)
    }

    /// Other bodies are the blob of a digest that has one. It takes no memory.
    pub fn put_over(&mut self, digest: &BlobDigest, bodies: Vec<Stretch>)
        requires { IsSome (map.get self.old digest.now) }
        ensures { self.new ≡ map.insert self.old digest.now bodies.items }
    {
        replace_under(&mut self.stored, digest, bodies);
    }

    /// A blob has one more body, or is lost if that doesn't come right after what it has. An `Err` changes nothing.
    pub fn join(
        &mut self,
        digest: &BlobDigest,
        from: u64,
        stretch: Stretch,
    ) -> Result<(), AllocError>
        ensures ok { OnOk result (self.new
            ≡ with_claim self.old digest.now (grown (map.get self.old digest.now) from stretch)) }
        ensures err { OnErr result (self.new ≡ self.old) }
    {
        if !joins(&self.stored, digest, from) {
            let _ = self.stored.remove(digest);
            return Ok(());
        }
        push_under(&mut self.stored, digest, stretch)
    }
}

/// Whether there is such a blob, and a body after so many bytes comes right after what it has.
fn joins(rows: &BTreeMap<BlobDigest, ClaimedBlob>, digest: &BlobDigest, from: u64) -> bool
    ensures is { result ≡ joins_from (lookup (same_digest digest.now) rows.now.entries) from }
    ensures there { IsTrue result → IsSome (lookup (same_digest digest.now) rows.now.entries) }
{
    match rows.get(digest) {
        Some(blob) => is_next(blob.bodies.as_slice(), from),
        None => false,
    }
}

/// Puts a body after what a blob has, which has to be there.
fn push_under(
    rows: &mut BTreeMap<BlobDigest, ClaimedBlob>,
    digest: &BlobDigest,
    stretch: Stretch,
) -> Result<(), AllocError>
    requires { IsSome (lookup (same_digest digest.now) rows.old.entries) }
    ensures ok { OnOk result ((q : Digest)
        → option_map blob_of (lookup (same_digest q) rows.new.entries)
        ≡ cond (same_digest digest.now q)
        (with_one_more (option_map blob_of (lookup (same_digest digest.now) rows.old.entries)) stretch)
        (option_map blob_of (lookup (same_digest q) rows.old.entries))) }
    ensures err { OnErr result ((q : Digest)
        → option_map blob_of (lookup (same_digest q) rows.new.entries)
        ≡ option_map blob_of (lookup (same_digest q) rows.old.entries)) }
{
    let Some(blob) = rows.get_mut(digest) else {
        unreachable!();
    };
    blob.bodies.push(stretch)?;
    Ok(())
}

/// Puts other bodies in the place of those that a blob has, which has to be there.
fn replace_under(
    rows: &mut BTreeMap<BlobDigest, ClaimedBlob>,
    digest: &BlobDigest,
    bodies: Vec<Stretch>,
)
    requires { IsSome (lookup (same_digest digest.now) rows.old.entries) }
    ensures { (q : Digest) → option_map blob_of (lookup (same_digest q) rows.new.entries)
        ≡ cond (same_digest digest.now q) (Some bodies.items)
        (option_map blob_of (lookup (same_digest q) rows.old.entries)) }
{
    let Some(blob) = rows.get_mut(digest) else {
        unreachable!();
    };
    blob.bodies = bodies;
}
