//! The stored blobs by their digests, each with the repositories that have it. There is a tree for each algorithm, so
//! that a SHA-256 takes no more room than its 32 bytes, and no digest is kept twice.
ghost use Rattle.std.specs.Prelude.{◌≡◌, ◌||◌, ◌&&◌, cond, not, ℕ, List, Some, None};
ghost use Rattle.std.specs.Prelude.{IsSome, IsTrue, IfOk, IfSome, IfNone, OnOk, OnErr};
ghost use Rattle.std.specs.FinMap as map;
ghost use Rattle.std.specs.FinSet as set;
ghost use Rattle.std.specs.Arc.{arc_value};
ghost use Rattle.std.specs.Map.{lookup};
ghost use Rattle.upload_service.specs.Machine.{same};
ghost use Rattle.upload_service.specs.Forgotten.{blobs_left};
ghost use Rattle.upload_service.specs.Kept.Stock.{blob_in, is_held, is_held_alone, or_empty, digest_at};

use crate::holders::{Holders, Names};
use std::alloc::{AllocError, Global};
use std::collections::BTreeMap;
use std::marker::Model;
use std::sync::Arc;
use upload_bytes::Blob;
use upload_names::{Algorithm, BlobDigest, RepoName};

/// A stored blob and the repositories that have it.
#[derive(Drop)]
pub struct Item {
    pub blob: Blob,
    pub holders: Holders,
}

/// Where a digest's item lies: in which tree, and under which key.
#[derive(Clone, Copy)]
enum Key {
    Sha256([u8; 32]),
    Sha512([u8; 64]),
}

/// The stored blobs and their repositories, seen as the blobs by their digests and as pairs of a name and a digest.
#[derive(Drop)]
pub struct Stock {
    alloc: Global,
    names: Names,
    sha256: BTreeMap<[u8; 32], Item>,
    sha512: BTreeMap<[u8; 64], Item>,
}

impl Model for Stock {
    ghost use Rattle.upload_service.specs.Kept.Stock.{Stocked, stocked, stocked_code};

    ghost Value = { Stocked };

    ghost coded = { stocked_code };

    ghost view = { λ a. stocked a.sha256.entries a.sha512.entries };

    ghost use Rattle.upload_service.specs.Kept.Stock.{AreKnown};

    ghost invariant = { λ a. AreKnown a.names (stocked a.sha256.entries a.sha512.entries).pairs };
}

impl Stock {
    /// No blobs. It takes no memory.
    pub fn new(alloc: Global) -> Stock
        ensures { result ≡ record { blobs = map.empty; pairs = set.empty } }
    {
        Stock {
            alloc,
            names: Names::new(alloc),
            sha256: BTreeMap::new(alloc),
            sha512: BTreeMap::new(alloc),
        }
    }

    /// How many blobs are stored.
    pub fn len(&self) -> usize
        ensures { result ≡ map.len self.now.blobs }
    {
        self.sha256.len() + self.sha512.len()
    }

    /// How many bytes they have together, or the greatest number there is if they have more.
    pub fn total(&self) -> u64 {
        total_of(&self.sha256).saturating_add(total_of(&self.sha512))
    }

    /// The blob under a digest.
    pub fn get(&self, digest: &BlobDigest) -> Option<&Blob>
        ensures found { IfSome result (λ blob. map.get self.now.blobs digest.now ≡ Some blob.now) }
        ensures none { IfNone result (map.get self.now.blobs digest.now ≡ None) }
    {
        match key_of(digest) {
            Key::Sha256(key) => blob_under(&self.sha256, &key),
            Key::Sha512(key) => blob_under(&self.sha512, &key),
        }
    }

    /// Whether the repository has the blob. It takes no memory.
    pub fn contains(&self, name: &RepoName, digest: &BlobDigest) -> bool
        ensures is { result ≡ set.contains self.now.pairs (name.now, digest.now) }
        ensures there { IsTrue result → IsSome (map.get self.now.blobs digest.now) }
    {
        let Some(shared) = self.names.find(name) else {
            return false;
        };
        match key_of(digest) {
            Key::Sha256(key) => has_holder(&self.sha256, &key, shared),
            Key::Sha512(key) => has_holder(&self.sha512, &key, shared),
        }
    }

    /// Notes that a repository has a stored blob.
    pub fn mount(&mut self, name: &RepoName, digest: BlobDigest) -> Result<(), AllocError>
        requires { IsSome (map.get self.old.blobs digest) }
        ensures blobs { self.new.blobs ≡ self.old.blobs }
        ensures pairs { OnOk result
            (self.new.pairs ≡ set.insert self.old.pairs (name.now, digest)) }
        ensures err { OnErr result (self.new ≡ self.old) }
    {
        let Ok(()) = self.hold(name, digest) else {
            return Err(AllocError);
        };
        Ok(())
    }

    /// Stores a blob, in the place of one under its digest, and notes the pair.
    pub fn store(
        &mut self,
        name: &RepoName,
        digest: BlobDigest,
        blob: Blob,
    ) -> Result<(), AllocError>
        ensures blobs { OnOk result (self.new.blobs ≡ map.insert self.old.blobs digest blob) }
        ensures pairs { OnOk result
            (self.new.pairs ≡ set.insert self.old.pairs (name.now, digest)) }
        ensures err { OnErr result (self.new ≡ self.old) }
    {
        let Ok(()) = self.hold(name, digest) else {
            return Err(AllocError);
        };
        self.put(digest, blob);
        Ok(())
    }

    /// Notes that a repository has the blob of a digest, which has no bytes if none is stored yet.
    pub fn hold(&mut self, name: &RepoName, digest: BlobDigest) -> Result<(), AllocError>
        ensures blobs { OnOk result (self.new.blobs
            ≡ map.insert self.old.blobs digest (or_empty (map.get self.old.blobs digest))) }
        ensures pairs { OnOk result
            (self.new.pairs ≡ set.insert self.old.pairs (name.now, digest)) }
        ensures err { OnErr result (self.new ≡ self.old) }
    {
        let Ok(shared) = self.names.share(name) else {
            return Err(AllocError);
        };
        match key_of(&digest) {
            Key::Sha256(key) => hold_under(self.alloc, &mut self.sha256, &key, shared),
            Key::Sha512(key) => hold_under(self.alloc, &mut self.sha512, &key, shared),
        }
    }

    /// Puts a blob in the place of the one under its digest. It takes no memory.
    pub fn put(&mut self, digest: BlobDigest, blob: Blob)
        requires { IsSome (map.get self.old.blobs digest) }
        ensures blobs { self.new.blobs ≡ map.insert self.old.blobs digest blob }
        ensures pairs { self.new.pairs ≡ self.old.pairs }
    {
        match key_of(&digest) {
            Key::Sha256(key) => put_under(&mut self.sha256, &key, blob),
            Key::Sha512(key) => put_under(&mut self.sha512, &key, blob),
        }
    }

    /// Has a repository have a blob no more. The blob goes with the last repository that had it. The name stays among
    /// those that blobs share. It takes no memory.
    pub fn forget(&mut self, name: &RepoName, digest: &BlobDigest)
        ensures blobs { self.new.blobs
            ≡ blobs_left self.old.blobs self.old.pairs name.now digest.now }
        ensures pairs { self.new.pairs ≡ set.remove self.old.pairs (name.now, digest.now) }
    {
        let Some(shared) = self.names.find(name) else {
            return;
        };
        match key_of(digest) {
            Key::Sha256(key) => forget_under(&mut self.sha256, &key, shared),
            Key::Sha512(key) => forget_under(&mut self.sha512, &key, shared),
        }
    }

    /// Whether both have the same blobs, and their repositories the same pairs. An `Err` says that there is no memory
    /// to compare them.
    pub fn is_same(&self, other: &Stock) -> Result<bool, AllocError>
        ensures { IfOk result (λ same. IsTrue same → self.now ≡ other.now) }
    {
        if !are_same(self.alloc, &self.sha256, &other.sha256)? {
            return Ok(false);
        }
        let same = are_same(self.alloc, &self.sha512, &other.sha512)?;
        Ok(same)
    }
}

/// The bytes of a digest, by its algorithm.
fn key_of(digest: &BlobDigest) -> Key
    ensures { digest_at result ≡ digest.now }
{
    match digest.algorithm() {
        Algorithm::Sha256 => {
            let mut bytes = [0u8; 32];
            bytes.copy_from_slice(digest.as_bytes());
            Key::Sha256(bytes)
        }
        Algorithm::Sha512 => {
            let mut bytes = [0u8; 64];
            bytes.copy_from_slice(digest.as_bytes());
            Key::Sha512(bytes)
        }
    }
}

/// How many bytes these blobs have together, or the greatest number there is if they have more.
fn total_of<const N: usize>(items: &BTreeMap<[u8; N], Item>) -> u64 {
    let mut total: u64 = 0;
    for entry in items.iter() {
        total = total.saturating_add(entry.1.blob.len());
    }
    total
}

/// The blob under a key.
fn blob_under<'a, const N: usize>(
    items: &'a BTreeMap<[u8; N], Item>,
    key: &[u8; N],
) -> Option<&'a Blob>
    ensures found { IfSome result
        (λ blob. blob_in (lookup (same key.now) items.now.entries) ≡ Some blob.now) }
    ensures none { IfNone result (blob_in (lookup (same key.now) items.now.entries) ≡ None) }
{
    match items.get(key) {
        Some(item) => Some(&item.blob),
        None => None,
    }
}

/// Whether a repository has the blob under a key.
fn has_holder<const N: usize>(
    items: &BTreeMap<[u8; N], Item>,
    key: &[u8; N],
    name: &Arc<RepoName, Global>,
) -> bool
    ensures { result ≡ is_held (arc_value name.now) (lookup (same key.now) items.now.entries) }
{
    match items.get(key) {
        Some(item) => item.holders.has(name),
        None => false,
    }
}

/// Notes that a repository has the blob under a key, which has no bytes if there was none.
fn hold_under<const N: usize>(
    alloc: Global,
    items: &mut BTreeMap<[u8; N], Item>,
    key: &[u8; N],
    name: Arc<RepoName, Global>,
) -> Result<(), AllocError>
    ensures blobs { OnOk result ((q : List ℕ) → blob_in (lookup (same q) items.new.entries)
        ≡ cond (same q key.now)
        (Some (or_empty (blob_in (lookup (same key.now) items.old.entries))))
        (blob_in (lookup (same q) items.old.entries))) }
    ensures held { OnOk result ((q n : List ℕ) → is_held n (lookup (same q) items.new.entries)
        ≡ ((same q key.now && same n (arc_value name))
        || is_held n (lookup (same q) items.old.entries))) }
    ensures err { OnErr result
        ((q : List ℕ) → lookup (same q) items.new.entries ≡ lookup (same q) items.old.entries) }
{
    if let Some(item) = items.get_mut(key) {
        return item.holders.add(alloc, name);
    }
    let item = Item {
        blob: Blob::empty(alloc),
        holders: Holders::of(name),
    };
    items.insert(*key, item)?;
    Ok(())
}

/// Puts a blob in the place of the one under a key.
fn put_under<const N: usize>(items: &mut BTreeMap<[u8; N], Item>, key: &[u8; N], blob: Blob)
    requires { IsSome (blob_in (lookup (same key.now) items.old.entries)) }
    ensures blobs { (q : List ℕ) → blob_in (lookup (same q) items.new.entries)
        ≡ cond (same q key.now) (Some blob) (blob_in (lookup (same q) items.old.entries)) }
    ensures held { (q n : List ℕ) → is_held n (lookup (same q) items.new.entries)
        ≡ is_held n (lookup (same q) items.old.entries) }
{
    let Some(item) = items.get_mut(key) else {
        unreachable!();
    };
    item.blob = blob;
}

/// Has a repository have the blob under a key no more. The blob goes with the last repository that had it.
fn forget_under<const N: usize>(
    items: &mut BTreeMap<[u8; N], Item>,
    key: &[u8; N],
    name: &Arc<RepoName, Global>,
)
    ensures blobs { (q : List ℕ) → blob_in (lookup (same q) items.new.entries)
        ≡ cond (same q key.now
        && is_held_alone (arc_value name.now) (lookup (same key.now) items.old.entries))
        None (blob_in (lookup (same q) items.old.entries)) }
    ensures held { (q n : List ℕ) → is_held n (lookup (same q) items.new.entries)
        ≡ (not (same q key.now && same n (arc_value name.now))
        && is_held n (lookup (same q) items.old.entries)) }
{
    let Some(item) = items.get_mut(key) else {
        return;
    };
    if !item.holders.remove(name) {
        return;
    }
    items.remove(key);
}

/// Whether both trees have the same items under the same keys.
fn are_same<const N: usize>(
    alloc: Global,
    items: &BTreeMap<[u8; N], Item>,
    others: &BTreeMap<[u8; N], Item>,
) -> Result<bool, AllocError>
    ensures { IfOk result (λ same. IsTrue same → items.now.entries ≡ others.now.entries) }
{
    let mut left = others.iter();
    for (key, item) in items.iter() {
        let Some((other_key, other)) = left.next() else {
            return Ok(false);
        };
        if key != other_key || !is_same(alloc, item, other)? {
            return Ok(false);
        }
    }
    Ok(left.next().is_none())
}

/// Whether these are the same blob, of the same repositories.
fn is_same(alloc: Global, item: &Item, other: &Item) -> Result<bool, AllocError>
    ensures { IfOk result (λ same. IsTrue same → item.now ≡ other.now) }
{
    if item.blob.len() != other.blob.len() || !item.holders.is_same(&other.holders) {
        return Ok(false);
    }
    let mine = item.blob.share(alloc)?;
    let theirs = other.blob.share(alloc)?;
    Ok(mine.is_same(&theirs))
}
