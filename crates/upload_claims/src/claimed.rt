//! All that is claimed, and what a change makes of it.
ghost use Rattle.std.specs.Prelude.{◌≡◌, [], ◌∷◌, ◌++◌, ℕ, take, IfOk, OnOk, OnErr, IfSome, IfNone, Some, None};
ghost use Rattle.std.specs.FinMap as map;
ghost use Rattle.std.specs.FinSet as set;
ghost use Rattle.upload_claims.specs.Claims.{nothing};
ghost use Rattle.upload_claims.specs.Fold.{apply, fold};
ghost use Rattle.upload_claims.specs.Kept.{upload_of};
ghost use Rattle.upload_claims.specs.Records.{whole_at, records_in};
ghost use Rattle.upload_claims.specs.Damage.{changes_told, damages};
ghost use Rattle.upload_claims.specs.declared.change.Change.TheVariants.{NumbersUpTo, MomentsUpTo, Closed};

use crate::address::Address;
use crate::blobs::Blobs;
use crate::change::{Change, Stretch};
use crate::fault::{ReadError, RecordFault};
use crate::pairs::Pairs;
use crate::record::{read_whole, span_of};
use crate::uploads::{ClaimedUpload, Uploads};
use std::alloc::{AllocError, Global};
use std::marker::Model;
use upload_names::{BlobDigest, RepoName, UploadRef};

/// A record that isn't whole: where it stands, and why.
#[derive(Clone, Copy, Debug, Drop, PartialEq, Eq)]
pub struct Damage {
    pub at: Address,
    pub fault: RecordFault,
}

/// What is claimed to be stored: open uploads, blobs, and which repository has which blob. It has no bytes of a body,
/// and knows only where they are.
#[derive(Drop)]
pub struct Claimed {
    alloc: Global,
    uploads: Uploads,
    blobs: Blobs,
    pairs: Pairs,
    issued: u32,
    told: u64,
}

impl Model for Claimed {
    ghost use Rattle.upload_claims.specs.Claims.{Claims};
    ghost use Rattle.upload_claims.specs.Codes.{claims_code};

    ghost Value = { Claims };

    ghost coded = { claims_code };

    ghost view = { λ a. record {
      uploads = a.uploads;
      blobs = a.blobs;
      pairs = a.pairs;
      issued = a.issued;
      told = a.told;
    } };
}

impl Claimed {
    /// Nothing is claimed. It takes no memory.
    pub fn new(alloc: Global) -> Claimed
        ensures { result ≡ nothing }
    {
        Claimed {
            alloc,
            uploads: Uploads::new(alloc),
            blobs: Blobs::new(alloc),
            pairs: Pairs::new(alloc),
            issued: 0,
            told: 0,
        }
    }

    /// The open upload of a reference, if one is claimed.
    pub fn upload(&self, at: &UploadRef) -> Option<&ClaimedUpload>
        ensures found { IfSome result
            (λ upload. map.get self.now.uploads at.now ≡ Some (upload_of upload.now)) }
        ensures none { IfNone result (map.get self.now.uploads at.now ≡ None) }
    {
        self.uploads.get(at)
    }

    /// The number up to which all are used up.
    pub fn issued(&self) -> u32
        ensures { result ≡ self.now.issued }
    {
        self.issued
    }

    /// The moment, in seconds, up to which any may have been told.
    pub fn told(&self) -> u64
        ensures { result ≡ self.now.told }
    {
        self.told
    }

    /// How many open uploads are claimed.
    pub fn uploads(&self) -> usize
        ensures { result ≡ map.len self.now.uploads }
    {
        self.uploads.len()
    }

    /// Whether a repository is claimed to have a blob.
    pub fn has(&self, pair: &(RepoName, BlobDigest)) -> bool
        ensures { result ≡ set.contains self.now.pairs pair.now }
    {
        self.pairs.contains(pair)
    }

    /// One step of the fold. An `Err` says that there is no memory for the tables, and changes nothing.
    pub fn apply(&mut self, change: Change) -> Result<(), AllocError>
        ensures ok { OnOk result (self.new ≡ apply self.old change) }
        ensures err { OnErr result (self.new ≡ self.old) }
    {
        match change {
            Change::NumbersUpTo(number) => self.issued = self.issued.max(number),
            Change::MomentsUpTo(moment) => self.told = self.told.max(moment),
            Change::LapsedBefore(moment) => self.uploads.leave_before(moment),
            Change::Began { at, name, now } => self.uploads.begin(self.alloc, at, name, now)?,
            Change::Took {
                at,
                now,
                from,
                stretch,
            } => self.uploads.take(&at, now, from, stretch)?,
            Change::Seen { at, now } => self.uploads.see(&at, now),
            Change::Closed { at, digest, end } => self.close(&at, digest, end)?,
            Change::Stored { digest, stretch } => {
                let bodies = one(self.alloc, stretch)?;
                self.blobs.put(digest, bodies)?;
            }
            Change::Laid { digest } => self.blobs.put(digest, Vec::new(self.alloc))?,
            Change::Joined {
                digest,
                from,
                stretch,
            } => self.blobs.join(&digest, from, stretch)?,
            Change::Has { name, digest } => self.pairs.insert(name, digest)?,
        }
        Ok(())
    }

    /// An upload with so many bytes is closed. Room for its blob is made first, so that an `Err` changes nothing.
    fn close(&mut self, at: &UploadRef, digest: BlobDigest, end: u64) -> Result<(), AllocError>
        ensures ok { OnOk result (self.new ≡ apply self.old (Closed at.now digest end)) }
        ensures err { OnErr result (self.new ≡ self.old) }
    {
        if !self.uploads.ends_at(at, end) {
            let _ = self.uploads.close(at, end);
            return Ok(());
        }
        self.blobs.put(digest, Vec::new(self.alloc))?;
        let Some(bodies) = self.uploads.close(at, end) else {
            unreachable!();
        };
        self.blobs.put_over(&digest, bodies);
        Ok(())
    }

    /// Changes, one after another. An `Err` says that there is no memory for the tables: a front of the changes was
    /// applied, and no others.
    pub fn apply_all(&mut self, changes: Vec<Change>) -> Result<(), AllocError>
        ensures ok { OnOk result (self.new ≡ fold self.old changes.items) }
        ensures err { OnErr result ((n : ℕ) × (self.new ≡ fold self.old (take n changes.items))) }
    {
        for change in changes {
            self.apply(change)?;
        }
        Ok(())
    }

    /// Changes that are folded to the same claims. They are written from the claims alone.
    pub fn checkpoint(&self) -> Result<Vec<Change>, AllocError>
        ensures { IfOk result (λ changes. fold nothing changes.items ≡ self.now) }
    {
        let mut changes = counts(self.alloc, self.issued, self.told)?;
        self.uploads.save(self.alloc, &mut changes)?;
        self.blobs.save(&mut changes)?;
        self.pairs.save(self.alloc, &mut changes)?;
        Ok(changes)
    }

    /// One step of a start: the changes of the records of a batch are applied, which stand one after another. A record
    /// that isn't whole is passed over, and noted. If its own numbers don't tell how many bytes it has, those after it
    /// aren't looked for. An `Err` says that there is no memory: a front of the records was applied then, the last of
    /// them perhaps in part.
    pub fn read_batch(
        &mut self,
        journal: (u64, u64),
        batch: u64,
        bytes: &[u8],
        damage: &mut Vec<Damage>,
    ) -> Result<(), AllocError>
        ensures claims { OnOk result (self.new ≡ fold self.old
            (changes_told (records_in (record { journal = journal; batch = batch; index = 0 }) bytes.now))) }
        ensures damage { OnOk result (damage.new.items ≡ damage.old.items
            ++ damages (record { journal = journal; batch = batch; index = 0 })
            (records_in (record { journal = journal; batch = batch; index = 0 }) bytes.now)) }
    {
        let mut at = Address {
            journal,
            batch,
            index: 0,
        };
        let mut rest = bytes;
        while !rest.is_empty() {
            self.read_one(&at, rest, damage)?;
            let Some(span) = span_of(rest) else {
                return Ok(());
            };
            rest = rest.split_at(span).1;
            at.index += 1;
        }
        Ok(())
    }

    /// The same of the first record.
    fn read_one(
        &mut self,
        at: &Address,
        bytes: &[u8],
        damage: &mut Vec<Damage>,
    ) -> Result<(), AllocError>
        ensures claims { OnOk result
            (self.new ≡ fold self.old (changes_told (whole_at at.now bytes.now ∷ []))) }
        ensures damage { OnOk result (damage.new.items
            ≡ damage.old.items ++ damages at.now (whole_at at.now bytes.now ∷ [])) }
    {
        match read_whole(self.alloc, at, bytes) {
            Ok(changes) => self.apply_all(changes)?,
            Err(ReadError::Fault(fault)) => damage.push(Damage { at: *at, fault })?,
            Err(ReadError::NoMemory) => return Err(AllocError),
        }
        Ok(())
    }
}

/// Up to which number all are used up, and up to which moment any may have been told.
fn counts(alloc: Global, issued: u32, told: u64) -> Result<Vec<Change>, AllocError>
    ensures { IfOk result
        (λ changes. changes.items ≡ NumbersUpTo issued ∷ MomentsUpTo told ∷ []) }
{
    let mut changes = Vec::new(alloc);
    changes.push(Change::NumbersUpTo(issued))?;
    changes.push(Change::MomentsUpTo(told))?;
    Ok(changes)
}

/// One body.
fn one(alloc: Global, stretch: Stretch) -> Result<Vec<Stretch>, AllocError>
    ensures { IfOk result (λ bodies. bodies.items ≡ stretch ∷ []) }
{
    let mut bodies = Vec::new(alloc);
    bodies.push(stretch)?;
    Ok(bodies)
}
