//! What entries come to, as numbers.
ghost use Rattle.std.specs.Prelude.{◌≡◌, OnOk, OnErr, filter, length};
ghost use Rattle.std.specs.List.{fold};
ghost use Rattle.std.specs.Map.{values_of};
ghost use Rattle.std.specs.BTreeMap.{insert_entry};
ghost use Rattle.std.specs.Ordering.{nat_cmp};
ghost use Rattle.std.specs.Cmp.Lexicographic.{slice_cmp};
ghost use Rattle.upload_journal.specs.declared.body.BodyFile.{BodyFile as File};
ghost use Rattle.upload_records.specs.declared.census.Upload.{Upload as Open};
ghost use Rattle.upload_records.specs.Census.{Tables, nothing, body_size, total, plus, is_awake, begun, received_of};
ghost use Rattle.upload_records.specs.Census.{with_blob, taken, stored, told, after_entry};

use std::alloc::{AllocError, Global};
use std::collections::BTreeMap;
use upload_journal::{BodyFile, Entry, KeptAnswer, KeptAsk, KeptBody};
use upload_names::{BlobDigest, UploadRef};
use upload_service::{Counts, Limits};

/// An open upload.
#[derive(Clone, Copy, Debug)]
pub struct Upload {
    /// How many bytes it has received.
    pub received: u64,
    /// The moment, in seconds, of its opening or of the last chunk that it took.
    pub seen: u64,
}

/// What entries come to: the open uploads, and how long each blob is.
#[derive(Drop)]
pub struct Census {
    pub(crate) alloc: Global,
    limits: Limits,
    uploads: BTreeMap<UploadRef, Upload>,
    blobs: BTreeMap<BlobDigest, u64>,
    /// How many records were no entries.
    pub(crate) unread: u64,
}

/// How many bytes files have. It stays at 2^64 - 1 once there.
fn files_size(files: &[BodyFile]) -> u64
    ensures { result ≡ fold (λ size (file : File). plus size file.len) 0 files.now }
{
    let mut size = 0u64;
    for file in files {
        size = size.saturating_add(file.len);
    }
    size
}

/// How many bytes a body has, as its entry says.
fn body_size(body: &KeptBody) -> u64
    ensures { result ≡ body_size body.now }
{
    match body {
        KeptBody::Here(body) => body.len() as u64,
        KeptBody::InFiles(files) => files_size(files.as_slice()),
    }
}

/// Has the uploads leave that took nothing for more than `max_idle` seconds.
fn sweep(uploads: &mut BTreeMap<UploadRef, Upload>, max_idle: u64, now: u64)
    ensures { uploads.new.entries ≡ filter (is_awake max_idle now) uploads.old.entries }
{
    uploads.retain(|_, upload| !upload.is_idle(max_idle, now));
}

/// How many bytes these blobs have. It stays at 2^64 - 1 once there.
fn stored_in(blobs: &BTreeMap<BlobDigest, u64>) -> u64
    ensures { result ≡ total (values_of blobs.now.entries) }
{
    blobs
        .values()
        .fold(0u64, |sum, size| sum.saturating_add(*size))
}

/// How many bytes these uploads have received. It stays at 2^64 - 1 once there.
fn received_in(uploads: &BTreeMap<UploadRef, Upload>) -> u64
    ensures { result ≡ fold (λ sum (upload : Open). plus sum upload.received) 0
        (values_of uploads.now.entries) }
{
    uploads
        .values()
        .fold(0u64, |sum, upload| sum.saturating_add(upload.received))
}

impl Upload {
    ghost use Rattle.upload_records.specs.Census.{is_idle};

    /// Whether it took nothing for more than `max_idle` seconds.
    fn is_idle(&self, max_idle: u64, now: u64) -> bool
        ensures { result ≡ is_idle max_idle now self.now }
    {
        now > self.seen && now - self.seen > max_idle
    }
}

impl Census {
    ghost use Rattle.upload_records.specs.Counted.{limits_of, tables_of, counts_of};

    /// Of no entries, of a service with these limits.
    pub fn new(alloc: Global, limits: Limits) -> Census
        ensures tables { tables_of result ≡ nothing }
        ensures limits { limits_of result ≡ limits }
    {
        Census {
            alloc,
            limits,
            uploads: BTreeMap::new(alloc),
            blobs: BTreeMap::new(alloc),
            unread: 0,
        }
    }

    /// Notes an entry after those before it. At `Err` there is no memory, and nothing is noted.
    ///
    /// The answer that is recorded tells what the entry did, and how long the bodies are the entries tell. So a mount
    /// stores no other blob, and an upload that is idle stays until the table is full, as in the service.
    pub fn see(&mut self, entry: &Entry) -> Result<(), AllocError>
        ensures seen { OnOk result (tables_of self.new
            ≡ after_entry (limits_of self.old) entry.now (tables_of self.old)) }
        ensures err { OnErr result (tables_of self.new ≡ tables_of self.old) }
        ensures limits { limits_of self.new ≡ limits_of self.old }
    {
        match entry {
            Entry::Exchange(it) => self.note(&it.ask, &it.answer, it.now),
            Entry::NumbersUpTo(_) | Entry::MomentsUpTo(_) => Ok(()),
        }
    }

    fn note(&mut self, ask: &KeptAsk, answer: &KeptAnswer, now: u64) -> Result<(), AllocError>
        ensures seen { OnOk result (tables_of self.new
            ≡ told (limits_of self.old) now ask.now answer.now (tables_of self.old)) }
        ensures err { OnErr result (tables_of self.new ≡ tables_of self.old) }
        ensures limits { limits_of self.new ≡ limits_of self.old }
    {
        match answer {
            KeptAnswer::Begun(at) => self.begin(at, now),
            KeptAnswer::Taken(next) => self.take(ask, *next, now),
            KeptAnswer::Stored(digest) => self.store(ask, digest),
        }
    }

    /// An upload begins at this moment. If the table is full, the idle ones leave.
    fn begin(&mut self, at: &UploadRef, now: u64) -> Result<(), AllocError>
        ensures begun { OnOk result (tables_of self.new ≡ record (tables_of self.old) {
          uploads = begun (limits_of self.old) now at.now (tables_of self.old).uploads;
        }) }
        ensures err { OnErr result (tables_of self.new ≡ tables_of self.old) }
        ensures limits { limits_of self.new ≡ limits_of self.old }
    {
        let full = self.uploads.len() >= self.limits.max_open as usize;
        self.put(
            at,
            Upload {
                received: 0,
                seen: now,
            },
        )?;
        if full {
            sweep(&mut self.uploads, self.limits.max_idle, now);
        }
        Ok(())
    }

    /// An upload has received so many bytes now.
    fn take(&mut self, ask: &KeptAsk, next: u64, now: u64) -> Result<(), AllocError>
        ensures taken { OnOk result (tables_of self.new
            ≡ taken now next ask.now (tables_of self.old)) }
        ensures err { OnErr result (tables_of self.new ≡ tables_of self.old) }
        ensures limits { limits_of self.new ≡ limits_of self.old }
    {
        match ask {
            KeptAsk::Chunk { at, .. } => self.put(
                at,
                Upload {
                    received: next,
                    seen: now,
                },
            ),
            _ => Ok(()),
        }
    }

    /// A blob stands. One that is mounted stood before.
    fn store(&mut self, ask: &KeptAsk, digest: &BlobDigest) -> Result<(), AllocError>
        ensures stored { OnOk result (tables_of self.new
            ≡ stored digest.now ask.now (tables_of self.old)) }
        ensures err { OnErr result (tables_of self.new ≡ tables_of self.old) }
        ensures limits { limits_of self.new ≡ limits_of self.old }
    {
        match ask {
            KeptAsk::Single { body, .. } => self.put_blob(digest, body_size(body)),
            KeptAsk::Close { at, body, .. } => {
                let size = self.received(at).saturating_add(body_size(body));
                self.put_blob(digest, size)?;
                let _ = self.uploads.remove(at);
                Ok(())
            }
            _ => Ok(()),
        }
    }

    /// What an upload has received, or 0.
    fn received(&self, at: &UploadRef) -> u64
        ensures { result ≡ received_of at.now (tables_of self.now).uploads }
    {
        match self.uploads.get(at) {
            Some(upload) => upload.received,
            None => 0,
        }
    }

    fn put(&mut self, at: &UploadRef, upload: Upload) -> Result<(), AllocError>
        ensures put { OnOk result (tables_of self.new ≡ record (tables_of self.old) {
          uploads = insert_entry (slice_cmp nat_cmp) (tables_of self.old).uploads at.now upload;
        }) }
        ensures err { OnErr result (tables_of self.new ≡ tables_of self.old) }
        ensures limits { limits_of self.new ≡ limits_of self.old }
    {
        match self.uploads.insert(*at, upload) {
            Ok(_) => Ok(()),
            Err(_) => Err(AllocError),
        }
    }

    fn put_blob(&mut self, digest: &BlobDigest, size: u64) -> Result<(), AllocError>
        ensures put { OnOk result (tables_of self.new
            ≡ with_blob digest.now size (tables_of self.old)) }
        ensures err { OnErr result (tables_of self.new ≡ tables_of self.old) }
        ensures limits { limits_of self.new ≡ limits_of self.old }
    {
        match self.blobs.insert(*digest, size) {
            Ok(_) => Ok(()),
            Err(_) => Err(AllocError),
        }
    }

    /// How many blobs and open uploads there are, and how many bytes they have. A sum stays at 2^64 - 1 once there.
    pub fn counts(&self) -> Counts
        ensures { result ≡ counts_of (tables_of self.now) }
    {
        Counts {
            blobs: self.blobs.len() as u64,
            stored: stored_in(&self.blobs),
            uploads: self.uploads.len() as u64,
            received: received_in(&self.uploads),
        }
    }

    /// How many records were no entries.
    pub fn unread(&self) -> u64
        ensures { result ≡ (tables_of self.now).unread }
    {
        self.unread
    }
}
