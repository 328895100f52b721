//! The open uploads that are claimed, by their references.
ghost use Rattle.std.specs.Prelude.{◌≡◌, [], List, ℕ, filter, cond, nat_lt, OnOk, OnErr, IfSome, IfNone, Some, None, is_some};
ghost use Rattle.std.specs.Prelude.{IsSome, IsTrue};
ghost use Rattle.std.specs.FinMap as map;
ghost use Rattle.std.specs.Map.{lookup};
ghost use Rattle.std.specs.Option.{option_map};
ghost use Rattle.upload_service.specs.Machine.{same};
ghost use Rattle.upload_claims.specs.Fold.{taken, seen_at, closed, with_claim, with_any, seen_from};
ghost use Rattle.upload_claims.specs.Saved.{SavesUploads};
ghost use Rattle.upload_claims.specs.Kept.{upload_of, is_kept, takes_from, pushed};

use crate::bodies::is_next;
use crate::change::{Change, Stretch};
use crate::saving::put_uploads;
use std::alloc::{AllocError, Global};
use std::collections::BTreeMap;
use std::marker::Model;
use upload_names::{RepoName, UploadRef};

/// An open upload that is claimed.
#[derive(Drop)]
pub struct ClaimedUpload {
    pub name: RepoName,
    pub bodies: Vec<Stretch>,
    /// The moment, in seconds, when it was begun or last took a body.
    pub seen: u64,
}

impl ClaimedUpload {
    /// Whether it was last seen before this moment.
    pub fn is_before(&self, moment: u64) -> bool
        ensures { result ≡ nat_lt self.now.seen moment }
    {
        self.seen < moment
    }
}

/// The open uploads that are claimed, seen as a map from their references.
#[derive(Drop)]
pub struct Uploads {
    rows: BTreeMap<UploadRef, ClaimedUpload>,
}

impl Model for Uploads {
    ghost use Rattle.std.specs.FinMap as map;
    ghost use Rattle.std.specs.Ordering.{nat_cmp};
    ghost use Rattle.std.specs.Cmp.Lexicographic.{slice_cmp};
    ghost use Rattle.upload_service.specs.Machine.{Table};
    ghost use Rattle.upload_service.specs.Codes.{bytes_code};
    ghost use Rattle.upload_service.specs.Kept.Entries.{kept_as};
    ghost use Rattle.upload_claims.specs.Claims.{Upload};
    ghost use Rattle.upload_claims.specs.Codes.{upload_code};

    ghost Value = { Table Upload };

    ghost coded = { map.code bytes_code upload_code };

    ghost use Rattle.upload_claims.specs.Kept.{upload_of};

    ghost view = { λ a. kept_as (slice_cmp nat_cmp) upload_of a.rows.entries };
}

impl Uploads {
    /// No uploads. It takes no memory.
    pub fn new(alloc: Global) -> Uploads
        ensures { result ≡ map.empty }
    {
        Uploads {
            rows: BTreeMap::new(alloc),
        }
    }

    /// How many there are.
    pub fn len(&self) -> usize
        ensures { result ≡ map.len self.now }
    {
        self.rows.len()
    }

    /// The upload of a reference.
    pub fn get(&self, at: &UploadRef) -> Option<&ClaimedUpload>
        ensures found { IfSome result
            (λ upload. map.get self.now at.now ≡ Some (upload_of upload.now)) }
        ensures none { IfNone result (map.get self.now at.now ≡ None) }
    {
        self.rows.get(at)
    }

    /// One more, with no bytes. An `Err` changes nothing.
    pub fn begin(
        &mut self,
        alloc: Global,
        at: UploadRef,
        name: RepoName,
        now: u64,
    ) -> Result<(), AllocError>
        ensures ok { OnOk result (self.new
            ≡ map.insert self.old at (record { name = name; bodies = []; seen = now })) }
        ensures err { OnErr result (self.new ≡ self.old) }
    {
        let upload = ClaimedUpload {
            name,
            bodies: Vec::new(alloc),
            seen: now,
        };
        self.rows.insert(at, upload)?;
        Ok(())
    }

    /// One of them takes a body, or is lost if that doesn't come right after what it has. An `Err` changes nothing.
    pub fn take(
        &mut self,
        at: &UploadRef,
        now: u64,
        from: u64,
        stretch: Stretch,
    ) -> Result<(), AllocError>
        ensures ok { OnOk result (self.new
            ≡ with_claim self.old at.now (taken (map.get self.old at.now) now from stretch)) }
        ensures err { OnErr result (self.new ≡ self.old) }
    {
        if !takes(&self.rows, at, from) {
            let _ = self.rows.remove(at);
            return Ok(());
        }
        push_under(&mut self.rows, at, now, stretch)
    }

    /// One of them is seen, if there is such an upload. It takes no memory.
    pub fn see(&mut self, at: &UploadRef, now: u64)
        ensures { self.new
            ≡ with_any self.old at.now (seen_at (map.get self.old at.now) now) }
    {
        see_under(&mut self.rows, at, now);
    }

    /// Whether there is such an upload, and it has so many bytes.
    pub fn ends_at(&self, at: &UploadRef, end: u64) -> bool
        ensures { result ≡ is_some (closed (map.get self.now at.now) end) }
    {
        takes(&self.rows, at, end)
    }

    /// One of them leaves. Gives its bodies, if there is such an upload and it has so many bytes. It takes no memory.
    pub fn close(&mut self, at: &UploadRef, end: u64) -> Option<Vec<Stretch>>
        ensures left { self.new ≡ map.remove self.old at.now }
        ensures bodies { option_map (λ b. b.items) result ≡ closed (map.get self.old at.now) end }
    {
        let Some(upload) = self.rows.remove(at) else {
            return None;
        };
        if !is_next(upload.bodies.as_slice(), end) {
            return None;
        }
        Some(upload.bodies)
    }

    /// Puts the changes that restore them. An `Err` may have put some.
    pub fn save(&self, alloc: Global, out: &mut Vec<Change>) -> Result<(), AllocError>
        ensures { OnOk result (SavesUploads out.old.items out.new.items self.now) }
    {
        let _ = self.rows.len();
        put_uploads(alloc, out, &self.rows)
    }

    /// Those that were last seen before this moment leave. It takes no memory.
    pub fn leave_before(&mut self, moment: u64)
        ensures { self.new ≡ seen_from moment self.old }
    {
        let _ = self.rows.len();
        sweep(&mut self.rows, moment);
    }
}

/// Whether there is such an upload, and a body after so many bytes comes right after what it has.
fn takes(rows: &BTreeMap<UploadRef, ClaimedUpload>, at: &UploadRef, from: u64) -> bool
    ensures is { result ≡ takes_from (lookup (same at.now) rows.now.entries) from }
    ensures there { IsTrue result → IsSome (lookup (same at.now) rows.now.entries) }
{
    match rows.get(at) {
        Some(upload) => is_next(upload.bodies.as_slice(), from),
        None => false,
    }
}

/// Puts a body after what an upload has, which has to be there.
fn push_under(
    rows: &mut BTreeMap<UploadRef, ClaimedUpload>,
    at: &UploadRef,
    now: u64,
    stretch: Stretch,
) -> Result<(), AllocError>
    requires { IsSome (lookup (same at.now) rows.old.entries) }
    ensures ok { OnOk result ((q : List ℕ)
        → option_map upload_of (lookup (same q) rows.new.entries)
        ≡ cond (same at.now q)
        (pushed (option_map upload_of (lookup (same at.now) rows.old.entries)) now stretch)
        (option_map upload_of (lookup (same q) rows.old.entries))) }
    ensures err { OnErr result ((q : List ℕ)
        → option_map upload_of (lookup (same q) rows.new.entries)
        ≡ option_map upload_of (lookup (same q) rows.old.entries)) }
{
    let Some(upload) = rows.get_mut(at) else {
        unreachable!();
    };
    upload.bodies.push(stretch)?;
    upload.seen = now;
    Ok(())
}

/// An upload is seen, if there is such an upload.
fn see_under(rows: &mut BTreeMap<UploadRef, ClaimedUpload>, at: &UploadRef, now: u64)
    ensures { (q : List ℕ) → option_map upload_of (lookup (same q) rows.new.entries)
        ≡ cond (same at.now q) (seen_at (option_map upload_of (lookup (same at.now) rows.old.entries)) now)
        (option_map upload_of (lookup (same q) rows.old.entries)) }
{
    if let Some(upload) = rows.get_mut(at) {
        upload.seen = now;
    }
}

fn sweep(rows: &mut BTreeMap<UploadRef, ClaimedUpload>, moment: u64)
    ensures { rows.new.entries ≡ filter (is_kept moment) rows.old.entries }
{
    rows.retain(|_, upload| !upload.is_before(moment));
}
