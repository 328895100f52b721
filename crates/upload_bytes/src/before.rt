//! What came before the last body of a blob.
ghost use Rattle.std.specs.Prelude.{◌≡◌, ◌++◌, length, IfOk};
ghost use Rattle.std.specs.List.{concat};
ghost use Rattle.upload_bytes.specs.Before.{bytes_before};
ghost use Rattle.upload_bytes.specs.Segments.{whole};

use crate::granted::Granted;
use crate::part::Part;
use crate::segments::Segments;
use crate::shares::Shares;
use crate::stretch::{Stretch, share_all_into, share_parts_into};
use std::alloc::{AllocError, Global};
use std::marker::Model;

/// Segments as a blob keeps them: the stretches of those that stayed as they were, and the last one. They are seen as
/// the bytes.
#[derive(Drop)]
pub struct KeptSegments {
    stretches: Vec<Stretch>,
    tail: Granted,
    len: u64,
}

impl Model for KeptSegments {
    ghost use Rattle.std.specs.Prelude.{◌≡◌, ◌++◌, List, ℕ, length};
    ghost use Rattle.std.specs.List.{concat};

    ghost Value = { List ℕ };

    ghost view = { λ a. concat a.stretches.items ++ a.tail };

    ghost invariant = { λ a. a.len ≡ length (concat a.stretches.items ++ a.tail) };
}

impl KeptSegments {
    /// These stretches, and the last segment: so many bytes in all.
    pub(crate) fn of(stretches: Vec<Stretch>, tail: Granted, len: u64) -> KeptSegments
        requires { len ≡ length (concat stretches.items ++ tail) }
        ensures { result ≡ concat stretches.items ++ tail }
    {
        KeptSegments {
            stretches,
            tail,
            len,
        }
    }

    /// Has shares kept of the parts that its stretches are in.
    fn keep_in(&self, shares: &mut Shares) {
        for stretch in &self.stretches {
            stretch.keep_in(shares);
        }
    }

    /// Its stretches, which are shared, and a copy of the last segment.
    fn share(&self, alloc: Global) -> Result<Vec<Stretch>, AllocError>
        ensures { IfOk result (λ stretches. concat stretches.items ≡ self.now) }
    {
        let mut shares = Vec::with_capacity(alloc, self.stretches.len().saturating_add(1))?;
        share_all_into(&mut shares, self.stretches.as_slice())?;
        shares.push(copied(alloc, self.tail.as_slice())?)?;
        Ok(shares)
    }
}

/// What came before the last body of a blob: stretches, or segments if there was no memory for these.
#[derive(Drop)]
pub enum Before {
    Here(Segments),
    Kept(KeptSegments),
}

impl Before {
    /// How many bytes there are.
    pub fn len(&self) -> u64
        ensures { result ≡ length (bytes_before self.now) }
    {
        match self {
            Before::Here(segments) => segments.total(),
            Before::Kept(segments) => segments.len,
        }
    }

    /// Has shares of its parts kept, of those that stay as they are.
    pub(crate) fn keep_in(&self, shares: &mut Shares) {
        match self {
            Before::Here(segments) => shares.add(segments.settled()),
            Before::Kept(segments) => segments.keep_in(shares),
        }
    }

    /// Its stretches, which are shared, and a copy of the last segment, which is small.
    pub fn share(&self, alloc: Global) -> Result<Vec<Stretch>, AllocError>
        ensures { IfOk result (λ stretches. concat stretches.items ≡ bytes_before self.now) }
    {
        match self {
            Before::Here(segments) => share_segments(alloc, segments),
            Before::Kept(segments) => segments.share(alloc),
        }
    }
}

/// The segments that stay as they are, which are shared, and a copy of the last one.
pub(crate) fn share_segments(alloc: Global, segments: &Segments) -> Result<Vec<Stretch>, AllocError>
    ensures { IfOk result (λ stretches. concat stretches.items ≡ whole segments.now) }
{
    if segments.has_gone() {
        return share_gone(alloc, segments);
    }
    let settled = segments.settled();
    let mut shares = Vec::with_capacity(alloc, settled.len().saturating_add(1))?;
    share_parts_into(&mut shares, settled)?;
    shares.push(copied(alloc, segments.tail())?)?;
    Ok(shares)
}

/// The same of segments of which some left memory.
fn share_gone(alloc: Global, segments: &Segments) -> Result<Vec<Stretch>, AllocError>
    ensures { IfOk result (λ stretches. concat stretches.items ≡ whole segments.now) }
{
    let Some(stretches) = segments.stretches() else {
        return Err(AllocError);
    };
    let mut shares = Vec::with_capacity(alloc, stretches.len().saturating_add(1))?;
    share_all_into(&mut shares, stretches)?;
    shares.push(copied(alloc, segments.tail())?)?;
    Ok(shares)
}

/// A copy of few bytes.
fn copied(alloc: Global, bytes: &[u8]) -> Result<Stretch, AllocError>
    ensures { IfOk result (λ stretch. stretch ≡ bytes.now) }
{
    let copy = Vec::from_slice(alloc, bytes)?;
    match Part::of(alloc, Granted::unlimited(copy)) {
        Ok(part) => Ok(Stretch::here(part)),
        Err(_) => Err(AllocError),
    }
}
