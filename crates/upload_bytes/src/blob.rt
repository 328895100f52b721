//! A stored blob: a small one by itself, a larger one in parts that can be shared.
ghost use Rattle.std.specs.Prelude.{◌≡◌, ◌+◌, ◌<◌, ◌^◌, ◌++◌, [], ℕ, List, length, box_value, IfOk, IfSome};
ghost use Rattle.upload_bytes.specs.Segments.{whole};
ghost use Rattle.std.specs.List.{concat};
ghost use Rattle.upload_bytes.specs.Blobs.{before_last, body_in};
ghost use Rattle.upload_bytes.specs.Body.{bytes_in};

use crate::before::Before;
use crate::body::{Body, Pieces};
use crate::granted::Granted;
use crate::in_files::InFiles;
use crate::part::Part;
use crate::received::Received;
use crate::room::Grant;
use crate::segments::Segments;
use crate::shared::BlobBytes;
use crate::shares::Shares;
use crate::stretch::{Stretch, all_here, len_in, share_all_into};
use std::alloc::{AllocError, Global};
use std::marker::Model;
use upload_names::Bytes;

/// The most bytes of a blob that is kept by itself, so that a GET copies them. An `Arc` round so few bytes would take a
/// good part of what the blob takes in all.
const SMALL_SIZE: usize = 4_096;

/// What a session received, and the last body behind it: its stretches, the last of them apart.
#[derive(Drop)]
pub struct Several {
    pub before: Before,
    pub stretches: Vec<Stretch>,
    pub last: Stretch,
}

impl Several {
    /// A last body alone, in a place where nothing has come before it yet. Of one that is in files these are kept.
    pub fn of(alloc: Global, body: Body) -> Result<Box<Several>, AllocError>
        ensures { IfOk result (λ place. body_in (box_value place) ≡ body) }
    {
        let (pieces, files) = body.into_filed();
        let (stretches, last) = stretches_of(alloc, pieces, files)?;
        let before = Before::Here(Segments::new(alloc));
        match Box::new(
            alloc,
            Several {
                before,
                stretches,
                last,
            },
        ) {
            Ok(place) => Ok(place),
            Err(_) => Err(AllocError),
        }
    }
}

/// The stretches of a body, the last of them apart: its files, if these have all its bytes, which are let go then; or
/// its parts, and what came behind them.
fn stretches_of(
    alloc: Global,
    pieces: Pieces,
    files: Option<InFiles>,
) -> Result<(Vec<Stretch>, Stretch), AllocError>
    requires { IfSome files (λ files. files ≡ bytes_in pieces) }
    ensures { IfOk result (λ all. concat all.0.items ++ all.1 ≡ bytes_in pieces) }
{
    if let Some(files) = files {
        return Ok(apart(files.into_stretches()));
    }
    let Pieces { parts, last } = pieces;
    let stretches = all_here(alloc, parts)?;
    match Part::of(alloc, last) {
        Ok(last) => Ok((stretches, Stretch::here(last))),
        Err(_) => Err(AllocError),
    }
}

/// Stretches, the last of them apart.
fn apart(stretches: Vec<Stretch>) -> (Vec<Stretch>, Stretch)
    requires { 0 < length stretches.items }
    ensures { concat result.0.items ++ result.1 ≡ concat stretches.items }
{
    let mut before = stretches;
    match before.pop() {
        Some(last) => (before, last),
        None => unreachable!(),
    }
}

/// What a blob is kept in.
#[derive(Drop)]
pub enum Shape {
    Small(Granted),
    One(Stretch),
    Several(Box<Several>),
}

/// A blob, seen as its bytes. It is kept in the parts that it came in. Of one part it keeps just that part, and of a
/// small one just the bytes.
#[derive(Drop)]
pub struct Blob {
    shape: Shape,
}

impl Model for Blob {
    ghost use Rattle.std.specs.Prelude.{List, ℕ, ◌++◌, ◌+◌, ◌<◌, ◌^◌, length};
    ghost use Rattle.std.specs.Coded.{coded_ℕ, coded_list};

    ghost Value = { List ℕ };

    ghost coded = { coded_list coded_ℕ };

    ghost use Rattle.upload_bytes.specs.Blobs.{before_in, last_in};

    ghost view = { λ a. before_in a.shape ++ last_in a.shape };

    ghost invariant = { λ a. length (before_in a.shape) + length (last_in a.shape) < 2 ^ 64 };
}

impl Blob {
    /// A blob of no bytes. It takes no memory.
    pub fn empty(alloc: Global) -> Blob
        ensures { result ≡ [] }
    {
        Blob {
            shape: Shape::Small(Granted::none(alloc, Grant::unlimited())),
        }
    }

    /// What was received and a last body, in a place where the last body is already. It takes no memory.
    pub fn of_received(alloc: Global, received: Received, place: Box<Several>) -> Blob
        requires { length received + length (body_in (box_value place)) < 2 ^ 64 }
        ensures { result ≡ received ++ body_in (box_value place) }
    {
        Blob::of_segments(alloc, received.into_segments(), place)
    }

    /// The same of segments.
    fn of_segments(alloc: Global, mut segments: Segments, mut place: Box<Several>) -> Blob
        requires { length (whole segments) + length (body_in (box_value place)) < 2 ^ 64 }
        ensures { result ≡ whole segments ++ body_in (box_value place) }
    {
        segments.shrink();
        if place.stretches.is_empty() {
            if place.last.len() == 0 {
                segments.hand_over(&mut place.last);
            }
            if segments.total() == 0 {
                let several = Box::into_inner(place);
                return Blob::of_stretch(alloc, several.last);
            }
        }
        place.before = segments.into_before();
        Blob {
            shape: Shape::Several(place),
        }
    }

    /// A blob of one stretch, whose bytes it takes out if they are few, in memory, and have no other owner. It takes no
    /// memory.
    fn of_stretch(alloc: Global, mut stretch: Stretch) -> Blob
        requires { length stretch < 2 ^ 64 }
        ensures { result ≡ stretch }
    {
        let size = stretch.len();
        let mut bytes = Granted::none(alloc, Grant::unlimited());
        if size <= SMALL_SIZE as u64 && stretch.trade(&mut bytes) {
            return Blob {
                shape: Shape::Small(bytes),
            };
        }
        Blob {
            shape: Shape::One(stretch),
        }
    }

    /// A blob of one body, which is moved and not copied. Of one that is in files these are kept.
    pub fn of(alloc: Global, body: Body) -> Result<Blob, AllocError>
        ensures { IfOk result (λ blob. blob ≡ body) }
    {
        let size = body.len();
        let (Pieces { parts, last }, files) = body.into_filed();
        if parts.is_empty() && size <= SMALL_SIZE && files.is_none() {
            return Ok(Blob {
                shape: Shape::Small(last),
            });
        }
        let (stretches, last) = stretches_of(alloc, Pieces { parts, last }, files)?;
        Blob::of_stretches(alloc, stretches, last)
    }

    /// A blob of bytes that are in files, and not in memory. None if there is no memory.
    pub(crate) fn of_files(alloc: Global, files: InFiles) -> Option<Blob>
        requires { length files < 2 ^ 64 }
        ensures { IfSome result (λ blob. blob ≡ files) }
    {
        let (stretches, last) = apart(files.into_stretches());
        Blob::of_stretches(alloc, stretches, last).ok()
    }

    /// A blob of stretches, the last of them apart.
    fn of_stretches(
        alloc: Global,
        stretches: Vec<Stretch>,
        last: Stretch,
    ) -> Result<Blob, AllocError>
        requires { length (concat stretches.items ++ last) < 2 ^ 64 }
        ensures { IfOk result (λ blob. blob ≡ concat stretches.items ++ last) }
    {
        if stretches.is_empty() {
            return Ok(Blob {
                shape: Shape::One(last),
            });
        }
        let before = Before::Here(Segments::new(alloc));
        match Box::new(
            alloc,
            Several {
                before,
                stretches,
                last,
            },
        ) {
            Ok(place) => Ok(Blob {
                shape: Shape::Several(place),
            }),
            Err(_) => Err(AllocError),
        }
    }

    /// How many bytes it has.
    pub fn len(&self) -> u64
        ensures { result ≡ length self.now }
    {
        match &self.shape {
            Shape::Small(bytes) => bytes.len() as u64,
            Shape::One(last) => last.len(),
            Shape::Several(several) => len_of(several),
        }
    }

    /// Has shares of its parts kept. A small blob has none, nor has the last segment of a session, which is small too.
    pub fn keep_in(&self, shares: &mut Shares) {
        match &self.shape {
            Shape::Small(_) => {}
            Shape::One(last) => last.keep_in(shares),
            Shape::Several(several) => {
                several.before.keep_in(shares);
                for stretch in &several.stretches {
                    stretch.keep_in(shares);
                }
                several.last.keep_in(shares);
            }
        }
    }

    /// Its bytes, in the parts that it is kept in, which are shared and not copied. Of a small blob and of the last
    /// segment of a session, which is small too, they are a copy.
    pub fn share(&self, alloc: Global) -> Result<BlobBytes, AllocError>
        ensures { IfOk result (λ bytes. bytes ≡ self.now) }
    {
        match &self.shape {
            Shape::Small(bytes) => {
                let copy = Vec::from_slice(alloc, bytes.as_slice())?;
                BlobBytes::of(alloc, Bytes::of(copy))
            }
            Shape::One(last) => share_stretch(alloc, last),
            Shape::Several(several) => share_parts(alloc, several),
        }
    }
}

/// The bytes of one stretch, which is shared.
fn share_stretch(alloc: Global, last: &Stretch) -> Result<BlobBytes, AllocError>
    ensures { IfOk result (λ bytes. bytes ≡ last.now) }
{
    let stretch = last.share()?;
    let mut stretches = Vec::with_capacity(alloc, 1)?;
    stretches.push(stretch)?;
    Ok(BlobBytes::of_stretches(stretches))
}

/// How many bytes these are.
fn len_of(several: &Several) -> u64
    requires { length (before_last several.now) + length (body_in several.now) < 2 ^ 64 }
    ensures { result ≡ length (before_last several.now) + length (body_in several.now) }
{
    several.before.len() + len_in(several.stretches.as_slice()) + several.last.len()
}

/// The bytes of segments and a last body: all are shared but the last segment, which is copied.
fn share_parts(alloc: Global, several: &Several) -> Result<BlobBytes, AllocError>
    ensures { IfOk result (λ bytes. bytes ≡ before_last several.now ++ body_in several.now) }
{
    let behind = several.stretches.as_slice();
    let mut stretches = several.before.share(alloc)?;
    stretches.reserve(behind.len().saturating_add(1))?;
    share_all_into(&mut stretches, behind)?;
    stretches.push(several.last.share()?)?;
    Ok(BlobBytes::of_stretches(stretches))
}
