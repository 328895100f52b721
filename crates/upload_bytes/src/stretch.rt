//! A stretch of the bytes of a blob, wherever they are.
ghost use Rattle.std.specs.Prelude.{◌≡◌, ◌++◌, ◌<◌, ◌-◌, ◌^◌, length, min, IfOk, IfErr, OnOk, IsTrue, IsFalse};
ghost use Rattle.std.specs.List.{concat};

use crate::filed::FilePart;
use crate::granted::Granted;
use crate::part::Part;
use crate::shares::Shares;
use std::alloc::{AllocError, Global};
use std::marker::Model;

/// Where the bytes of a stretch are.
#[derive(Drop)]
pub enum Location {
    Here(Part),
    Filed(FilePart),
}

/// Bytes of a blob that are in memory, or in a file. It is seen as the bytes.
#[derive(Drop)]
pub struct Stretch {
    location: Location,
}

impl Model for Stretch {
    ghost use Rattle.std.specs.Prelude.{List, ℕ};
    ghost use Rattle.upload_bytes.specs.Stretches.{bytes_at};

    ghost Value = { List ℕ };

    ghost view = { λ a. bytes_at a.location };
}

impl Stretch {
    /// Bytes in memory.
    pub fn here(part: Part) -> Stretch
        ensures { result ≡ part }
    {
        Stretch {
            location: Location::Here(part),
        }
    }

    /// Bytes in a file.
    pub fn filed(part: FilePart) -> Stretch
        ensures { result ≡ part }
    {
        Stretch {
            location: Location::Filed(part),
        }
    }

    /// How many bytes there are.
    pub fn len(&self) -> u64
        ensures { result ≡ length self.now }
    {
        match &self.location {
            Location::Here(part) => part.as_slice().len() as u64,
            Location::Filed(part) => part.len(),
        }
    }

    /// Whether they are in a file.
    pub fn is_filed(&self) -> bool {
        matches!(self.location, Location::Filed(_))
    }

    /// The bytes, in place, or an `Err` with the file that has them.
    pub fn as_slice(&self) -> Result<&[u8], &FilePart>
        ensures here { IfOk result (λ bytes. bytes.now ≡ self.now) }
        ensures filed { IfErr result (λ part. part.now ≡ self.now) }
    {
        match &self.location {
            Location::Here(part) => Ok(part.as_slice()),
            Location::Filed(part) => Err(part),
        }
    }

    /// Trades the bytes for others, if they are in memory and have one owner. Says whether it did; if not, nothing
    /// changes.
    pub(crate) fn trade(&mut self, bytes: &mut Granted) -> bool
        ensures traded { IsTrue result → (self.new ≡ bytes.old) × (bytes.new ≡ self.old) }
        ensures kept { IsFalse result → (self.new ≡ self.old) × (bytes.new ≡ bytes.old) }
    {
        match &mut self.location {
            Location::Here(part) => part.trade(bytes),
            Location::Filed(_) => false,
        }
    }

    /// Has a share of its part kept, if it is in memory.
    pub(crate) fn keep_in(&self, shares: &mut Shares) {
        match &self.location {
            Location::Here(part) => shares.add_one(part),
            Location::Filed(_) => {}
        }
    }

    /// One more owner of the same bytes. It takes no memory. An `Err` comes only if there are more owners than can be
    /// counted.
    pub fn share(&self) -> Result<Stretch, AllocError>
        ensures { IfOk result (λ stretch. stretch ≡ self.now) }
    {
        match &self.location {
            Location::Here(part) => Ok(Stretch::here(part.share()?)),
            Location::Filed(part) => Ok(Stretch::filed(part.share()?)),
        }
    }
}

/// Parts that are in memory, as stretches.
pub fn all_here(alloc: Global, parts: Vec<Part>) -> Result<Vec<Stretch>, AllocError>
    ensures { IfOk result (λ stretches. stretches.items ≡ parts.items) }
{
    let mut stretches = Vec::with_capacity(alloc, parts.len())?;
    for part in parts {
        stretches.push(Stretch::here(part))?;
    }
    Ok(stretches)
}

/// How many bytes these have, or the greatest number there is if they have more.
pub fn len_in(stretches: &[Stretch]) -> u64
    ensures { result ≡ min (length (concat stretches.now)) (2 ^ 64 - 1) }
{
    let mut len: u64 = 0;
    for stretch in stretches {
        len = len.saturating_add(stretch.len());
    }
    len
}

/// Puts one more owner of each part behind others. After an `Err` some were put there.
pub fn share_parts_into(shares: &mut Vec<Stretch>, parts: &[Part]) -> Result<(), AllocError>
    ensures { OnOk result (shares.new.items ≡ shares.old.items ++ parts.now) }
{
    for part in parts {
        shares.push(Stretch::here(part.share()?))?;
    }
    Ok(())
}

/// Puts one more owner of each stretch behind others. After an `Err` some were put there.
pub fn share_all_into(shares: &mut Vec<Stretch>, stretches: &[Stretch]) -> Result<(), AllocError>
    ensures { OnOk result (shares.new.items ≡ shares.old.items ++ stretches.now) }
{
    for stretch in stretches {
        shares.push(stretch.share()?)?;
    }
    Ok(())
}
