//! What is told of how much a service holds.
ghost use Rattle.std.specs.Prelude.{◌≤◌, ◌^◌};

use std::fmt;
use upload_service::Counts;

const KIB: u64 = 1_024;

const MIB: u64 = 1_048_576;

const GIB: u64 = 1_073_741_824;

/// The unit that a count of bytes is told in, and its name.
fn unit_of(bytes: u64) -> (u64, &'static str)
    ensures { (1 ≤ result.0) × (result.0 ≤ 2 ^ 30) }
{
    if bytes < KIB {
        (1, "B")
    } else if bytes < MIB {
        (KIB, "KiB")
    } else if bytes < GIB {
        (MIB, "MiB")
    } else {
        (GIB, "GiB")
    }
}

/// A count of bytes as it is told, with a tenth if it isn't told in bytes.
#[derive(Clone, Copy)]
pub struct ByteCount(pub u64);

impl fmt::Display for ByteCount {
    fn fmt<W: fmt::Write>(&self, f: &mut fmt::Formatter<W>) -> fmt::Result {
        let bytes = self.0;
        let (unit, name) = unit_of(bytes);
        let whole = bytes / unit;
        if unit == 1 {
            return write!(f, "{whole} {name}");
        }
        let tenth = tenth_of(bytes, unit);
        write!(f, "{whole}.{tenth} {name}")
    }
}

/// The tenths of a unit behind the whole ones.
fn tenth_of(bytes: u64, unit: u64) -> u64
    requires { (1 ≤ unit) × (unit ≤ 2 ^ 30) }
{
    bytes % unit * 10 / unit
}

/// How many bytes were read of so many, in so many milliseconds, as it is told:
/// `reading 12.3 of 41.0 GiB, 900 MiB/s, 31 s left`.
#[derive(Clone, Copy)]
pub struct Reading {
    pub done: u64,
    pub total: u64,
    pub millis: u64,
}

/// So many bytes in this unit, with a tenth.
#[derive(Clone, Copy)]
struct Tenths {
    bytes: u64,
    unit: u64,
    ghost unit_is: { (1 ≤ unit) × (unit ≤ 2 ^ 30) },
}

impl fmt::Display for Tenths {
    fn fmt<W: fmt::Write>(&self, f: &mut fmt::Formatter<W>) -> fmt::Result {
        let unit = self.unit;
        let bytes = self.bytes;
        write!(f, "{}.{}", bytes / unit, tenth_of(bytes, unit))
    }
}

impl fmt::Display for Reading {
    fn fmt<W: fmt::Write>(&self, f: &mut fmt::Formatter<W>) -> fmt::Result {
        let (unit, name) = unit_of(self.total);
        let bytes = self.done.min(self.total);
        let done = Tenths { bytes, unit };
        let bytes = self.total;
        let total = Tenths { bytes, unit };
        write!(f, "reading {done} of {total} {name}")?;
        let Some(speed) = bytes_a_second(self.done, self.millis) else {
            return Ok(());
        };
        let (unit, name) = unit_of(speed);
        let left = self.total.saturating_sub(self.done) / speed.max(1);
        write!(f, ", {} {name}/s, {left} s left", speed / unit)
    }
}

/// How many bytes are done in a second, if any are.
fn bytes_a_second(done: u64, millis: u64) -> Option<u64> {
    match done.saturating_mul(1_000).checked_div(millis) {
        Some(speed) if speed > 0 => Some(speed),
        _ => None,
    }
}

/// The blobs and the open uploads of a service, as they are told: `812 blobs, 41.0 GiB, 3 uploads open`.
#[derive(Clone, Copy)]
pub struct Holding(pub Counts);

/// The same, and what the uploads have received: `812 blobs, 41.0 GiB, 3 uploads open, 5.0 MiB in them`.
#[derive(Clone, Copy)]
pub struct WholeHolding(pub Counts);

/// So many things of one kind, as they are told: `1 record`, `2 records`.
/// A name takes an `s` behind it if there isn't just one.
#[derive(Clone, Copy)]
pub struct Quantity(pub u64, pub &'static str);

impl fmt::Display for Quantity {
    fn fmt<W: fmt::Write>(&self, f: &mut fmt::Formatter<W>) -> fmt::Result {
        let Quantity(count, name) = *self;
        let end = if count == 1 { "" } else { "s" };
        write!(f, "{count} {name}{end}")
    }
}

impl fmt::Display for Holding {
    fn fmt<W: fmt::Write>(&self, f: &mut fmt::Formatter<W>) -> fmt::Result {
        let Counts {
            blobs,
            stored,
            uploads,
            ..
        } = self.0;
        let size = ByteCount(stored);
        let (blobs, uploads) = (Quantity(blobs, "blob"), Quantity(uploads, "upload"));
        write!(f, "{blobs}, {size}, {uploads} open")
    }
}

impl fmt::Display for WholeHolding {
    fn fmt<W: fmt::Write>(&self, f: &mut fmt::Formatter<W>) -> fmt::Result {
        let size = ByteCount(self.0.received);
        write!(f, "{}, {size} in them", Holding(self.0))
    }
}
