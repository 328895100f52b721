//! Why a body can't be written, read or removed.
ghost use Rattle.std.specs.Prelude.{◌≡◌};

use std::{fmt, io};

/// Why a body can't be written, read or removed.
#[derive(Clone, Copy, Debug)]
pub enum BodyFault {
    /// The number has a file already.
    Taken,
    /// The number has no file.
    Missing,
    /// A call failed before, so that it isn't known what the disk has: no more is written.
    Ended,
    /// The body would have 2^63 bytes or more.
    TooLong,
    /// What the system answers, and a want of memory.
    Io(io::Error),
}

impl From<io::Error> for BodyFault {
    ghost use Rattle.bodies.specs.declared.fault.BodyFault.TheVariants as Fault;

    ghost from_gives = { λ error fault. fault ≡ Fault.Io error };

    fn from(error: io::Error) -> BodyFault {
        BodyFault::Io(error)
    }
}

impl fmt::Display for BodyFault {
    ghost use Rattle.bodies.specs.Faults.{body_fault_text};

    ghost output = { body_fault_text };

    fn fmt<W: fmt::Write>(&self, f: &mut fmt::Formatter<W>) -> fmt::Result {
        match self {
            BodyFault::Taken => f.write_str("a body of this number is there"),
            BodyFault::Missing => f.write_str("no body of this number is there"),
            BodyFault::Ended => f.write_str("no more is written after a call that failed"),
            BodyFault::TooLong => f.write_str("a body of 2^63 bytes or more"),
            BodyFault::Io(error) => write!(f, "{error}"),
        }
    }
}

impl std::error::Error for BodyFault {}
