//! How a list of calls ends: all of them were made, or one found no memory. `tests/growths.py` refuses each growth of
//! such a list in turn, and no call may be answered otherwise for it.

use bodies::BodyFault;
use journal::Error;
use journal_file::OpenFault;
use std::alloc::AllocError;
use std::fmt::Display;
use std::io::{self, ErrorKind};
use std::process::Abort;
use upload_journal::ReplayFault;
use upload_store::StoreFault;

/// Why a list of calls ended early.
#[derive(Clone, Copy, Debug, PartialEq, Eq)]
pub enum Ended {
    NoMemory,
    /// An error says something else.
    Otherwise,
}

/// What a list of calls ends with.
pub type Done = Result<(), Ended>;

/// Ends the test if something doesn't hold, and says of what.
pub fn holds(rt: &impl Abort, is_so: bool, at: &impl Display) {
    assert!(rt; is_so, "{at}");
}

/// Whether all calls were made. Ends the test if they ended early for another reason than a want of memory.
pub fn is_over(rt: &impl Abort, done: Done) -> bool {
    holds(rt, done != Err(Ended::Otherwise), &"an error");
    done.is_ok()
}

/// Ends the test if not all calls were made.
pub fn is_done(rt: &impl Abort, done: Done) {
    holds(rt, done.is_ok(), &"there is memory");
}

impl From<AllocError> for Ended {
    fn from(_error: AllocError) -> Ended {
        Ended::NoMemory
    }
}

impl From<io::Error> for Ended {
    fn from(error: io::Error) -> Ended {
        match error.kind() {
            ErrorKind::OutOfMemory => Ended::NoMemory,
            _ => Ended::Otherwise,
        }
    }
}

impl From<Error> for Ended {
    fn from(error: Error) -> Ended {
        match error {
            Error::NoMemory => Ended::NoMemory,
            Error::Disk(error) | Error::Machine(error) => Ended::from(error),
            _ => Ended::Otherwise,
        }
    }
}

impl From<OpenFault> for Ended {
    fn from(fault: OpenFault) -> Ended {
        match fault {
            OpenFault::Io(error) => Ended::from(error),
            _ => Ended::Otherwise,
        }
    }
}

impl From<BodyFault> for Ended {
    fn from(fault: BodyFault) -> Ended {
        match fault {
            BodyFault::Io(error) => Ended::from(error),
            _ => Ended::Otherwise,
        }
    }
}

impl From<StoreFault> for Ended {
    fn from(fault: StoreFault) -> Ended {
        match fault {
            StoreFault::Journal(error) => Ended::from(error),
            StoreFault::Body(fault) => Ended::from(fault),
            StoreFault::Record(it) if it.fault == ReplayFault::NoMemory => Ended::NoMemory,
            _ => Ended::Otherwise,
        }
    }
}
