//! Why no message could be read. Each function answers no more faults than it has, and `?` makes the wider of the
//! narrower.

use crate::bytes::Failed;
use std::alloc::AllocError;
use std::fmt;

/// Why no more came of what is read.
#[derive(Clone, Copy, Debug, Drop, PartialEq, Eq)]
pub enum InputFault {
    /// The input ended inside it.
    Truncated,
    /// A read failed in this call.
    Read,
}

impl fmt::Display for InputFault {
    ghost use Rattle.std.specs.Prelude.{Some};
    ghost use Rattle.http_wire.specs.FaultTexts.{wire_fault_text};
    ghost use Rattle.http_wire.specs.Faults.{wire_of_input};

    ghost output = { λ fault. Some (wire_fault_text (wire_of_input fault)) };

    fn fmt<W: fmt::Write>(&self, f: &mut fmt::Formatter<W>) -> fmt::Result {
        match self {
            InputFault::Truncated => f.write_str("the input ended inside a message"),
            InputFault::Read => f.write_str("a read failed"),
        }
    }
}

impl std::error::Error for InputFault {}

impl From<Failed> for InputFault {
    ghost use Rattle.std.specs.Prelude.{◌≡◌};
    ghost use Rattle.http_wire.specs.declared.fault.InputFault.TheVariants as Fault;

    ghost from_gives = { λ _ fault. fault ≡ Fault.Read };

    fn from(_failed: Failed) -> InputFault {
        InputFault::Read
    }
}

/// Why no more came of a body.
#[derive(Clone, Copy, Debug, Drop, PartialEq, Eq)]
pub enum BodyFault {
    /// The input ended inside it.
    Truncated,
    /// A read failed in this call.
    Read,
    /// Memory was wanted and refused.
    NoMemory,
}

impl fmt::Display for BodyFault {
    ghost use Rattle.std.specs.Prelude.{Some};
    ghost use Rattle.http_wire.specs.FaultTexts.{wire_fault_text};
    ghost use Rattle.http_wire.specs.Faults.{wire_of_body};

    ghost output = { λ fault. Some (wire_fault_text (wire_of_body fault)) };

    fn fmt<W: fmt::Write>(&self, f: &mut fmt::Formatter<W>) -> fmt::Result {
        match self {
            BodyFault::Truncated => f.write_str("the input ended inside a message"),
            BodyFault::Read => f.write_str("a read failed"),
            BodyFault::NoMemory => f.write_str("no memory for a message"),
        }
    }
}

impl std::error::Error for BodyFault {}

impl From<Failed> for BodyFault {
    ghost use Rattle.std.specs.Prelude.{◌≡◌};
    ghost use Rattle.http_wire.specs.declared.fault.BodyFault.TheVariants as Fault;

    ghost from_gives = { λ _ fault. fault ≡ Fault.Read };

    fn from(_failed: Failed) -> BodyFault {
        BodyFault::Read
    }
}

impl From<AllocError> for BodyFault {
    ghost use Rattle.std.specs.Prelude.{◌≡◌};
    ghost use Rattle.http_wire.specs.declared.fault.BodyFault.TheVariants as Fault;

    ghost from_gives = { λ _ fault. fault ≡ Fault.NoMemory };

    fn from(_error: AllocError) -> BodyFault {
        BodyFault::NoMemory
    }
}

impl From<InputFault> for BodyFault {
    ghost use Rattle.std.specs.Prelude.{◌≡◌};
    ghost use Rattle.http_wire.specs.Faults.{body_of_input};

    ghost from_gives = { λ fault body. body ≡ body_of_input fault };

    fn from(fault: InputFault) -> BodyFault {
        match fault {
            InputFault::Truncated => BodyFault::Truncated,
            InputFault::Read => BodyFault::Read,
        }
    }
}

/// Why a reader gives no request. After each of these it gives no more. The discriminant is its number.
#[derive(Clone, Copy, Debug, Drop, PartialEq, Eq)]
pub enum WireFault {
    /// The input ended inside a request.
    Truncated = 1,
    /// A read failed in this call.
    Read = 2,
    /// Memory was wanted and refused.
    NoMemory = 3,
    /// An earlier call ended the reading. Nothing was read.
    Ended = 4,
}

impl fmt::Display for WireFault {
    ghost use Rattle.std.specs.Prelude.{Some};
    ghost use Rattle.http_wire.specs.FaultTexts.{wire_fault_text};

    ghost output = { λ fault. Some (wire_fault_text fault) };

    fn fmt<W: fmt::Write>(&self, f: &mut fmt::Formatter<W>) -> fmt::Result {
        match self {
            WireFault::Truncated => f.write_str("the input ended inside a message"),
            WireFault::Read => f.write_str("a read failed"),
            WireFault::NoMemory => f.write_str("no memory for a message"),
            WireFault::Ended => f.write_str("the reading had ended"),
        }
    }
}

impl std::error::Error for WireFault {}

impl From<InputFault> for WireFault {
    ghost use Rattle.std.specs.Prelude.{◌≡◌};
    ghost use Rattle.http_wire.specs.Faults.{wire_of_input};

    ghost from_gives = { λ fault wire. wire ≡ wire_of_input fault };

    fn from(fault: InputFault) -> WireFault {
        match fault {
            InputFault::Truncated => WireFault::Truncated,
            InputFault::Read => WireFault::Read,
        }
    }
}

impl From<BodyFault> for WireFault {
    ghost use Rattle.std.specs.Prelude.{◌≡◌};
    ghost use Rattle.http_wire.specs.Faults.{wire_of_body};

    ghost from_gives = { λ fault wire. wire ≡ wire_of_body fault };

    fn from(fault: BodyFault) -> WireFault {
        match fault {
            BodyFault::Truncated => WireFault::Truncated,
            BodyFault::Read => WireFault::Read,
            BodyFault::NoMemory => WireFault::NoMemory,
        }
    }
}

/// What is bad in what came, so that it is no request; the discriminant is its number.
#[derive(Clone, Copy, Debug, Drop, PartialEq, Eq)]
pub enum Bad {
    /// It is no head (RFC 9112, sections 2 to 5).
    Head = 1,
    /// Its head has over 16,384 bytes (RFC 6585, section 5).
    LongHead = 2,
    /// Its Content-Length is unreadable, said twice, or beside a Transfer-Encoding (RFC 9112, section 6.3).
    Length = 3,
    /// Its body is over the limit (RFC 9110, section 15.5.14).
    TooLarge = 4,
    /// It has a coding other than one `chunked` in HTTP/1.1 (RFC 9112, section 6.3).
    Coding = 5,
    /// Its chunked body isn't of the form (RFC 9112, section 7.1).
    Chunks = 6,
}

impl fmt::Display for Bad {
    ghost use Rattle.std.specs.Prelude.{Some};
    ghost use Rattle.http_wire.specs.FaultTexts.{bad_text};

    ghost output = { λ bad. Some (bad_text bad) };

    fn fmt<W: fmt::Write>(&self, f: &mut fmt::Formatter<W>) -> fmt::Result {
        match self {
            Bad::Head => f.write_str("no head of a message"),
            Bad::LongHead => f.write_str("a head of more than 16384 bytes"),
            Bad::Length => f.write_str("a bad Content-Length"),
            Bad::TooLarge => f.write_str("a body over the limit"),
            Bad::Coding => f.write_str("a coding that is not read"),
            Bad::Chunks => f.write_str("a bad chunked body"),
        }
    }
}

impl std::error::Error for Bad {}
