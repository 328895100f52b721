//! The response to what is no request.
ghost use Rattle.std.specs.Prelude.{◌≡◌, IsTrue, OnOk};
ghost use Rattle.http_wire.specs.HeadText.{bad, bad_status};
ghost use Rattle.http_wire.specs.Writing.{Wrote};

use crate::bytes::ByteSink;
use crate::fault::Bad;
use crate::status::Status;
use crate::writing::{Gather, WriteFault};

/// The status of the response to what is no request.
pub fn bad_status(why: Bad) -> Status
    ensures { result ≡ bad_status why }
{
    match why {
        Bad::Head | Bad::Length | Bad::Chunks => Status::BadRequest,
        Bad::LongHead => Status::HeaderFieldsTooLarge,
        Bad::TooLarge => Status::ContentTooLarge,
        Bad::Coding => Status::LengthRequired,
    }
}

/// Writes the response to what is no request, by what is bad in it, and flushes it: it has no body, and closes the
/// connection. It takes no memory. `Ok` comes only if all of it was written and handed on, and no call of the writer
/// failed; else a prefix of it was written.
pub fn write_bad<W: ByteSink>(writer: &mut W, why: Bad) -> Result<(), WriteFault>
    ensures wrote { Wrote (W.state writer.old) (W.state writer.new) (bad why) result }
    ensures flushed { OnOk result (IsTrue ((W.state writer.new).flushed)) }
{
    let mut head = Gather::new();
    head.put(writer, bad_status(why).line().as_bytes());
    head.put_length(writer, 0);
    head.put_end(writer, false);
    head.finish(writer, b"")
}
