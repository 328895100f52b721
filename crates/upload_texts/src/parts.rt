//! The parts of a body, and the stretches of a blob, written.
ghost use Rattle.std.specs.List.{concat};
ghost use Rattle.http_wire.specs.Inner.Gathering.{Puts};

use http_wire::{ByteSink, Gather};
use upload_bytes::{FilePart, Part, Stretch};

/// Puts parts behind a head, one after another. What fits leaves in the same write.
pub fn put_parts<W: ByteSink>(head: &mut Gather, writer: &mut W, parts: &[Part])
    ensures { Puts (W.state writer.old) head.old (W.state writer.new) head.new (concat parts.now) }
{
    for part in parts {
        head.put(writer, part.as_slice());
    }
}

/// Puts stretches of a blob behind a head, one after another: those in memory out of it, those in files as they are
/// read, piece by piece.
pub fn put_stretches<W: ByteSink>(head: &mut Gather, writer: &mut W, stretches: &[Stretch])
    ensures { Puts (W.state writer.old) head.old (W.state writer.new) head.new
        (concat stretches.now) }
{
    for stretch in stretches {
        put_stretch(head, writer, stretch);
    }
}

/// Puts a stretch.
fn put_stretch<W: ByteSink>(head: &mut Gather, writer: &mut W, stretch: &Stretch)
    ensures { Puts (W.state writer.old) head.old (W.state writer.new) head.new stretch.now }
{
    match stretch.as_slice() {
        Ok(bytes) => head.put(writer, bytes),
        Err(part) => put_file(head, writer, part),
    }
}

/// Puts all bytes of a file. What can't be read of it can't be written, which ends the text as a failed write does.
fn put_file<W: ByteSink>(head: &mut Gather, writer: &mut W, part: &FilePart)
    ensures { Puts (W.state writer.old) head.old (W.state writer.new) head.new part.now }
{
    let mut reader = part.read();
    let mut at: u64 = 0;
    while at < part.len() {
        if head.has_failed() {
            return;
        }
        reader.read_at(at);
        let excerpt = reader.excerpt();
        let count = excerpt.len() as u64;
        head.put_excerpt(writer, excerpt);
        at += count;
    }
}
