//! Whole texts written, and heads, which are gathered first.
ghost use Rattle.std.specs.Prelude.{◌≡◌, ◌++◌, List, ℕ, IsTrue, OnOk, [], false, decimal, flat_map};
ghost use Rattle.http_wire.specs.States.{SinkState};
ghost use Rattle.http_wire.specs.Writing.{Wrote};
ghost use Rattle.httparse.specs.Ascii.{crlf_bytes};
ghost use Rattle.http_wire.specs.HeadText.{closing_fields, length_field, print_field};
ghost use Rattle.http_wire.specs.Inner.Gathering.{Gathered, Puts};

use crate::bytes::ByteSink;
use crate::excerpt::Excerpt;
use arrayvec::ArrayVec;
use itoa::Buffer;
use std::fmt;
use std::marker::Model;

/// The bytes of a head that were not written yet, at most 1,024, and whether a write failed. After
/// that nothing more is written.
#[derive(Drop)]
pub struct Gather {
    bytes: ArrayVec<u8, 1024>,
    failed: bool,
}

impl Model for Gather {
    ghost use Rattle.http_wire.specs.Inner.Gathering.{Held};

    ghost Value = { Held };

    ghost view = { λ g. record { bytes = g.bytes.items; failed = g.failed } };
}

impl Gather {
    /// Nothing yet.
    pub fn new() -> Gather
        ensures { result ≡ record { bytes = []; failed = false } }
    {
        Gather {
            bytes: ArrayVec::new(),
            failed: false,
        }
    }

    /// Puts bytes behind those that it has. Where they don't fit, what it has is written first.
    pub fn put<W: ByteSink>(&mut self, writer: &mut W, text: &[u8])
        ensures { Puts (W.state writer.old) self.old (W.state writer.new) self.new text.now }
    {
        if self.failed {
            return;
        }
        if self.bytes.try_extend_from_slice(text).is_ok() {
            return;
        }
        let done = write_all(writer, self.bytes.as_slice());
        self.bytes.clear();
        self.failed = then_write(done, writer, text).is_err();
    }

    /// Puts an excerpt of a file behind the bytes that it has, which are written first.
    pub fn put_excerpt<W: ByteSink>(&mut self, writer: &mut W, excerpt: Excerpt<'_>)
        ensures { Puts (W.state writer.old) self.old (W.state writer.new) self.new excerpt.entry.told }
    {
        if self.failed {
            return;
        }
        let done = write_all(writer, self.bytes.as_slice());
        self.bytes.clear();
        self.failed = then_write_excerpt(done, writer, excerpt).is_err();
    }

    /// Whether a write has failed: what is put from then on goes nowhere.
    pub fn has_failed(&self) -> bool
        ensures { result ≡ self.now.failed }
    {
        self.failed
    }

    /// Puts the decimal digits of a number.
    pub fn put_number<W: ByteSink>(&mut self, writer: &mut W, number: u64)
        ensures { Puts (W.state writer.old) self.old (W.state writer.new) self.new
            (decimal number) }
    {
        let mut digits = Buffer::new();
        let text = digits.format(number);
        self.put(writer, text.as_bytes());
    }

    /// Puts a field.
    pub fn put_field<W: ByteSink>(&mut self, writer: &mut W, name: &[u8], value: &[u8])
        ensures { Puts (W.state writer.old) self.old (W.state writer.new) self.new
            (print_field (name.now, value.now)) }
    {
        self.put(writer, name);
        self.put(writer, b": ");
        self.put(writer, value);
        self.put(writer, b"\r\n");
    }

    /// Puts the length of the body.
    pub fn put_length<W: ByteSink>(&mut self, writer: &mut W, size: u64)
        ensures { Puts (W.state writer.old) self.old (W.state writer.new) self.new
            (print_field (length_field size)) }
    {
        self.put(writer, b"Content-Length: ");
        self.put_number(writer, size);
        self.put(writer, b"\r\n");
    }

    /// Puts the field that closes the connection, if it closes, and the empty line.
    pub fn put_end<W: ByteSink>(&mut self, writer: &mut W, keep: bool)
        ensures { Puts (W.state writer.old) self.old
            (W.state writer.new) self.new
            (flat_map print_field (closing_fields keep) ++ crlf_bytes) }
    {
        if !keep {
            self.put_field(writer, b"Connection", b"close");
        }
        self.put(writer, b"\r\n");
    }

    /// Writes what it has and the body behind it, and flushes.
    pub fn finish<W: ByteSink>(self, writer: &mut W, body: &[u8]) -> Result<(), WriteFault>
        ensures wrote { (start : SinkState) (before : List ℕ)
            → Gathered start (W.state writer.old) self before
            → Wrote start (W.state writer.new) (before ++ body.now) result }
        ensures flushed { OnOk result (IsTrue ((W.state writer.new).flushed)) }
    {
        if self.failed {
            return Err(WriteFault);
        }
        let done = write_all(writer, self.bytes.as_slice());
        let done = then_write(done, writer, body);
        then_flush(done, writer)
    }
}

/// A write or a flush failed. What was written up to then is a prefix of the text.
#[derive(Clone, Copy, Debug, Drop, PartialEq, Eq)]
pub struct WriteFault;

impl fmt::Display for WriteFault {
    ghost use Rattle.std.specs.Prelude.{Some, codes};

    ghost output = { λ _. Some (codes "a write or a flush failed") };

    fn fmt<W: fmt::Write>(&self, f: &mut fmt::Formatter<W>) -> fmt::Result {
        f.write_str("a write or a flush failed")
    }
}

impl std::error::Error for WriteFault {}

/// Writes all the bytes, in one write if the writer takes them so.
pub fn write_all<W: ByteSink>(writer: &mut W, bytes: &[u8]) -> Result<(), WriteFault>
    ensures { Wrote (W.state writer.old) (W.state writer.new) bytes.now result }
{
    let mut at = 0;
    while at < bytes.len() {
        match writer.write(&bytes[at..]) {
            Ok(count) => at += count,
            Err(_) => return Err(WriteFault),
        }
    }
    Ok(())
}

/// Writes all of an excerpt of a file. What can't be read of it can't be written.
pub fn write_excerpt<W: ByteSink>(writer: &mut W, excerpt: Excerpt<'_>) -> Result<(), WriteFault>
    ensures { Wrote (W.state writer.old) (W.state writer.new) excerpt.entry.told result }
{
    let mut rest = excerpt;
    while rest.len() > 0 {
        match writer.write_excerpt(&rest) {
            Ok(count) => rest = rest.after(count),
            Err(_) => return Err(WriteFault),
        }
    }
    Ok(())
}

/// Writes an excerpt of a file too, unless a write has failed.
fn then_write_excerpt<W: ByteSink>(
    done: Result<(), WriteFault>,
    writer: &mut W,
    excerpt: Excerpt<'_>,
) -> Result<(), WriteFault>
    ensures { (start : SinkState) (text : List ℕ)
        → Wrote start (W.state writer.old) text done
        → Wrote start (W.state writer.new) (text ++ excerpt.entry.told) result }
{
    done?;
    write_excerpt(writer, excerpt)
}

/// Writes these bytes too, unless a write has failed.
pub fn then_write<W: ByteSink>(
    done: Result<(), WriteFault>,
    writer: &mut W,
    bytes: &[u8],
) -> Result<(), WriteFault>
    ensures { (start : SinkState) (text : List ℕ)
        → Wrote start (W.state writer.old) text done
        → Wrote start (W.state writer.new) (text ++ bytes.now) result }
{
    done?;
    write_all(writer, bytes)
}

/// Flushes, unless a write has failed.
pub fn then_flush<W: ByteSink>(
    done: Result<(), WriteFault>,
    writer: &mut W,
) -> Result<(), WriteFault>
    ensures wrote { (start : SinkState) (text : List ℕ)
        → Wrote start (W.state writer.old) text done
        → Wrote start (W.state writer.new) text result }
    ensures flushed { OnOk result (IsTrue ((W.state writer.new).flushed)) }
{
    done?;
    match writer.flush() {
        Ok(()) => Ok(()),
        Err(_) => Err(WriteFault),
    }
}
